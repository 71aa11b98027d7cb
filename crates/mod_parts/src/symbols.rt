//! The symbol items of a written member (this project's profile).
ghost use Rattle.std.specs.Prelude.{◌≡◌, ◌≤◌, ◌-◌, ◌++◌, All, IfOk, OnOk, map};
ghost use Rattle.std.specs.List.{enumerate_from};
ghost use Rattle.load_recs.specs.ItemBytes.{IsSymbol};
ghost use Rattle.sym_mod.specs.Sound.{HasName, IsSoundLabel, IsSoundRegister};
ghost use Rattle.member_model.specs.Parts.{parts};
ghost use Rattle.member_model.specs.SymbolList.{symbol_kind, part_symbol, label_symbol, unresolved_symbol, register_symbol, symbols_written};
ghost use Rattle.mod_parts.specs.Placed.{ArePlacesOf};
ghost use Rattle.mod_parts.specs.Seen.{seen, IsPartOf};

use crate::list::PartList;
use crate::part::Part;
use le_bytes::Memory;
use load_recs::{SymbolItem, SymbolKind};
use std::alloc::{AllocError, Global};
use sym_mod::{Label, Places, Register, SecKind, Unknown};

/// The symbol items of a member: parts, labels, unresolved names and registers, each of which has its
/// number by its place. Linear in them.
///
/// # Errors
/// Want of memory.
#[tactic(auto, unfolding(member_model::specs::SymbolList::symbols_written))]
pub fn symbol_items(
    alloc: Global,
    list: &PartList<'_>,
    a: &Places,
) -> Result<Vec<SymbolItem>, Memory>
    requires { ArePlacesOf list.now a.now }
    ensures items { IfOk result (λ items. items.items ≡ symbols_written list.now) }
    ensures spelled { IfOk result (λ items. All IsSymbol items.items) }
{
    let mut items = Vec::new(alloc);
    put_parts(&mut items, list, a)?;
    put_labels(&mut items, list, a)?;
    put_unresolved(&mut items, list)?;
    put_registers(&mut items, list, a)?;
    Ok(items)
}

fn put_parts(items: &mut Vec<SymbolItem>, list: &PartList<'_>, a: &Places) -> Result<(), AllocError>
    requires places { ArePlacesOf list.now a.now }
    requires spelled { All IsSymbol items.old.items }
    ensures items { OnOk result (items.new.items ≡ items.old.items ++ map (part_symbol list.now) (parts list.now)) }
    ensures spelled { OnOk result (All IsSymbol items.new.items) }
{
    for i in 0..list.tree().count() {
        put_segment(items, list, a, list.in_segment(i + 1))?;
    }
    Ok(())
}

fn put_segment(
    items: &mut Vec<SymbolItem>,
    list: &PartList<'_>,
    a: &Places,
    parts: &[Part],
) -> Result<(), AllocError>
    requires places { ArePlacesOf list.now a.now }
    requires present { All (λ x. IsPartOf list.now (seen x)) parts.now }
    requires spelled { All IsSymbol items.old.items }
    ensures items { OnOk result (items.new.items ≡ items.old.items ++ map (part_symbol list.now) (map seen parts.now)) }
    ensures spelled { OnOk result (All IsSymbol items.new.items) }
{
    for part in parts {
        items.push(part_symbol(list, a, *part))?;
    }
    Ok(())
}

fn part_symbol(list: &PartList<'_>, a: &Places, part: Part) -> SymbolItem
    requires places { ArePlacesOf list.now a.now }
    requires present { IsPartOf list.now (seen part) }
    ensures item { result ≡ part_symbol list.now (seen part) }
    ensures spelled { IsSymbol result }
{
    SymbolItem {
        name: list.name_of(part),
        kind: symbol_kind(list.kind_of(part)),
        address: list.place_of(a, part),
        segment: list.segment_of(part),
        length: list.length_of(part),
    }
}

fn symbol_kind(kind: SecKind) -> SymbolKind
    ensures { result ≡ symbol_kind kind }
{
    match kind {
        SecKind::Sd => SymbolKind::Sd,
        SecKind::Pc => SymbolKind::Pc,
        SecKind::Cm => SymbolKind::Cm,
    }
}

fn put_labels(
    items: &mut Vec<SymbolItem>,
    list: &PartList<'_>,
    a: &Places,
) -> Result<(), AllocError>
    requires places { ArePlacesOf list.now a.now }
    requires spelled { All IsSymbol items.old.items }
    ensures items { OnOk result (items.new.items ≡ items.old.items ++ map (label_symbol list.now) list.now.program.labels) }
    ensures spelled { OnOk result (All IsSymbol items.new.items) }
{
    for label in list.program().labels.as_slice() {
        items.push(label_symbol(list, a, *label))?;
    }
    Ok(())
}

/// The item of a label, which has the segment and the item number of its section.
fn label_symbol(list: &PartList<'_>, a: &Places, label: Label) -> SymbolItem
    requires places { ArePlacesOf list.now a.now }
    requires sound { IsSoundLabel list.now.program label }
    ensures item { result ≡ label_symbol list.now label }
    ensures spelled { IsSymbol result }
{
    let section = Part::Section(label.section);
    SymbolItem {
        name: label.name,
        kind: SymbolKind::Lr,
        address: list.place_of(a, section) + label.offset,
        segment: list.segment_of(section),
        length: list.number_of(section) as u32,
    }
}

fn put_unresolved(items: &mut Vec<SymbolItem>, list: &PartList<'_>) -> Result<(), AllocError>
    requires { All IsSymbol items.old.items }
    ensures items { OnOk result (items.new.items ≡ items.old.items ++ map unresolved_symbol list.now.program.unresolved) }
    ensures spelled { OnOk result (All IsSymbol items.new.items) }
{
    for unknown in list.program().unresolved.as_slice() {
        items.push(unresolved_symbol(*unknown))?;
    }
    Ok(())
}

fn unresolved_symbol(unknown: Unknown) -> SymbolItem
    requires { HasName unknown.name }
    ensures item { result ≡ unresolved_symbol unknown }
    ensures spelled { IsSymbol result }
{
    let kind = if unknown.weak {
        SymbolKind::Wx
    } else {
        SymbolKind::Er
    };
    SymbolItem {
        name: unknown.name,
        kind,
        address: 0,
        segment: 0,
        length: 0,
    }
}

fn put_registers(
    items: &mut Vec<SymbolItem>,
    list: &PartList<'_>,
    a: &Places,
) -> Result<(), AllocError>
    requires places { ArePlacesOf list.now a.now }
    requires spelled { All IsSymbol items.old.items }
    ensures items { OnOk result (items.new.items ≡ items.old.items
        ++ map (register_symbol list.now.program.registers) (enumerate_from 0 list.now.program.registers)) }
    ensures spelled { OnOk result (All IsSymbol items.new.items) }
{
    let registers = list.program().registers.as_slice();
    for i in 0..registers.len() {
        items.push(register_symbol(a.registers.as_slice()[i], registers[i]))?;
    }
    Ok(())
}

/// The item of a register, which has its displacement, and its alignment less one as segment.
fn register_symbol(displacement: u32, register: Register) -> SymbolItem
    requires sound { IsSoundRegister register }
    requires near { displacement ≤ 16777215 }
    ensures item { result ≡ record { name = register.name; kind = SymbolKind.Pr; address = displacement; segment = register.align - 1; length = register.length } }
    ensures spelled { IsSymbol result }
{
    SymbolItem {
        name: register.name,
        kind: SymbolKind::Pr,
        address: displacement,
        segment: register.align as u8 - 1,
        length: register.length,
    }
}
