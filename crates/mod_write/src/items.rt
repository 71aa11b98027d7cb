//! The relocation items of sections and overlay tables.
ghost use Rattle.std.specs.Prelude.{◌≡◌, ◌+◌, ◌*◌, ◌-◌, ◌<◌, ◌≤◌, ◌++◌, length, map, IfOk, OnOk, if◌then◌else◌};
ghost use Rattle.sym_mod.specs.Sound.{IsSoundConstant, TargetFitsKind};
ghost use Rattle.linking_model.specs.Tree.{segments};
ghost use Rattle.linking_model.specs.Tables.{entries};
ghost use Rattle.member_model.specs.Chunks.{by_address, kind_flag, outside_flag, term_item, section_items, entry_items};
ghost use Rattle.relocate.specs.Listed.{table_of};
ghost use Rattle.mod_parts.specs.Listed.{CanBeListed};
ghost use Rattle.mod_parts.specs.Placed.{ArePlacesOf};
ghost use Rattle.mod_write.specs.Chained.{AreChained};
ghost use Rattle.mod_write.specs.Items.{terms_in};

use crate::chains::Chains;
use crate::sorting::by_address;
use le_bytes::Memory;
use load_recs::RldItem;
use mod_parts::{Part, PartList};
use std::alloc::{AllocError, Global};
use sym_mod::{Constant, Kind, Places, Tables, Target, Term};

/// The constants of each section of a program.
///
/// # Errors
/// Want of memory.
pub(crate) fn chains(alloc: Global, list: &PartList<'_>) -> Result<Chains, AllocError>
    ensures value { IfOk result (AreChained list.now.program.constants (length list.now.program.sections)) }
    ensures can { IfOk result (λ _. CanBeListed list.now) }
{
    let program = list.program();
    Chains::new(alloc, program.constants.as_slice(), program.sections.len())
}

/// Fills a list with the relocation items of a section, by address and at one address in the order of
/// terms. What was in it goes, and its memory serves the next section.
///
/// # Errors
/// Want of memory.
pub(crate) fn fill_section_items(
    items: &mut Vec<RldItem>,
    list: &PartList<'_>,
    a: &Places,
    chains: &Chains,
    section: u32,
) -> Result<(), AllocError>
    requires places { ArePlacesOf list.now a.now }
    requires chained { AreChained list.now.program.constants (length list.now.program.sections) chains.now }
    requires there { section < length list.now.program.sections }
    ensures { OnOk result (items.new.items ≡ section_items list.now section) }
{
    gather(items, list, a, chains, section)?;
    by_address(items)?;
    Ok(())
}

/// Fills a list with the relocation items of a section, as its constants stand.
fn gather(
    items: &mut Vec<RldItem>,
    list: &PartList<'_>,
    a: &Places,
    chains: &Chains,
    section: u32,
) -> Result<(), AllocError>
    requires places { ArePlacesOf list.now a.now }
    requires chained { AreChained list.now.program.constants (length list.now.program.sections) chains.now }
    requires there { section < length list.now.program.sections }
    ensures { OnOk result (items.new.items ≡ terms_in list.now list.now.program.constants section) }
{
    let constants = list.program().constants.as_slice();
    items.clear();
    let mut place = chains.first[section as usize];
    while place < constants.len() {
        add_terms(items, list, a, &constants[place])?;
        place = chains.next[place];
    }
    Ok(())
}

/// Puts the items of a constant's terms after those that are there.
fn add_terms(
    items: &mut Vec<RldItem>,
    list: &PartList<'_>,
    a: &Places,
    c: &Constant,
) -> Result<(), AllocError>
    requires places { ArePlacesOf list.now a.now }
    requires sound { IsSoundConstant list.now.program c.now }
    ensures { OnOk result (items.new.items ≡ items.old.items ++ map (term_item list.now c.now) c.now.terms) }
{
    for term in c.terms.as_slice() {
        items.push(term_item(list, a, c, term))?;
    }
    Ok(())
}

/// The item of a term of a constant.
fn term_item(list: &PartList<'_>, a: &Places, c: &Constant, t: &Term) -> RldItem
    requires places { ArePlacesOf list.now a.now }
    requires sound { IsSoundConstant list.now.program c.now }
    requires fits { TargetFitsKind list.now.program c.now.kind t.now.target }
    ensures { result ≡ term_item list.now c.now t.now }
{
    let section = Part::Section(c.section);
    RldItem {
        r: u32::from(list.number_of_target(t.target)),
        p: u32::from(list.number_of(section)),
        flag: outside_flag(t.target) + kind_flag(c.kind) + 4 * (c.length - 1) + minus_flag(t),
        address: list.place_of(a, section) + c.offset,
    }
}

/// Bit 0 of the flag: the symbol is not defined.
fn outside_flag(target: Target) -> u8
    ensures value { result ≡ outside_flag target }
    ensures most { result ≤ 128 }
{
    match target {
        Target::Unresolved(_) => 0x80,
        _ => 0x00,
    }
}

/// The kind of a constant, in bits 0 to 3 of the flag.
fn kind_flag(kind: Kind) -> u8
    ensures value { result ≡ kind_flag kind }
    ensures most { result ≤ 48 }
{
    match kind {
        Kind::Address => 0x00,
        Kind::Branch => 0x10,
        Kind::Displacement => 0x20,
        Kind::Total => 0x30,
    }
}

/// Bit 6 of the flag: the term is subtracted.
fn minus_flag(t: &Term) -> u8
    ensures { result ≡ (if t.now.minus then 2 else 0) }
{
    if t.minus { 0x02 } else { 0x00 }
}

/// The relocation items of the entry table of a segment: an A-type constant of four bytes for each
/// entry.
///
/// # Errors
/// Want of memory.
pub(crate) fn entry_items(
    alloc: Global,
    list: &PartList<'_>,
    a: &Places,
    segment: u8,
) -> Result<Vec<RldItem>, Memory>
    requires places { ArePlacesOf list.now a.now }
    requires planned { list.now.entries ≡ map (entries list.now.program list.now.tree) (segments list.now.tree) }
    requires first { 1 ≤ segment }
    requires last { segment ≤ length list.now.tree }
    ensures { IfOk result (λ items. items.items ≡ entry_items list.now segment) }
{
    let part = Part::EntryTable(segment);
    let p = u32::from(list.number_of(part));
    let first = list.place_of(a, part) + 12;
    let entries = entries_of(list.tables(), segment);
    let mut items = Vec::with_capacity(alloc, entries.len())?;
    for (i, target) in entries.iter().enumerate() {
        items.push(RldItem {
            r: u32::from(list.number_of_target(*target)),
            p,
            flag: 0x0C,
            address: first + 12 * i as u32,
        })?;
    }
    Ok(items)
}

/// The targets in the table of a segment.
fn entries_of(t: &Tables, segment: u8) -> &[Target]
    ensures { result.now ≡ table_of t.now.entries segment }
{
    match t.entries.get(segment.saturating_sub(1) as usize) {
        Some(entries) => entries.as_slice(),
        None => &[],
    }
}
