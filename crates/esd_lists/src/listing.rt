//! The sections, labels, registers and unresolved names of a program.
ghost use Rattle.std.specs.Prelude.{◌≡◌, false, [], Some, fold, slice_get, option_map, IfOk, OnOk};
ghost use Rattle.std.specs.HashMap.{get};
ghost use Rattle.le_bytes.specs.Names.{name_eq};
ghost use Rattle.linking_model.specs.Kept.{ByName};
ghost use Rattle.esd_index.specs.Keys.{as_symbol, sight};
ghost use Rattle.esd_index.specs.Contents.{now_of};
ghost use Rattle.esd_lists.specs.Looked.{IsNumbered, seen_by};
ghost use Rattle.esd_lists.specs.Gathered.{control_at, area_in, extent_in};
ghost use Rattle.esd_lists.specs.Listed.{pushed, at_name, named_by, private_by, section_by, register_by, has, is_referenced_by, is_weak_by, unknown_by};

use crate::by_name::{Area, Extent, First};
use crate::gathering::extent_at;
use crate::lookups::{control_place, is_section, rank, seen};
use crate::reading::Reading;
use esd_index::{Index, Key, Sighted, Symbols};
use le_bytes::{Items, Name};
use std::alloc::{AllocError, Global};
use std::collections::HashMap;
use sym_mod::{Label, Register, SecKind, Section, Unknown};

/// Puts what there is at the end of a list.
///
/// # Errors
/// Want of memory.
pub fn push_some<T: Drop>(list: &mut Items<T>, x: Option<T>) -> Result<(), AllocError>
    ensures { OnOk result (list.new ≡ pushed list.old x) }
{
    match x {
        Some(x) => list.push(x),
        None => Ok(()),
    }
}

// ---- sections

fn copied(alloc: Global, users: &[u8]) -> Result<Items<u8>, AllocError>
    ensures { IfOk result (λ copy. copy ≡ users.now) }
{
    let mut copy = Vec::new(alloc);
    copy.extend_from_slice(users)?;
    Ok(Items::from_vec(copy))
}

/// The area of a name. Nothing is looked up where there are no areas.
fn area_at(alloc: Global, areas: &HashMap<Name, Area>, name: &Name) -> Result<Area, AllocError>
    ensures { IfOk result (λ area. area ≡ area_in (get name_eq areas.now name.now)) }
{
    if areas.is_empty() {
        return Ok(Area::none(alloc));
    }
    match areas.get(name) {
        Some(area) => Ok(Area {
            users: copied(alloc, area.users.as_slice())?,
            length: area.length,
        }),
        None => Ok(Area::none(alloc)),
    }
}

/// What the first SD item of a name brings, where the first are listed in the order of their names.
fn control_at(index: &Index, controls: &[First], next: &mut usize, name: Name) -> Option<First>
    requires { IsNumbered (now_of index.now) }
    ensures { result ≡ control_at (now_of index.now).controls controls.now name }
{
    let place = control_place(index, *next, &Key::Named(name))?;
    *next = place.saturating_add(1);
    controls.get(place).copied()
}

/// Where the next section is likely to stand, among the symbols and among the first SD items.
#[derive(Drop)]
struct Likely {
    symbol: usize,
    control: usize,
}

/// An area, or the SD that is kept, with the greatest length of the areas of its name.
#[tactic(auto, unfolding(crate::specs::Listed::named_by))]
fn named_section(
    alloc: Global,
    index: &Index,
    name: Name,
    controls: &[First],
    areas: &HashMap<Name, Area>,
    likely: &mut Likely,
) -> Result<Section, AllocError>
    requires { IsNumbered (now_of index.now) }
    ensures { IfOk result (λ section. section ≡ named_by (now_of index.now) name (control_at (now_of index.now).controls controls.now name) (area_in (get name_eq areas.now name))) }
{
    let rank = rank(index, &mut likely.symbol, &Key::Named(name));
    let Area { users, length } = area_at(alloc, areas, &name)?;
    match control_at(index, controls, &mut likely.control, name) {
        Some(first) => Ok(Section {
            name,
            kind: SecKind::Sd,
            rank,
            segment: first.segment,
            users,
            length: first.length.max(length),
        }),
        None => Ok(Section {
            name,
            kind: SecKind::Cm,
            rank,
            segment: 0,
            users,
            length,
        }),
    }
}

#[tactic(auto, unfolding(crate::specs::Listed::private_by))]
fn private_section(
    alloc: Global,
    index: &Index,
    key: &Key,
    x: &Sighted,
    likely: &mut Likely,
) -> Section
    requires { IsNumbered (now_of index.now) }
    ensures { result ≡ private_by (now_of index.now) (as_symbol key.now) (sight x.now) }
{
    Section {
        name: Name::BLANK,
        kind: SecKind::Pc,
        rank: rank(index, &mut likely.symbol, key),
        segment: x.segment,
        users: Items::new(alloc),
        length: x.item.length,
    }
}

fn private_at(
    alloc: Global,
    index: &Index,
    key: &Key,
    x: Option<Sighted>,
    likely: &mut Likely,
) -> Option<Section>
    requires { IsNumbered (now_of index.now) }
    ensures { result ≡ option_map (private_by (now_of index.now) (as_symbol key.now)) (option_map sight x) }
{
    match x {
        Some(x) => Some(private_section(alloc, index, key, &x, likely)),
        None => None,
    }
}

fn section(
    alloc: Global,
    index: &Index,
    reads: &[Reading],
    controls: &[First],
    areas: &HashMap<Name, Area>,
    key: &Key,
    likely: &mut Likely,
) -> Result<Option<Section>, AllocError>
    requires { IsNumbered (now_of index.now) }
    ensures { IfOk result (λ section. section ≡ section_by (now_of index.now) reads.now (control_at (now_of index.now).controls controls.now) (λ y. area_in (get name_eq areas.now y)) (as_symbol key.now)) }
{
    match key {
        Key::Named(name) => {
            let section = named_section(alloc, index, *name, controls, areas, likely)?;
            Ok(Some(section))
        }
        Key::Private(module, number) => {
            let x = seen(reads, *module, *number);
            Ok(private_at(alloc, index, key, x, likely))
        }
    }
}

/// The sections, in the order of their first items.
pub(crate) fn sections(
    alloc: Global,
    index: &Index,
    reads: &[Reading],
    controls: &[First],
    areas: &HashMap<Name, Area>,
) -> Result<Items<Section>, AllocError>
    requires { IsNumbered (now_of index.now) }
    ensures { IfOk result (λ list. list ≡ fold (λ xs y. pushed xs (section_by (now_of index.now) reads.now (control_at (now_of index.now).controls controls.now) (λ y. area_in (get name_eq areas.now y)) y)) [] (now_of index.now).sections) }
{
    let mut list = Items::from_vec(Vec::with_capacity(alloc, index.table.sections().len())?);
    let mut likely = Likely {
        symbol: 0,
        control: 0,
    };
    for key in index.table.sections() {
        let section = section(alloc, index, reads, controls, areas, key, &mut likely)?;
        push_some(&mut list, section)?;
    }
    Ok(list)
}

// ---- labels and registers

fn label_of(labels: &HashMap<Name, Label>, key: &Key) -> Option<Label>
    ensures { result ≡ at_name (get name_eq labels.now) (as_symbol key.now) }
{
    if labels.is_empty() {
        return None;
    }
    match key {
        Key::Named(name) => labels.get(name).copied(),
        Key::Private(..) => None,
    }
}

/// The labels, in order of first appearance.
pub(crate) fn labels(
    alloc: Global,
    index: &Index,
    labels: &HashMap<Name, Label>,
) -> Result<Items<Label>, AllocError>
    ensures { IfOk result (λ list. list ≡ fold (λ xs y. pushed xs (at_name (get name_eq labels.now) y)) [] (now_of index.now).symbols) }
{
    let mut list = Items::from_vec(Vec::with_capacity(alloc, labels.len())?);
    for key in index.table.symbols().keys() {
        push_some(&mut list, label_of(labels, key))?;
    }
    Ok(list)
}

fn register_of(extents: &HashMap<Name, Extent>, key: &Key) -> Option<Register>
    ensures { result ≡ at_name (λ y. Some (register_by y (extent_in (get name_eq extents.now y)))) (as_symbol key.now) }
{
    match key {
        Key::Named(name) => {
            let extent = extent_at(extents, name);
            Some(Register {
                name: *name,
                length: extent.length,
                align: extent.align,
            })
        }
        Key::Private(..) => None,
    }
}

/// The registers, in order of first appearance.
pub(crate) fn registers(
    alloc: Global,
    index: &Index,
    extents: &HashMap<Name, Extent>,
) -> Result<Items<Register>, AllocError>
    ensures { IfOk result (λ list. list ≡ fold (λ xs y. pushed xs (at_name (λ y. Some (register_by y (extent_in (get name_eq extents.now y)))) y)) [] (now_of index.now).registers) }
{
    let mut list = Items::from_vec(Vec::with_capacity(alloc, index.registers.len())?);
    for key in index.registers.keys() {
        push_some(&mut list, register_of(extents, key))?;
    }
    Ok(list)
}

// ---- unresolved names

fn has(symbols: &Symbols, name: Name) -> bool
    ensures { result ≡ has symbols.now.all name }
{
    symbols.has(&Key::Named(name))
}

fn is_referenced(index: &Index, name: Name) -> bool
    ensures { result ≡ is_referenced_by (now_of index.now) name }
{
    (index.table.is_strong(&Key::Named(name)) || has(&index.weak, name))
        || (has(&index.named, name) || has(&index.labelled, name))
}

fn is_weak(index: &Index, name: Name) -> bool
    ensures { result ≡ is_weak_by (now_of index.now) name }
{
    (has(&index.weak, name) && !index.table.is_strong(&Key::Named(name)))
        && !has(&index.labelled, name)
}

/// A name that no section has, where it is unresolved.
#[tactic(auto, unfolding(crate::specs::Listed::unknown_by))]
fn unknown_name(index: &Index, name: Name) -> Option<Unknown>
    requires { has (now_of index.now).sections name ≡ false }
    ensures { result ≡ unknown_by (now_of index.now) (ByName name) }
{
    if has(&index.labels, name) || !is_referenced(index, name) {
        return None;
    }
    Some(Unknown {
        name,
        weak: is_weak(index, name),
    })
}

/// The name of a symbol and whether it is weak, where the name is unresolved; None where it is defined or
/// nothing refers to it. A section is looked for first at `next`, which becomes the place behind it:
/// mostly symbols are asked for in the order in which they stand.
#[tactic(auto, unfolding(crate::specs::Listed::unknown_by))]
pub fn unknown(index: &Index, next: &mut usize, key: &Key) -> Option<Unknown>
    ensures { result ≡ unknown_by (now_of index.now) (as_symbol key.now) }
{
    match key {
        Key::Named(name) => {
            if is_section(index, next, key) {
                None
            } else {
                unknown_name(index, *name)
            }
        }
        Key::Private(..) => None,
    }
}

/// The unresolved names, in order of first appearance.
pub(crate) fn unknowns(alloc: Global, index: &Index) -> Result<Items<Unknown>, AllocError>
    ensures { IfOk result (λ list. list ≡ fold (λ xs y. pushed xs (unknown_by (now_of index.now) y)) [] (now_of index.now).symbols) }
{
    let mut list = Items::new(alloc);
    let mut next = 0;
    for key in index.table.symbols().keys() {
        push_some(&mut list, unknown(index, &mut next, key))?;
    }
    Ok(list)
}
