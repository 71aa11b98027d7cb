//! A module in which one name stands for another.
ghost use Rattle.std.specs.Prelude.{◌≡◌, map, IfOk};
ghost use Rattle.sym_edit.specs.Renamed.{new_name, item_renamed, target_renamed, term_renamed, constant_renamed, entry_renamed, renamed};

use le_bytes::{Items, Memory, Name};
use std::alloc::{AllocError, Global};
use sym_mod::{Item, ItemKind, SymConst, SymEntry, SymModule, SymTarget, SymTerm, Terms};

#[tactic(auto, unfolding(crate::specs::Renamed::new_name))]
fn new_name(old: &Name, new: &Name, name: Name) -> Name
    ensures { result ≡ new_name old.now new.now name }
{
    if name == *old { *new } else { name }
}

#[tactic(auto, unfolding(crate::specs::Renamed::item_renamed))]
fn item_renamed(old: &Name, new: &Name, x: Item) -> Item
    ensures { result ≡ item_renamed old.now new.now x }
{
    if x.kind == ItemKind::Register {
        x
    } else {
        Item {
            name: new_name(old, new, x.name),
            ..x
        }
    }
}

fn items_renamed(
    alloc: Global,
    old: &Name,
    new: &Name,
    items: &[Item],
) -> Result<Items<Item>, AllocError>
    ensures { IfOk result (λ made. made ≡ map (item_renamed old.now new.now) items.now) }
{
    let mut made = Items::from_vec(Vec::with_capacity(alloc, items.len())?);
    for x in items {
        made.push(item_renamed(old, new, *x))?;
    }
    Ok(made)
}

#[tactic(auto, unfolding(crate::specs::Renamed::target_renamed))]
fn target_renamed(old: &Name, new: &Name, target: SymTarget) -> SymTarget
    ensures { result ≡ target_renamed old.now new.now target }
{
    match target {
        SymTarget::Own(i) => SymTarget::Own(i),
        SymTarget::Named(name) => SymTarget::Named(new_name(old, new, name)),
        SymTarget::Register(name) => SymTarget::Register(name),
        SymTarget::Total => SymTarget::Total,
    }
}

fn terms_renamed(
    alloc: Global,
    old: &Name,
    new: &Name,
    terms: &[SymTerm],
) -> Result<Terms<SymTerm>, AllocError>
    ensures { IfOk result (λ made. made ≡ map (term_renamed old.now new.now) terms.now) }
{
    let mut made = Terms::new(alloc);
    for t in terms {
        made.push(SymTerm {
            minus: t.minus,
            target: target_renamed(old, new, t.target),
            base: t.base,
        })?;
    }
    Ok(made)
}

#[tactic(auto, unfolding(crate::specs::Renamed::constant_renamed))]
fn constant_renamed(
    alloc: Global,
    old: &Name,
    new: &Name,
    c: &SymConst,
) -> Result<SymConst, AllocError>
    ensures { IfOk result (λ made. made ≡ constant_renamed old.now new.now c.now) }
{
    let terms = terms_renamed(alloc, old, new, c.terms.as_slice())?;
    Ok(SymConst {
        item: c.item,
        offset: c.offset,
        length: c.length,
        kind: c.kind,
        terms,
    })
}

fn constants_renamed(
    alloc: Global,
    old: &Name,
    new: &Name,
    constants: &[SymConst],
) -> Result<Items<SymConst>, AllocError>
    ensures { IfOk result (λ made. made ≡ map (constant_renamed old.now new.now) constants.now) }
{
    let mut made = Items::from_vec(Vec::with_capacity(alloc, constants.len())?);
    for c in constants {
        made.push(constant_renamed(alloc, old, new, c)?)?;
    }
    Ok(made)
}

#[tactic(auto, unfolding(crate::specs::Renamed::entry_renamed))]
fn entry_renamed(old: &Name, new: &Name, entry: SymEntry) -> SymEntry
    ensures { result ≡ entry_renamed old.now new.now entry }
{
    match entry {
        SymEntry::None => SymEntry::None,
        SymEntry::At(item, offset) => SymEntry::At(item, offset),
        SymEntry::Named(name) => SymEntry::Named(new_name(old, new, name)),
    }
}

/// A module in which sections, labels and references have the name `new` where they had `old`, the
/// entry among them. Registers have names of their own, which stay. The time is that of the size of
/// the module, whose text is not copied.
///
/// # Errors
/// Out of memory.
#[tactic(auto, unfolding(crate::specs::Renamed::renamed))]
pub(crate) fn renamed(
    alloc: Global,
    m: SymModule,
    old: &Name,
    new: &Name,
) -> Result<SymModule, Memory>
    ensures { IfOk result (λ n. n ≡ renamed old.now new.now m) }
{
    let items = items_renamed(alloc, old, new, m.items.as_slice())?;
    let constants = constants_renamed(alloc, old, new, m.constants.as_slice())?;
    Ok(SymModule {
        items,
        fragments: m.fragments,
        constants,
        entry: entry_renamed(old, new, m.entry),
    })
}
