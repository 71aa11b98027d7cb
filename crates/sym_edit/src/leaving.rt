//! A module without some of its items.
ghost use Rattle.std.specs.Prelude.{◌≡◌, map, length, slice_get, IfOk};
ghost use Rattle.std.specs.List.{filter_map};
ghost use Rattle.sym_mod.specs.Sound.{IsSoundModule};
ghost use Rattle.sym_edit.specs.Without.{remaining, item_without, fragment_without, reference, target_without, term_without, constant_without, entry_without, without};
ghost use Rattle.sym_edit.specs.SoundWithout.{IsSoundBut};

use crate::numbers::NewNumbers;
use le_bytes::{Items, Memory};
use std::alloc::{AllocError, Global};
use sym_mod::{Frag, Item, ItemKind, SymConst, SymEntry, SymModule, SymTarget, SymTerm, Terms};

#[tactic(auto, unfolding(crate::specs::Without::item_without))]
fn item_left(numbers: &NewNumbers<'_>, x: Item) -> Item
    ensures { result ≡ item_without numbers.now x }
{
    if x.kind == ItemKind::Label {
        Item {
            owner: numbers.number(x.owner).unwrap_or(x.owner),
            ..x
        }
    } else {
        x
    }
}

/// The items that stay, each label with the new number of its section.
fn items_left(
    alloc: Global,
    numbers: &NewNumbers<'_>,
    items: &[Item],
    gone: &[bool],
) -> Result<Items<Item>, AllocError>
    requires { length gone.now ≡ length items.now }
    ensures { IfOk result (λ made. made ≡ map (item_without numbers.now) (remaining gone.now items.now)) }
{
    let mut made = Items::new(alloc);
    for (at, x) in items.iter().enumerate() {
        if !gone[at] {
            made.push(item_left(numbers, *x))?;
        }
    }
    Ok(made)
}

#[tactic(auto, unfolding(crate::specs::Without::fragment_without))]
fn fragment_left(numbers: &NewNumbers<'_>, f: Frag) -> Option<Frag>
    ensures { result ≡ fragment_without numbers.now f }
{
    match numbers.number(f.item) {
        Some(item) => Some(Frag {
            item,
            offset: f.offset,
            bytes: f.bytes,
        }),
        None => None,
    }
}

/// The text of the items that stay. The bytes are not copied.
fn fragments_left(
    alloc: Global,
    numbers: &NewNumbers<'_>,
    fragments: Vec<Frag>,
) -> Result<Items<Frag>, AllocError>
    ensures { IfOk result (λ made. made ≡ filter_map (fragment_without numbers.now) fragments.items) }
{
    let mut made = Items::new(alloc);
    for f in fragments {
        if let Some(f) = fragment_left(numbers, f) {
            made.push(f)?;
        }
    }
    Ok(made)
}

/// What refers to an item that goes refers to its name.
fn reference_to(items: &[Item], i: u32, number: Option<u32>) -> SymTarget
    ensures { result ≡ reference i number (slice_get items.now i) }
{
    match (number, items.get(i as usize)) {
        (Some(n), _) => SymTarget::Own(n),
        (None, Some(x)) => SymTarget::Named(x.name),
        (None, None) => SymTarget::Own(i),
    }
}

#[tactic(auto, unfolding(crate::specs::Without::target_without))]
fn target_left(numbers: &NewNumbers<'_>, items: &[Item], target: SymTarget) -> SymTarget
    ensures { result ≡ target_without numbers.now items.now target }
{
    match target {
        SymTarget::Own(i) => reference_to(items, i, numbers.number(i)),
        SymTarget::Named(name) => SymTarget::Named(name),
        SymTarget::Register(name) => SymTarget::Register(name),
        SymTarget::Total => SymTarget::Total,
    }
}

fn terms_left(
    alloc: Global,
    numbers: &NewNumbers<'_>,
    items: &[Item],
    terms: &[SymTerm],
) -> Result<Terms<SymTerm>, AllocError>
    ensures { IfOk result (λ made. made ≡ map (term_without numbers.now items.now) terms.now) }
{
    let mut made = Terms::new(alloc);
    for t in terms {
        made.push(SymTerm {
            minus: t.minus,
            target: target_left(numbers, items, t.target),
            base: t.base,
        })?;
    }
    Ok(made)
}

#[tactic(auto, unfolding(crate::specs::Without::constant_without))]
fn constant_left(
    alloc: Global,
    numbers: &NewNumbers<'_>,
    items: &[Item],
    c: &SymConst,
) -> Result<Option<SymConst>, AllocError>
    ensures { IfOk result (λ left. left ≡ constant_without numbers.now items.now c.now) }
{
    let Some(item) = numbers.number(c.item) else {
        return Ok(None);
    };
    let terms = terms_left(alloc, numbers, items, c.terms.as_slice())?;
    Ok(Some(SymConst {
        item,
        offset: c.offset,
        length: c.length,
        kind: c.kind,
        terms,
    }))
}

/// The constants in the items that stay.
fn constants_left(
    alloc: Global,
    numbers: &NewNumbers<'_>,
    items: &[Item],
    constants: &[SymConst],
) -> Result<Items<SymConst>, AllocError>
    ensures { IfOk result (λ made. made ≡ filter_map (constant_without numbers.now items.now) constants.now) }
{
    let mut made = Items::new(alloc);
    for c in constants {
        if let Some(c) = constant_left(alloc, numbers, items, c)? {
            made.push(c)?;
        }
    }
    Ok(made)
}

#[tactic(auto, unfolding(crate::specs::Without::entry_without))]
fn entry_left(numbers: &NewNumbers<'_>, entry: SymEntry) -> SymEntry
    ensures { result ≡ entry_without numbers.now entry }
{
    match entry {
        SymEntry::None => SymEntry::None,
        SymEntry::At(item, offset) => match numbers.number(item) {
            Some(item) => SymEntry::At(item, offset),
            None => SymEntry::None,
        },
        SymEntry::Named(name) => SymEntry::Named(name),
    }
}

/// A module without the items for which `gone`, which has a value for each item, is true. Their text
/// and the constants in them go with them, and so does an entry by its place in one. What refers to
/// one of them refers to its name then, and keeps its base. An entry at a name stays. The time is that
/// of the size of the module, whose text is not copied.
///
/// A module that is sound but for what goes is sound afterwards, where no register goes, the labels of
/// a section that goes do too, and what goes and is referred to has a name.
///
/// # Errors
/// Out of memory.
#[tactic(auto, unfolding(crate::specs::Without::without))]
pub fn without(alloc: Global, m: SymModule, gone: &[bool]) -> Result<SymModule, Memory>
    requires { length gone.now ≡ length m.items }
    ensures left { IfOk result (λ n. n ≡ without gone.now m) }
    ensures sound { IsSoundBut gone.now m → IfOk result IsSoundModule }
{
    let numbers = NewNumbers::new(alloc, gone)?;
    let items = m.items.as_slice();
    let left = items_left(alloc, &numbers, items, gone)?;
    let constants = constants_left(alloc, &numbers, items, m.constants.as_slice())?;
    let fragments = fragments_left(alloc, &numbers, m.fragments.into_vec())?;
    Ok(SymModule {
        items: left,
        fragments,
        constants,
        entry: entry_left(&numbers, m.entry),
    })
}
