//! What an edit finds in a module, and whether it applies.
ghost use Rattle.std.specs.Prelude.{◌≡◌, nat_lt, count_by, IfOk};
ghost use Rattle.std.specs.List.{list_any};
ghost use Rattle.sym_edit.specs.Edited.{is_section_named, is_defined_as, is_symbol_named, is_target_named, refers_by_name, is_entry_named, is_known, clashes, first_fault, fault_of, stands_in, gone_with};

use crate::fault::EditFault;
use le_bytes::Name;
use std::alloc::{AllocError, Global};
use sym_mod::{Edit, Item, ItemKind, SymConst, SymEntry, SymModule, SymTarget, is_reserved};

/// Whether the item is a section of the name. Private code has none.
fn is_section_named(name: &Name, x: &Item) -> bool
    ensures { result ≡ is_section_named name.now x.now }
{
    matches!(x.kind, ItemKind::Sd | ItemKind::Cm) && x.name == *name
}

/// Whether the item is a section or label of the name.
fn is_defined_as(name: &Name, x: &Item) -> bool
    ensures { result ≡ is_defined_as name.now x.now }
{
    matches!(x.kind, ItemKind::Sd | ItemKind::Cm | ItemKind::Label) && x.name == *name
}

/// Whether some item is a section of the name.
pub(crate) fn has_section(name: &Name, items: &[Item]) -> bool
    ensures { result ≡ list_any (is_section_named name.now) items.now }
{
    items.iter().any(|x| is_section_named(name, x))
}

/// Whether some item is a section or label of the name.
fn is_defined(name: &Name, items: &[Item]) -> bool
    ensures { result ≡ list_any (is_defined_as name.now) items.now }
{
    items.iter().any(|x| is_defined_as(name, x))
}

/// Whether some item is a section, label or reference of the name.
fn has_symbol(name: &Name, items: &[Item]) -> bool
    ensures { result ≡ list_any (is_symbol_named name.now) items.now }
{
    items
        .iter()
        .any(|x| x.kind != ItemKind::Register && x.name == *name)
}

fn is_target_named(name: &Name, target: &SymTarget) -> bool
    ensures { result ≡ is_target_named name.now target.now }
{
    match target {
        SymTarget::Named(y) => y == name,
        _ => false,
    }
}

fn refers_by_name(name: &Name, c: &SymConst) -> bool
    ensures { result ≡ refers_by_name name.now c.now }
{
    c.terms
        .as_slice()
        .iter()
        .any(|t| is_target_named(name, &t.target))
}

/// Whether some constant refers to the name.
fn is_referred_to(name: &Name, constants: &[SymConst]) -> bool
    ensures { result ≡ list_any (refers_by_name name.now) constants.now }
{
    constants.iter().any(|c| refers_by_name(name, c))
}

fn is_entry_named(name: &Name, entry: &SymEntry) -> bool
    ensures { result ≡ is_entry_named name.now entry.now }
{
    match entry {
        SymEntry::Named(y) => y == name,
        _ => false,
    }
}

/// Whether the module has a section, label or reference of the name.
fn is_known(name: &Name, m: &SymModule) -> bool
    ensures { result ≡ is_known name.now m.now }
{
    has_symbol(name, m.items.as_slice())
        || is_referred_to(name, m.constants.as_slice())
        || is_entry_named(name, &m.entry)
}

/// Whether two items are sections or labels of the name.
fn is_defined_twice(name: &Name, items: &[Item]) -> bool
    ensures { result ≡ nat_lt 1 (count_by (is_defined_as name.now) items.now) }
{
    items.iter().filter(|x| is_defined_as(name, x)).count() > 1
}

/// Whether a section or label has the old name, and another the new one.
fn clashes(old: &Name, new: &Name, items: &[Item]) -> bool
    ensures { result ≡ clashes old.now new.now items.now }
{
    if old == new {
        is_defined_twice(old, items)
    } else {
        is_defined(old, items) && is_defined(new, items)
    }
}

fn first_fault(at: usize, old: Name, new: Name, there: bool, clash: bool) -> Option<EditFault>
    ensures { result ≡ first_fault at old new there clash }
{
    if !there {
        Some(EditFault::NotThere(at, old))
    } else if clash {
        Some(EditFault::Clash(at, new))
    } else {
        None
    }
}

/// Why the edit, which stands at place `at`, does not apply to the module.
#[tactic(auto, unfolding(crate::specs::Edited::fault_of))]
pub(crate) fn fault_of(at: usize, m: &SymModule, edit: &Edit) -> Option<EditFault>
    ensures { result ≡ fault_of at m.now edit.now }
{
    let items = m.items.as_slice();
    match *edit {
        Edit::Remove(old) => first_fault(at, old, old, is_defined(&old, items), false),
        Edit::Replace(old, new) => {
            first_fault(at, old, new, is_defined(&old, items), is_reserved(&new))
        }
        Edit::Change(old, new) => first_fault(
            at,
            old,
            new,
            is_known(&old, m),
            is_reserved(&new) || clashes(&old, &new, items),
        ),
    }
}

/// Whether the item is a label in a section of the name.
fn stands_in(name: &Name, items: &[Item], x: &Item) -> bool
    ensures { result ≡ stands_in name.now items.now x.now }
{
    x.kind == ItemKind::Label
        && match items.get(x.owner as usize) {
            Some(owner) => is_section_named(name, owner),
            None => false,
        }
}

/// For each item whether it goes where sections and labels of the name go.
pub(crate) fn gone_with(alloc: Global, name: &Name, items: &[Item]) -> Result<Vec<bool>, AllocError>
    ensures { IfOk result (λ gone. gone.items ≡ gone_with name.now items.now) }
{
    let mut gone = Vec::with_capacity(alloc, items.len())?;
    for x in items {
        gone.push(is_defined_as(name, x) || stands_in(name, items, x))?;
    }
    Ok(gone)
}
