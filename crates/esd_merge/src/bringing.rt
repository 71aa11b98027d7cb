//! What names and the items of a module mean in a program.
ghost use Rattle.std.specs.Prelude.{◌≡◌, position, unwrap_or, slice_get, option_map};
ghost use Rattle.std.specs.HashMap.{get};
ghost use Rattle.le_bytes.specs.Names.{name_eq};
ghost use Rattle.esd_index.specs.Keys.{sight};
ghost use Rattle.esd_index.specs.Contents.{now_of};
ghost use Rattle.linking_model.specs.Kept.{symbol_eq, ByName, Private};
ghost use Rattle.esd_lists.specs.Looked.{IsNumbered, number_by};
ghost use Rattle.esd_merge.specs.Meant.{home_at, name_means, item_means};

use esd_index::{Index, Key, Sighted, flag_at};
use esd_lists::{Meanings, number_near, section_near};
use le_bytes::Name;
use std::collections::HashMap;
use sym_mod::{Item, ItemKind, Target};

/// A module as it stands among the others: its number, its segment, its items and their marks.
#[derive(Clone, Copy)]
pub(crate) struct Standing<'a> {
    pub(crate) number: usize,
    pub(crate) segment: u8,
    pub(crate) items: &'a [Item],
    pub(crate) kept: &'a [bool],
}

fn sighted(at: &Standing<'_>, number: usize) -> Option<Sighted>
    ensures { option_map sight result ≡ option_map (λ x. record { of_module = at.now.number; number = number; segment = at.now.segment; item = x }) (slice_get at.now.items.now number) }
{
    match at.items.get(number) {
        Some(item) => Some(Sighted {
            of_module: at.number,
            number,
            segment: at.segment,
            item: *item,
        }),
        None => None,
    }
}

/// The number of the section in which an item is kept. The number that is likely is tried first.
#[tactic(auto, unfolding(crate::specs::Meant::home_at))]
pub(crate) fn home(index: &Index, at: &Standing<'_>, item: usize, likely: usize) -> Option<u32>
    requires { IsNumbered (now_of index.now) }
    ensures { result ≡ home_at (now_of index.now) at.now.number at.now.segment at.now.items.now at.now.kept.now item }
{
    if flag_at(at.kept, item) {
        number_near(index, likely, sighted(at, item))
    } else {
        None
    }
}

fn number_at(numbers: &HashMap<Name, u32>, name: &Name) -> u32
    ensures { result ≡ unwrap_or (get name_eq numbers.now name.now) 0 }
{
    match numbers.get(name) {
        Some(number) => *number,
        None => 0,
    }
}

/// What a name means. The section of the number that is likely is tried first.
#[tactic(auto, unfolding(crate::specs::Meant::name_means))]
pub(crate) fn name_means(index: &Index, meanings: &Meanings, name: Name, likely: usize) -> Target
    requires { IsNumbered (now_of index.now) }
    ensures { result ≡ name_means (now_of index.now) (get name_eq meanings.now.labels) (get name_eq meanings.now.unknowns) name }
{
    match section_near(index, likely, &Key::Named(name)) {
        Some(number) => Target::Section(number),
        None => match meanings.labels.get(&name) {
            Some(number) => Target::Label(*number),
            None => Target::Unresolved(number_at(&meanings.unknowns, &name)),
        },
    }
}

fn private_number(index: &Index, at: &Standing<'_>, number: usize, likely: usize) -> u32
    requires { IsNumbered (now_of index.now) }
    ensures { result ≡ unwrap_or (number_by (now_of index.now) (Private at.now.number number)) 0 }
{
    match section_near(index, likely, &Key::Private(at.number, number)) {
        Some(number) => number,
        None => 0,
    }
}

fn item_means(
    index: &Index,
    meanings: &Meanings,
    at: &Standing<'_>,
    number: usize,
    likely: usize,
) -> Target
    requires { IsNumbered (now_of index.now) }
    ensures { result ≡ item_means (now_of index.now) (get name_eq meanings.now.labels) (get name_eq meanings.now.unknowns) at.now.number number (slice_get at.now.items.now number) }
{
    match at.items.get(number) {
        None => Target::Total,
        Some(x) => match x.kind_kept() {
            ItemKind::Pc => Target::Section(private_number(index, at, number, likely)),
            _ => name_means(index, meanings, x.name, likely),
        },
    }
}

/// What a target means that names an item, where the number of the section is told in which the item
/// is kept.
#[tactic(auto, using(crate::proofs::ItemTables::home_means))]
pub(crate) fn kept_means(
    index: &Index,
    meanings: &Meanings,
    at: &Standing<'_>,
    number: usize,
    home: Option<u32>,
    likely: usize,
) -> Target
    requires small { IsNumbered (now_of index.now) }
    requires home { home ≡ home_at (now_of index.now) at.now.number at.now.segment at.now.items.now at.now.kept.now number }
    ensures { result ≡ item_means (now_of index.now) (get name_eq meanings.now.labels) (get name_eq meanings.now.unknowns) at.now.number number (slice_get at.now.items.now number) }
{
    match home {
        Some(section) => Target::Section(section),
        None => item_means(index, meanings, at, number, likely),
    }
}

/// The number of a register.
pub(crate) fn register_number(index: &Index, name: Name) -> u32
    requires { IsNumbered (now_of index.now) }
    ensures { result ≡ unwrap_or (position (symbol_eq (ByName name)) (now_of index.now).registers) 0 }
{
    match index.registers.place(&Key::Named(name)) {
        Some(place) => place as u32,
        None => 0,
    }
}
