//! Where items of the modules that were read are kept.
ghost use Rattle.std.specs.Prelude.{◌≡◌, ◌<◌, length, position, slice_get, option_map, option_and_then, IfSome};
ghost use Rattle.std.specs.List.{list_any};
ghost use Rattle.linking_model.specs.Kept.{symbol_eq, section_symbol};
ghost use Rattle.esd_index.specs.Keys.{as_symbol, sight};
ghost use Rattle.esd_index.specs.Contents.{now_of};
ghost use Rattle.esd_lists.specs.Held.{is_marked_in};
ghost use Rattle.esd_lists.specs.Looked.{IsNumbered, rank_by, number_by, seen_by, home_by};

use crate::reading::Reading;
use esd_index::{Index, Key, Sighted, flag_at, stands_at};
use sym_mod::Item;

/// The place of a symbol in the order of first appearance. Where it is likely to stand is tried first,
/// and costs no hash.
#[tactic(auto, using(crate::proofs::Places::placed, crate::proofs::Places::stands_within))]
fn symbol_place(index: &Index, likely: usize, key: &Key) -> Option<usize>
    requires { IsNumbered (now_of index.now) }
    ensures place { result ≡ position (symbol_eq (as_symbol key.now)) (now_of index.now).symbols }
    ensures within { IfSome result (λ place. place < length (now_of index.now).symbols) }
{
    let symbols = index.table.symbols();
    if stands_at(symbols.keys(), likely, key) {
        return Some(likely);
    }
    symbols.place(key)
}

/// The place of a symbol among the sections. Where it is likely to stand is tried first, and costs no
/// hash.
#[tactic(auto, using(crate::proofs::Places::placed, crate::proofs::Places::stands_within))]
fn section_place(index: &Index, likely: usize, key: &Key) -> Option<usize>
    requires { IsNumbered (now_of index.now) }
    ensures place { result ≡ position (symbol_eq (as_symbol key.now)) (now_of index.now).sections }
    ensures within { IfSome result (λ place. place < length (now_of index.now).sections) }
{
    if stands_at(index.table.sections(), likely, key) {
        return Some(likely);
    }
    index.table.section_place(key)
}

/// The place of a name among those of SD items. Where it is likely to stand is tried first, and costs
/// no hash.
#[tactic(auto, using(crate::proofs::Places::placed, crate::proofs::Places::stands_within))]
pub(crate) fn control_place(index: &Index, likely: usize, key: &Key) -> Option<usize>
    requires { IsNumbered (now_of index.now) }
    ensures { result ≡ position (symbol_eq (as_symbol key.now)) (now_of index.now).controls }
{
    if stands_at(index.table.controls(), likely, key) {
        return Some(likely);
    }
    index.table.control_place(key)
}

/// The place of a symbol in the order of first appearance, 0 where it has none. It is looked for first
/// at `next`, which becomes the place behind it: mostly symbols are asked for in the order in which they
/// stand.
pub(crate) fn rank(index: &Index, next: &mut usize, key: &Key) -> u32
    requires { IsNumbered (now_of index.now) }
    ensures { result ≡ rank_by (now_of index.now) (as_symbol key.now) }
{
    match symbol_place(index, *next, key) {
        Some(place) => {
            *next = place.saturating_add(1);
            place as u32
        }
        None => 0,
    }
}

/// Whether a symbol is a section. It is looked for first at `next`, which becomes the place behind it:
/// mostly sections are asked for in the order in which they stand.
#[tactic(auto, using(crate::proofs::Places::stands_among))]
pub(crate) fn is_section(index: &Index, next: &mut usize, key: &Key) -> bool
    ensures { result ≡ list_any (symbol_eq (as_symbol key.now)) (now_of index.now).sections }
{
    if stands_at(index.table.sections(), *next, key) {
        *next = next.saturating_add(1);
        return true;
    }
    match index.table.section_place(key) {
        Some(place) => {
            *next = place.saturating_add(1);
            true
        }
        None => false,
    }
}

/// The number of a section, from 0 in the order of their items; None exactly where no section has the
/// symbol. The number that is likely is tried first, and costs no hash.
pub fn section_near(index: &Index, likely: usize, key: &Key) -> Option<u32>
    requires { IsNumbered (now_of index.now) }
    ensures { result ≡ number_by (now_of index.now) (as_symbol key.now) }
{
    match section_place(index, likely, key) {
        Some(place) => Some(place as u32),
        None => None,
    }
}

fn item_at(reading: &Reading, number: usize) -> Option<Item>
    ensures { result ≡ slice_get reading.now.read.items number }
{
    reading.read.items.get(number).copied()
}

/// An item of a module.
pub(crate) fn seen(reads: &[Reading], of_module: usize, number: usize) -> Option<Sighted>
    ensures { option_map sight result ≡ seen_by reads.now of_module number }
{
    match reads.get(of_module) {
        None => None,
        Some(reading) => match item_at(reading, number) {
            None => None,
            Some(item) => Some(Sighted {
                of_module,
                number,
                segment: reading.segment,
                item,
            }),
        },
    }
}

fn is_marked(reads: &[Reading], of_module: usize, number: usize) -> bool
    ensures { result ≡ is_marked_in reads.now of_module number }
{
    match reads.get(of_module) {
        None => false,
        Some(reading) => flag_at(reading.kept.as_slice(), number),
    }
}

/// The number of the section that has the symbol of an item; None where there is no item, where it is no
/// section, and where no section has its symbol. The number that is likely is tried first, and costs no
/// hash.
pub fn number_near(index: &Index, likely: usize, x: Option<Sighted>) -> Option<u32>
    requires { IsNumbered (now_of index.now) }
    ensures { result ≡ option_and_then (number_by (now_of index.now)) (option_and_then section_symbol (option_map sight x)) }
{
    match x {
        None => None,
        Some(x) => match x.section_symbol() {
            None => None,
            Some(key) => section_near(index, likely, &key),
        },
    }
}

/// The number of the section in which an item of a module is kept.
#[tactic(auto, unfolding(crate::specs::Looked::home_by))]
pub(crate) fn home(index: &Index, reads: &[Reading], of_module: usize, number: usize) -> Option<u32>
    requires { IsNumbered (now_of index.now) }
    ensures { result ≡ home_by (now_of index.now) reads.now of_module number }
{
    if is_marked(reads, of_module, number) {
        // Mostly each module has one section.
        number_near(index, of_module, seen(reads, of_module, number))
    } else {
        None
    }
}
