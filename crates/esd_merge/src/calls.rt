//! The names that are to be called, and where a module may have made one of them.
ghost use Rattle.std.specs.Prelude.{◌≡◌, true, map, option_and_then, position, slice_get};
ghost use Rattle.linking_model.specs.Kept.{symbol_eq};
ghost use Rattle.esd_index.specs.Keys.{as_symbol};
ghost use Rattle.esd_index.specs.Contents.{now_of, marked_of};
ghost use Rattle.esd_lists.specs.Listed.{unknown_by};
ghost use Rattle.esd_merge.specs.Calls.{AreInOrder, strong_name, lesser, least_place, changed_from};

use esd_index::{Index, Key, Symbols};
use esd_lists::unknown;
use le_bytes::Name;
use sym_mod::Unknown;

fn strong_name(x: Option<Unknown>) -> Option<Name>
    ensures { result ≡ strong_name x }
{
    match x {
        Some(x) => { if x.weak { None } else { Some(x.name) } }
        None => None,
    }
}

/// The name at a place in the order of first appearance, where it is to be called.
pub(crate) fn callable(index: &Index, place: usize) -> Option<Name>
    ensures { result ≡ option_and_then (λ y. strong_name (unknown_by (now_of index.now) y)) (slice_get (now_of index.now).symbols place) }
{
    match index.table.symbols().keys().get(place) {
        None => None,
        Some(key) => {
            let mut next = 0;
            strong_name(unknown(index, &mut next, key))
        }
    }
}

/// The lesser of `least` and the place of a symbol.
#[tactic(auto, unfolding(crate::specs::Calls::lesser))]
fn lesser(symbols: &Symbols, least: usize, key: &Key) -> usize
    ensures { result ≡ lesser least (position (symbol_eq (as_symbol key.now)) symbols.now.all) }
{
    match symbols.place(key) {
        Some(place) => least.min(place),
        None => least,
    }
}

fn least_place(symbols: &Symbols, most: usize, keys: &[Key]) -> usize
    ensures { result ≡ least_place symbols.now.all most (map as_symbol keys.now) }
{
    let mut least = most;
    for key in keys {
        least = lesser(symbols, least, key);
    }
    least
}

/// The first place at which what came after the mark may have made a name one that is to be called.
#[tactic(auto, unfolding(crate::specs::Calls::changed_from))]
fn changed_from(index: &Index) -> usize
    ensures { result ≡ changed_from (marked_of index.now) (now_of index.now) }
{
    let symbols = index.table.symbols();
    let by_items = least_place(symbols, symbols.marked_len(), index.table.fresh_strong());
    let by_names = least_place(symbols, by_items, index.named.fresh());
    least_place(symbols, by_names, index.labelled.fresh())
}

/// That place, where it is asked for. It costs a look-up for each name that is new among those referred to.
pub(crate) fn changed_if(index: &Index, asked: bool) -> usize
    ensures { asked ≡ true → result ≡ changed_from (marked_of index.now) (now_of index.now) }
{
    if asked { changed_from(index) } else { 0 }
}

/// A law: the names to be called, place by place, are the unresolved names that are not weak, in order.
#[tactic(auto, using(crate::proofs::Callable::in_order))]
pub fn callable_in_order()
    ensures { AreInOrder }
{}
