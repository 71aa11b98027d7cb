//! Scatter and translation items against the symbols.
ghost use Rattle.std.specs.Prelude.{◌≡◌, ◌≤◌, ◌==◌, false, length, drop, slice_get};
ghost use Rattle.std.specs.Option.{option_map_or};
ghost use Rattle.load_recs.specs.Items.{scatters_of, translations_of};
ghost use Rattle.member_checks.specs.Matching.{begins, count_after};

use load_recs::{scatter_item, translation_item};

const SCATTER_SIZE: usize = 4;

const TRANSLATION_SIZE: usize = 2;

/// How many scatter items have come with these, if they say the addresses after the first `done`.
#[tactic(auto, using(crate::proofs::ItemLists::count_as, crate::proofs::ItemLists::item_count, crate::proofs::ItemLists::count_within))]
pub fn scattered_after(wanted: &[usize], done: usize, items: &[u8]) -> Option<usize>
    requires { length items.now ≤ 240 }
    ensures { result ≡ count_after wanted.now done (scatters_of items.now) }
{
    if are_next_scatters(rest_from(wanted, done), items) {
        return Some(done + items.len() / SCATTER_SIZE);
    }
    None
}

/// How many translation items have come with these, if they say the numbers after the first `done`.
#[tactic(auto, using(crate::proofs::ItemLists::count_as, crate::proofs::ItemLists::item_count, crate::proofs::ItemLists::count_within))]
pub fn translated_after(wanted: &[usize], done: usize, items: &[u8]) -> Option<usize>
    requires { length items.now ≤ 240 }
    ensures { result ≡ count_after wanted.now done (translations_of items.now) }
{
    if are_next_translations(rest_from(wanted, done), items) {
        return Some(done + items.len() / TRANSLATION_SIZE);
    }
    None
}

/// What comes after the first `done`.
fn rest_from(wanted: &[usize], done: usize) -> &[usize]
    ensures { result.now ≡ drop done wanted.now }
{
    if done < wanted.len() {
        &wanted[done..]
    } else {
        &[]
    }
}

fn is_at(wanted: &[usize], k: usize, item: u32) -> bool
    ensures { result ≡ option_map_or (λ x. item == x) (slice_get wanted.now k) false }
{
    match wanted.get(k) {
        Some(number) => item as usize == *number,
        None => false,
    }
}

#[tactic(auto, using(crate::proofs::ItemLists::begins_next, crate::proofs::ItemLists::items_over))]
fn are_next_scatters(wanted: &[usize], items: &[u8]) -> bool
    requires { length items.now ≤ 240 }
    ensures { result ≡ begins (scatters_of items.now) wanted.now }
{
    for k in 0..items.len() / SCATTER_SIZE {
        if !is_at(wanted, k, scatter_item(items, k as u32)) {
            return false;
        }
    }
    true
}

#[tactic(auto, using(crate::proofs::ItemLists::begins_next, crate::proofs::ItemLists::items_over))]
fn are_next_translations(wanted: &[usize], items: &[u8]) -> bool
    requires { length items.now ≤ 240 }
    ensures { result ≡ begins (translations_of items.now) wanted.now }
{
    for k in 0..items.len() / TRANSLATION_SIZE {
        if !is_at(wanted, k, translation_item(items, k as u32)) {
            return false;
        }
    }
    true
}
