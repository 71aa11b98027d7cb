//! Reading the decks of the primary input.
ghost use Rattle.std.specs.Prelude.{◌≡◌, ◌+◌, ◌<◌, ◌≤◌, [], drop, length, slice_index_or, All, IfOk};
ghost use Rattle.obj_cards.specs.Cards.{card_of};
ghost use Rattle.obj_read.specs.Decks.{deck_of};
ghost use Rattle.deck_steps.specs.Decks.{decks_of, merged_from, begun_by, step_at, deck_step, what_at};
ghost use Rattle.deck_steps.specs.Answers.{IsInRoot, Reads, Takes};

use crate::beginning::{Beginning, begun_by};
use crate::cards::{has_short_card, whole_cards};
use crate::fault::{DeckFault, DeckStop};
use crate::merging::merge_deck;
use esd_merge::Merged;
use le_bytes::CardWhat;
use obj_read::{ObjFault, read_module};
use std::alloc::Global;

/// The decks of the primary input, merged one after the other, each in segment 1. Comments may stand
/// before, between and after decks.
///
/// Cards are judged in the order in which they stand, and the first refusal counts: a faulty card,
/// first of itself and then as `read_module` says; a statement; and at the END card of a deck a name
/// with two meanings or too many symbols. A last card of fewer than 80 bytes is faulty (ShortCard)
/// when it is reached, also by a deck that has no END card before it.
///
/// Linear in the bytes, but for the look-ups of the merge. The number of bytes is bounded by 64 MiB.
///
/// # Errors
/// The first refusal, or want of memory.
#[tactic(auto, unfolding(crate::specs::Decks::decks_of))]
pub fn read_decks(alloc: Global, bytes: &[u8]) -> Result<Merged, DeckStop>
    requires { length bytes.now ≤ 67108864 }
    ensures reads { Reads (decks_of bytes.now) result }
    ensures root { IfOk result (All IsInRoot) }
{
    merge_decks(alloc, whole_cards(bytes), has_short_card(bytes))
}

/// The decks of whole cards, with or without a shorter card after them.
fn merge_decks(alloc: Global, cards: &[[u8; 80]], short: bool) -> Result<Merged, DeckStop>
    requires { length cards.now ≤ 838860 }
    ensures reads { Reads (merged_from short 1 [] 0 cards.now) result }
    ensures root { IfOk result (All IsInRoot) }
{
    let mut merged = Merged::new(alloc);
    let mut from = 0;
    while from < cards.len() {
        match take_step(alloc, &mut merged, cards, short, from) {
            Ok(taken) => from += taken,
            Err(stop) => return Err(stop),
        }
    }
    if short {
        let number = cards.len() as u32 + 1;
        Err(DeckStop::Refused(DeckFault::Card(number, CardWhat::ShortCard)))
    } else {
        Ok(merged)
    }
}

/// Merges what the card at place `from` begins, and answers the number of its cards.
fn take_step(
    alloc: Global,
    merged: &mut Merged,
    cards: &[[u8; 80]],
    short: bool,
    from: usize,
) -> Result<usize, DeckStop>
    requires few { length cards.now ≤ 838860 }
    requires within { from < length cards.now }
    requires root { All IsInRoot merged.old }
    ensures takes { Takes (step_at short (from + 1) merged.old (drop from cards.now) (begun_by (card_of (slice_index_or cards.now from [])))) merged.new result }
    ensures some { IfOk result (λ taken. 1 ≤ taken) }
    ensures inside { IfOk result (λ taken. from + taken ≤ length cards.now) }
    ensures root { All IsInRoot merged.new }
{
    let number = from as u32 + 1;
    match begun_by(&cards[from]) {
        Beginning::Nothing => Ok(1),
        Beginning::AStatement => Err(DeckStop::Refused(DeckFault::Statement(number))),
        Beginning::ADeck => take_deck(alloc, merged, &cards[from..], short, number),
    }
}

/// Merges the deck at the head of the cards, the first of which has this number, and answers the number
/// of its cards.
#[tactic(auto, using(crate::proofs::Walking::has_card))]
fn take_deck(
    alloc: Global,
    merged: &mut Merged,
    cards: &[[u8; 80]],
    short: bool,
    number: u32,
) -> Result<usize, DeckStop>
    requires few { length cards.now ≤ 838860 }
    requires small { number ≤ 838860 }
    requires root { All IsInRoot merged.old }
    ensures takes { Takes (deck_step short number merged.old (length cards.now) (deck_of cards.now)) merged.new result }
    ensures some { IfOk result (λ taken. 1 ≤ taken) }
    ensures inside { IfOk result (λ taken. taken ≤ length cards.now) }
    ensures root { All IsInRoot merged.new }
{
    match read_module(alloc, cards) {
        Ok((deck, taken)) => merge_deck(alloc, merged, deck, taken),
        Err(ObjFault::At(place, what)) => Err(DeckStop::Refused(DeckFault::Card(
            number + place as u32,
            what_at(short, cards.len(), place, what),
        ))),
        Err(ObjFault::Memory) => Err(DeckStop::Memory),
    }
}

/// What is wrong at a place of a deck of which there are so many cards: a card that it lacks is the
/// short card where there is one.
fn what_at(short: bool, count: usize, place: usize, what: CardWhat) -> CardWhat
    ensures { result ≡ what_at short count place what }
{
    if short && place == count {
        CardWhat::ShortCard
    } else {
        what
    }
}
