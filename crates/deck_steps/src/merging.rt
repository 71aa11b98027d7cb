//! A module merged with those before it.
ghost use Rattle.std.specs.Prelude.{◌≡◌, All, IfOk};
ghost use Rattle.sym_mod.specs.Sound.{IsSoundModule};
ghost use Rattle.deck_steps.specs.Decks.{with_deck};
ghost use Rattle.deck_steps.specs.Answers.{IsInRoot, Takes};

use crate::fault::{DeckFault, DeckStop};
use esd_merge::{MergeFault, Merged};
use std::alloc::Global;
use sym_mod::SymModule;

/// The root, in which all decks of a primary input without statements come.
const ROOT: u8 = 1;

/// Merges a deck of so many cards, and answers that number.
///
/// # Errors
/// A name with two meanings, too many symbols, or want of memory.
pub(crate) fn merge_deck(
    alloc: Global,
    merged: &mut Merged,
    deck: SymModule,
    taken: usize,
) -> Result<usize, DeckStop>
    requires sound { IsSoundModule deck }
    requires root { All IsInRoot merged.old }
    ensures takes { Takes (with_deck merged.old deck taken) merged.new result }
    ensures number { IfOk result (λ n. n ≡ taken) }
    ensures root { All IsInRoot merged.new }
{
    match merged.add(alloc, deck, ROOT) {
        Ok(()) => Ok(taken),
        Err(MergeFault::DoubleDefinition(name)) => {
            Err(DeckStop::Refused(DeckFault::DoubleDefinition(name)))
        }
        Err(MergeFault::TooManySymbols(n)) => Err(DeckStop::Refused(DeckFault::TooManySymbols(n))),
        Err(MergeFault::Memory) => Err(DeckStop::Memory),
    }
}
