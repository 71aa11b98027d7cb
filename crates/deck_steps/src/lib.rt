//! The primary input as a list of decks, merged one after the other, or its first refusal.
#![tactic(auto)]

mod beginning;
mod cards;
mod fault;
mod merging;
mod reading;

pub use fault::{DeckFault, DeckStop};
pub use reading::read_decks;
