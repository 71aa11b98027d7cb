//! Judgements of single records and items of a load module: each against what stood before it, and
//! against nothing else. They take no memory, but for the lists that grow with the items.
#![tactic(auto)]

mod heads;
mod kinds;
mod matching;
mod notes;
mod refused;
mod relocation;
mod segments;
mod stages;
mod symbols;

pub use heads::{begins_with_symbols, head_of};
pub use matching::{scattered_after, translated_after};
pub use notes::with_notes;
pub use refused::Refused;
pub use relocation::item_fault;
pub use segments::{lies_in, symbol_at, text_fault, text_section};
pub use stages::{Stage, is_asked, stage_of};
pub use symbols::{Symbols, end_of};
