//! The records of a written member before those of its segments: symbol, scatter, translation and
//! note records.
#![tactic(auto)]

mod cutting;
mod heads;
mod notes;

pub use heads::head_records;
pub use notes::note_records;
