//! A linked program of one segment: its text laid, and its constants with their numbers.
#![tactic(auto)]

mod laying;
mod moving;
mod relocating;

pub use relocating::linked_text;
