//! Numbers, names, codes, list types and the answers that every crate of linkedit speaks of.
#![tactic(auto)]

mod bytes;
mod card_what;
mod codes;
mod items;
mod library_fault;
mod memory;
mod name;
mod numbers;
mod place;
mod record_what;
mod refusal;
mod rounding;
#[cfg(test)]
mod tests;
mod word_what;

pub use bytes::Bytes;
pub use card_what::CardWhat;
pub use codes::{from_ascii, to_ascii};
pub use items::Items;
pub use library_fault::LibFault;
pub use memory::Memory;
pub use name::Name;
pub use numbers::{num16, num24, num32, put16, put24, put32};
pub use place::Place;
pub use record_what::{EventWhat, PlaceWhat, RecWhat, StartWhat};
pub use refusal::{Counted, Refusal, Spot, SymbolWhat};
pub use rounding::{modulus, round8};
pub use word_what::WordWhat;
