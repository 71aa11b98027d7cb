//! The lists of a program that are made from names, by an index and the modules that were read: sections,
//! labels, unresolved names and registers, and the numbers of sections, labels and unresolved names.
#![tactic(auto)]

mod by_name;
mod gathering;
mod listing;
mod lists;
mod lookups;
mod numbering;
mod reading;

pub use listing::{push_some, unknown};
pub use lists::Lists;
pub use lookups::{number_near, section_near};
pub use numbering::Meanings;
pub use reading::Reading;
