//! What REPLACE and CHANGE make of a module (GC28-6538): sections and labels go, and names become
//! others. Which edits do not apply is this project's profile.
#![tactic(auto)]

mod copying;
mod editing;
mod fault;
mod judging;
mod leaving;
mod numbers;
mod renaming;
mod rows;

pub use editing::apply_edits;
pub use fault::EditFault;
pub use leaving::without;
pub use numbers::NewNumbers;
pub use rows::{entries_edited, faulty_edits, names_changed, section_goes};
