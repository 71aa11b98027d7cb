//! The bytes of the sections of a program, behind one trait, so that what writes them knows nothing
//! of how they are kept.
#![tactic(auto)]

mod keeper;
#[cfg(test)]
mod tests;
mod whole;

pub use keeper::TextKeeper;
pub use whole::WholeText;
