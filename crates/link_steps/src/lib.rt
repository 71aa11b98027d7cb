//! The steps of the primary input: what its cards bring, with each set and member that INCLUDE statements
//! name unfolded in its place, and what each step does to what a load module gathers.
//!
//! The definitions are whole: `cards_from` and `entered` unfold cards into steps up to the first refusal, and
//! `after_all` says what is gathered after them. The code has the steps, one method each.
#![tactic(auto)]

mod asked;
mod beginning;
mod gathering;
mod input;
mod saying;
mod source;
mod stop;
mod waiting;

pub use asked::{Asked, asked_fault, asked_of, body_of, libraries_fault};
pub use beginning::{Beginning, begun_by};
pub use gathering::Gathering;
pub use input::Input;
pub use source::Source;
pub use stop::{StepStop, card};
pub use waiting::{Waiting, WaitingEdits};
