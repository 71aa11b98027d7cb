//! A member of a library of load modules as a symbolic module: its records are judged one after the
//! other, and what they hold is told by symbols. The overlay tables go, with their text, their labels
//! and their constants.
#![tactic(auto)]

mod constants;
mod entering;
mod fault;
mod fragments;
mod items;
mod laws;
mod making;
mod numbering;
mod reading;
mod terms;

pub use fault::ModFault;
pub use laws::good_members_are_sound;
pub use reading::read_load_module;
