//! One run of linking: data sets and options in, load modules out.
#![tactic(auto)]

mod linked;
mod linking;
mod modules;
mod options;
mod printing;
mod program;
mod programs;
mod resolving;
mod sets;

pub use linked::{LinkFault, Linked};
pub use linking::link;
pub use modules::linked_module;
pub use options::Options;
pub use program::{LinkedProgram, ProgramFault, ProgramStop};
pub use programs::{entry_point, link_program};
pub use sets::primary_cards;
