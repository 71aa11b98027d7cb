//! The top call: the words judged, the sets read, what they ask for linked, placed, put and printed.
#![tactic(auto)]

mod deciding;
mod going;
mod laws;
mod top;

pub use command_sets::{Fault, Status};
pub use laws::{outcomes_are_as_promised, stowed_modules_print_programs};
pub use top::linkedit;
