//! The command `link`, and what `go` does before it places the last load module: linking and stowing.
#![tactic(auto)]

mod linking;
mod listing;
mod options;
mod stowing;

pub use linking::{link, stowed_for};
pub use options::linking_options;
pub use stowing::Stowed;
