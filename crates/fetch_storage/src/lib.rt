//! The parts of storage into which a member is fetched: its text, and its address constants moved
//! with what they refer to.
#![tactic(auto)]

mod fields;
mod homes;
mod laws;
mod part;
mod parts;
mod rooms;

pub use fields::add_shift;
pub use homes::Home;
pub use laws::{fields_are_loaded, new_parts_are_zero, parts_are_extents, text_stands};
pub use part::Part;
pub use parts::Parts;
