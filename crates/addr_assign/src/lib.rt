//! Which segment each section stands in, and which address each section, table and register gets.
#![tactic(auto)]

mod assigning;
mod measuring;
mod origins;
mod placing;
mod pointing;
mod registers;
mod settling;

pub use assigning::{AssignFault, are_in_tree, assign};
pub use pointing::{Point, alias_point, entry_point};
pub use settling::{SettleFault, settle};
