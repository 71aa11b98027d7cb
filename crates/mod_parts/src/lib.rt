//! What a written member consists of: its sections and overlay tables in the order of their symbol
//! items, the number of each item, and the items.
#![tactic(auto)]

mod facts;
mod gathering;
mod list;
mod numbers;
mod part;
mod symbols;

pub use list::PartList;
pub use part::Part;
pub use symbols::symbol_items;
