//! The rows of a map and of a cross-reference, from the symbol items and the relocation items of a module.
#![tactic(auto)]

mod labels;
mod map;
mod references;
mod symbols;
mod worked;

pub use map::map_rows;
pub use references::{push_reference_rows, reference_rows};
pub use worked::{
    lists_of_an_overlay_member, lists_with_private_code, map_with_a_label, map_with_blank_common,
    map_with_registers,
};
