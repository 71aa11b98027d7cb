//! Every constant of a program with its number, and the bytes of the overlay tables.
#![tactic(auto)]

mod addresses;
mod branches;
mod laws;
mod numbers;
mod relocating;
mod tables;
mod writing;

pub use laws::stored_text_is_linked;
pub use numbers::{Shift, patch};
pub use relocating::relocate_all;
pub use tables::{entab_bytes, segtab_bytes};
