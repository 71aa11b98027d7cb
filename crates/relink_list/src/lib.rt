//! The statements that link a member again, from its symbol items and its tree of segments.
#![tactic(auto)]

mod laws;
mod names;
mod segments;
mod tree;

pub use laws::texts_are_those_of_the_statements;
pub use names::is_writable;
pub use segments::{relink, relink_segments};
pub use tree::SegmentPlace;
