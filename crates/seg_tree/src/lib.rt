//! The segments of an overlay program, as OVERLAY statements begin them.
#![tactic(auto)]

mod node;
mod tree;

pub use tree::{SegTree, TreeFault};
