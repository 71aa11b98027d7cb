//! The member of a linked program, with its directory data: head records, the note list of an overlay
//! program, and the records of each segment.
#![tactic(auto)]

mod chains;
mod items;
mod naming;
mod records;
mod segments;
mod sorting;
mod writing;

pub use naming::{AliasPoint, Format, Naming, PointAt};
pub use writing::write_member;
