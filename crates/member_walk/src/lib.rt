//! A walk over the records of a load module, one after the other: it judges each record after those
//! before it and keeps what later records and the module's users need. Text is not kept.
#![tactic(auto)]

mod faults;
mod field_places;
mod fields;
mod gathered;
mod laws;
mod parts;
mod walk;

pub use faults::WalkFault;
pub use fields::SegmentField;
pub use laws::{
    fetch_ends, fetch_meets_faults, fetch_reads, fetch_runs_out, texts_are_told, whole_members_end,
};
pub use parts::{TextPlace, WalkParts};
pub use walk::Walk;
