//! The records of a member, one at a time, from whatever holds them.
//!
//! A [`RecordSource`] gives the records of one member by number. It holds no store: the store is handed to each call
//! beside it. [`Records`](pds_lib::Records) of a library in memory are a source, and so are [`FailingRecords`], of which
//! one call fails.
#![tactic(auto)]

mod failing;
mod lent;
mod source;

pub use failing::FailingRecords;
pub use source::RecordSource;
