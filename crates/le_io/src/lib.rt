//! The outside of the linkage editor: where its sets are read and put, and where its text is printed.
//!
//! A [`Store`] holds sets by path, a [`Sink`] takes printed text. Each says by counts which of its calls failed, so that
//! a fault that is reported can be traced to a call that failed, and none is passed over. [`MemStore`] and [`MemSink`]
//! keep all in memory and tell what they hold; [`FileStore`] and [`OutSink`] stand over files and the standard output,
//! which are trusted.
#![tactic(auto)]

mod failing;
mod file_store;
mod memory_sink;
mod memory_store;
mod out_sink;
mod replacing;
mod sink;
mod store;
mod tally;
mod whole;

pub use file_store::FileStore;
pub use memory_sink::MemSink;
pub use memory_store::MemStore;
pub use out_sink::OutSink;
pub use sink::Sink;
pub use store::{Failed, Got, SET_LIMIT, Store};
pub use whole::{ReadStop, read_all, write_all};
