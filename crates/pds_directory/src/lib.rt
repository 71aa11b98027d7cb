//! The front of a library image, this project's profile of a partitioned data set (GC28-6538) in one
//! file: the header, the directory in blocks of 256 bytes, and where the records behind it lie.
//!
//! Contracts see a directory as what its header says and its entries in their order.
#![tactic(auto)]

mod directory;
mod entries;
mod entry;
mod header;
mod kinds;
mod parts;
mod places;
mod stop;

pub use directory::{Directory, read_directory};
pub use entry::{Entry, Listed, Span};
pub use header::{Head, MOST_RECORDS};
pub use kinds::{LibKind, Version};
pub use parts::{is_below, part};
pub use places::{ends_of, read_records, run_length};
pub use stop::LibStop;
