//! The library image, this project's profile of a partitioned data set (GC28-6538) in one file: a
//! header, a directory of blocks of 256 bytes, and the records of the members.
//!
//! Contracts see a library as its version, its kind and its members by name, each with its entry and
//! its records.
#![tactic(auto)]

mod laws;
mod library;
mod member;
mod reading;
mod records;
mod set;
mod stow;
mod table;

pub use laws::{empty_libraries_are_sound, read_libraries_are_sound, stows_keep_libraries_sound};
pub use library::Library;
pub use member::{AliasAt, Member, StowFault};
pub use pds_directory::{
    Directory, Entry, Head, LibKind, LibStop, Listed, Span, Version, read_directory,
};
pub use records::Records;
pub use set::{Body, Set};
