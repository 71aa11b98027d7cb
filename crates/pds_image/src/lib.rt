//! The image of a library, this project's profile of a partitioned data set (GC28-6538) in one file,
//! as it is written: no records but those of members, and no block behind that of the last entry.
#![tactic(auto)]

mod directory;
mod laws;
mod length;
mod members;
mod numbers;
mod writing;

pub use laws::written_libraries_are_read;
pub use length::image_length;
pub use writing::image;
