//! What may be wrong with a library image.

/// The fault of a library image, this project's profile of a partitioned data set in one file.
#[derive(Clone, Copy, Debug, PartialEq, Eq)]
pub enum LibFault {
    /// The header, or the length that it asks for.
    BadHeader,
    /// This directory block, counted from 1.
    BadDirectory(u32),
    /// This entry, by its block and its place there, both counted from 1.
    BadEntry(u32, u32),
    /// This record, counted from 1.
    BadRecord(u32),
}
