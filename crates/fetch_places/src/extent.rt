//! Bytes of storage one after the other.

/// Bytes of storage one after the other.
#[derive(Clone, Copy, Debug, PartialEq, Eq, PartialOrd, Ord)]
pub struct Extent {
    /// The address of the first.
    pub at: u32,
    /// How many there are.
    pub count: u32,
}
