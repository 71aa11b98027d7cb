//! Where the segments of a member stand in its tree.

/// Where a segment stands.
#[derive(Clone, Copy, Debug, PartialEq, Eq)]
pub struct SegmentPlace {
    /// The number of its parent; 0 for segment 1.
    pub parent: u8,
    /// Its region, from 1.
    pub region: u8,
}
