//! A segment of an overlay program.

/// A segment: the number of its parent, from 1, and 0 for the root, and the number of its region,
/// from 1 to 4. Segments are numbered from 1, in the order in which they begin.
#[derive(Clone, Copy, Debug, PartialEq, Eq)]
pub struct Segment {
    pub parent: u8,
    pub region: u8,
}
