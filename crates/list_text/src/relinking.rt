//! What the statements say that link a member again.
use le_bytes::{Items, Name};

/// A segment other than the root, by its OVERLAY statement and the sections that are inserted in it.
#[derive(Debug, PartialEq, Eq, Drop)]
pub struct RelinkSegment {
    /// The symbol of the OVERLAY statement.
    pub symbol: Name,
    /// Whether the segment begins a region.
    pub region: bool,
    /// The sections that INSERT statements name, in item order.
    pub inserts: Items<Name>,
}

/// The statements that link a member again.
#[derive(Debug, PartialEq, Eq, Drop)]
pub struct Relink {
    pub member: Name,
    /// The other names of the member, ascending.
    pub aliases: Items<Name>,
    /// The segments from 2 on; none without overlay.
    pub segments: Items<RelinkSegment>,
}
