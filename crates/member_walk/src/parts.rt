//! What a walk hands to its user.
use crate::fields::SegmentField;
use load_recs::{NoteItem, SymbolItem};

/// Where a text record lies.
#[derive(Clone, Copy, Debug, PartialEq, Eq)]
pub struct TextPlace {
    /// The segment's number, from 1.
    pub segment: u32,
    /// The item number of its section, from 1.
    pub section: u32,
    /// The address in the module of its first byte.
    pub address: u32,
}

/// What a walk has kept, in the order of the records.
#[derive(Debug, Drop)]
pub struct WalkParts {
    /// The symbol items, which count from 1.
    pub symbols: Vec<SymbolItem>,
    /// The note items of segments 1, 2 and so on.
    pub notes: Vec<NoteItem>,
    /// The relocation items.
    pub fields: Vec<SegmentField>,
}
