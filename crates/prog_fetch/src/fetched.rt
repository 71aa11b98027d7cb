//! What a fetch gives.
use fetch_storage::Part;
use le_bytes::Items;
use load_recs::{NoteItem, RldItem, SymbolItem};

/// A member in storage before any event: of an overlay member the root, of any other all.
#[derive(Debug, Drop)]
pub struct Fetched {
    /// The module's range, or the range of each section of a scattered member, in item order.
    pub parts: Items<Part>,
    /// The address at which the member is entered.
    pub entry: u32,
    /// The symbol items, which count from 1.
    pub items: Items<SymbolItem>,
    /// The note items of segments 1, 2 and so on; none without overlay.
    pub notes: Items<NoteItem>,
    /// How far each item has moved, modulo 2 to the power of 32: a section, and a label with its
    /// section; 0 for any other item.
    pub shifts: Items<u32>,
    /// The relocation items that were read.
    pub fields: Items<RldItem>,
    /// How many records the member has.
    pub records: u32,
}
