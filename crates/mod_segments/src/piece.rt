//! Parts of a member and the pieces of their text.
use crate::chunk_list::ChunkList;
use le_bytes::Bytes;
use load_recs::RldItem;

/// A part of a member that has text: a section or an overlay table.
#[derive(Clone, Copy, Debug)]
pub struct PlacedPart<'a> {
    /// The number of its symbol item, from 1.
    pub number: u32,
    /// Where it stands in the module, in bytes.
    pub address: u32,
    /// Its length in bytes.
    pub length: u32,
    /// Its relocation items, in the order of their last bytes. None tells of the next.
    pub items: &'a [RldItem],
}

/// A piece of the text of a part, for one text record.
#[derive(Debug, Drop)]
pub(crate) struct Piece {
    /// The number of the part's symbol item.
    pub section: u32,
    /// Where the piece stands in the module, in bytes.
    pub address: u32,
    pub bytes: Bytes,
    /// The relocation items whose last byte lies in the piece, in chunks of at most 240 bytes.
    pub chunks: ChunkList,
}
