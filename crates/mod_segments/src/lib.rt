//! The records of one segment of a written member: text in pieces, each with the relocation items
//! that end in it.
#![tactic(auto)]

mod chunk_list;
mod chunking;
mod cutting;
mod piece;
mod recording;
mod text;

pub use chunk_list::ChunkList;
pub use chunking::chunks;
pub use cutting::{add_section, add_table};
pub use piece::PlacedPart;
pub use recording::SegmentRecords;
