//! A part of a written member.

/// The table of segments, a section by its number in the program, or the table of entries of a
/// segment.
#[derive(Clone, Copy, Debug, PartialEq, Eq)]
pub enum Part {
    SegmentTable,
    Section(u32),
    EntryTable(u8),
}
