//! A linked program, and why there is none.
use le_bytes::Refusal;
use seg_tree::SegTree;
use sym_mod::{Places, Program, Tables};

/// A linked program: its segments, of which there is one, its tables without entries, and its addresses.
#[derive(Drop)]
pub struct LinkedProgram {
    pub program: Program,
    pub tree: SegTree,
    pub tables: Tables,
    pub places: Places,
}

/// What comes first in the primary input that gives no program.
#[derive(Clone, Copy, Debug, PartialEq, Eq)]
pub enum ProgramFault {
    /// This is refused.
    Refused(Refusal),
    /// The card of this number, from 1, is a statement.
    Statement(u32),
}

/// Why there is no linked program.
#[derive(Clone, Copy, Debug, PartialEq, Eq)]
pub enum ProgramStop {
    Fault(ProgramFault),
    /// Want of memory.
    Memory,
}
