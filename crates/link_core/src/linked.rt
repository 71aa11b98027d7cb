//! What linking gives.
use le_bytes::{Bytes, Items, Name, Refusal};
use pds_lib::Member;

/// A linked load module.
#[derive(Debug, Drop)]
pub struct Linked {
    /// As it goes into a library.
    pub member: Member,
    /// Whether it replaces a member of its name.
    pub replace: bool,
    /// The names that are not resolved and not weak, in order of first appearance.
    pub unresolved: Items<Name>,
    /// The lines that are printed for it.
    pub listing: Bytes,
}

/// Why not all load modules are linked.
#[derive(Debug, Drop)]
pub enum LinkFault {
    /// This is refused. The load modules before the refused one are linked, in order.
    Refused(Refusal, Items<Linked>),
    /// The card of this number of the primary input, from 1, is a statement.
    Statement(u32),
    /// Want of memory.
    Memory,
}
