//! Why a walk ends.
use le_bytes::RecWhat;

/// Why a record is not taken.
#[derive(Clone, Copy, Debug, PartialEq, Eq)]
pub enum WalkFault {
    /// The first fault of the member: the number of its record, from 1, and what is wrong. 0 stands
    /// for the entry point, which is judged once the symbol records end that the member begins with.
    At(u32, RecWhat),
    /// A growth was refused.
    Memory,
}
