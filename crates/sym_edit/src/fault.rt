//! Why edits are not applied.
ghost use Rattle.std.specs.Prelude.{◌≡◌};
ghost use Rattle.sym_edit.specs.declared.fault.EditFault.TheVariants.{Memory as OutOfMemory};

use le_bytes::{Memory, Name};
use std::alloc::AllocError;

/// Why edits are not applied. The number is the place of the first edit that does not apply, from 0.
#[derive(Clone, Copy, Debug, PartialEq, Eq)]
pub enum EditFault {
    /// No section or label has the name that a REPLACE names, or no section, label or reference the
    /// one that a CHANGE names. The name is the first of the edit.
    NotThere(usize, Name),
    /// The second name of the edit is that of an overlay table, or a CHANGE would give a section or
    /// label the name of another. The name is the second of the edit.
    Clash(usize, Name),
    /// Out of memory.
    Memory,
}

impl From<AllocError> for EditFault {
    ghost from_gives = { λ _ e. e ≡ OutOfMemory };

    fn from(_refused: AllocError) -> EditFault {
        EditFault::Memory
    }
}

impl From<Memory> for EditFault {
    ghost from_gives = { λ _ e. e ≡ OutOfMemory };

    fn from(_refused: Memory) -> EditFault {
        EditFault::Memory
    }
}
