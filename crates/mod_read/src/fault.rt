//! Why a member gives no module.
use le_bytes::RecWhat;
use std::alloc::AllocError;

/// Why a member is not read.
#[derive(Clone, Copy, Debug, PartialEq, Eq)]
pub enum ModFault {
    /// The first fault of the member: the number of its record, from 1, and what is wrong. 0 stands
    /// for the directory entry, whose entry point is judged once the symbol records end that the member
    /// begins with. A member that ends too early has the fault NoEnd at the number after its last record.
    At(u32, RecWhat),
    /// Out of memory.
    Memory,
}

impl From<AllocError> for ModFault {
    ghost use Rattle.std.specs.Prelude.{◌≡◌};
    ghost use Rattle.mod_read.specs.declared.fault.ModFault.TheVariants.{Memory as NoMemory};

    ghost from_gives = { λ _ fault. fault ≡ NoMemory };

    fn from(_refused: AllocError) -> ModFault {
        ModFault::Memory
    }
}
