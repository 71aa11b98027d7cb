//! Why a member is not placed or fetched.
ghost use Rattle.std.specs.Prelude.{◌≡◌};
ghost use Rattle.prog_fetch.specs.Faults.{fault_of, scatter_fault_of};

use le_bytes::{Memory, Name, RecWhat};
use member_walk::WalkFault;

/// Why a member is not fetched.
#[derive(Clone, Copy, Debug, PartialEq, Eq)]
pub enum FetchFault {
    /// The first fault of the records that were read, with the record's number, from 1; number 0 is
    /// the entry point, or BadScatter where the sections do not fit the placement.
    At(u32, RecWhat),
    /// A record could not be read.
    ReadFault,
    /// Want of memory.
    Memory,
}

/// Why a member is not placed over areas.
#[derive(Clone, Copy, Debug, PartialEq, Eq)]
pub enum ScatterFault {
    /// The member is not in scatter format, or has overlay.
    NotScatter,
    /// The first fault that comes before want of storage, with the record's number as in `FetchFault`.
    Record(u32, RecWhat),
    /// The section of this name fits in none of the areas.
    NoStorage(Name),
    /// A record could not be read.
    ReadFault,
    /// Want of memory.
    Memory,
}

impl From<Memory> for FetchFault {
    ghost use Rattle.prog_fetch.specs.declared.fault.FetchFault.TheVariants.{Memory as NoMemory};

    ghost from_gives = { λ _ fault. fault ≡ NoMemory };

    fn from(_refused: Memory) -> FetchFault {
        FetchFault::Memory
    }
}

/// The fault of a walk as that of a fetch.
pub(crate) fn fault_of(fault: WalkFault) -> FetchFault
    ensures { result ≡ fault_of fault }
{
    match fault {
        WalkFault::At(number, what) => FetchFault::At(number, what),
        WalkFault::Memory => FetchFault::Memory,
    }
}

/// The fault of a walk as that of a placement.
pub(crate) fn scatter_fault_of(fault: WalkFault) -> ScatterFault
    ensures { result ≡ scatter_fault_of fault }
{
    match fault {
        WalkFault::At(number, what) => ScatterFault::Record(number, what),
        WalkFault::Memory => ScatterFault::Memory,
    }
}
