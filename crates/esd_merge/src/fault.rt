//! Why a module is not added to those that were read.
ghost use Rattle.std.specs.Prelude.{◌≡◌};
ghost use Rattle.esd_merge.specs.declared.fault.MergeFault.TheVariants.{Memory};

use le_bytes::Name;
use std::alloc::{AllocError, AllocFailed};

/// Why a module is not added to those that were read.
#[derive(Clone, Copy, Debug, PartialEq, Eq)]
pub enum MergeFault {
    /// The name of the first item that gives a name a second meaning: a kept label with the name of
    /// another kept section or label (GC28-6538).
    DoubleDefinition(Name),
    /// So many names, private sections and registers would have appeared, more than 32,511 (this
    /// project's profile).
    TooManySymbols(u64),
    /// Want of memory.
    Memory,
}

impl From<AllocError> for MergeFault {
    ghost from_gives = { λ _ e. e ≡ Memory };

    fn from(_refused: AllocError) -> MergeFault {
        MergeFault::Memory
    }
}

impl<T: Drop> From<AllocFailed<T>> for MergeFault {
    ghost from_gives = { λ _ e. e ≡ Memory };

    fn from(_refused: AllocFailed<T>) -> MergeFault {
        MergeFault::Memory
    }
}
