//! Why a member is not printed.
ghost use Rattle.std.specs.Prelude.{◌≡◌};
ghost use Rattle.fetch_text.specs.Stops.{stop_of};

use le_bytes::{Memory, PlaceWhat, RecWhat};
use prog_fetch::FetchFault;

/// Why a member is not printed as it stands in storage.
#[derive(Clone, Copy, Debug, PartialEq, Eq)]
pub enum FetchStop {
    /// The member cannot stand there.
    Place(PlaceWhat),
    /// The first fault of the records that a fetch reads, with the record's number, from 1; number 0 is
    /// the entry point.
    Module(u32, RecWhat),
    /// A record could not be read.
    ReadFault,
    /// Want of memory.
    Memory,
}

impl From<Memory> for FetchStop {
    ghost use Rattle.fetch_text.specs.declared.stop.FetchStop.TheVariants.{Memory as NoMemory};

    ghost from_gives = { λ _ why. why ≡ NoMemory };

    fn from(_refused: Memory) -> FetchStop {
        FetchStop::Memory
    }
}

/// Why a member is not fetched, as why it is not printed.
pub(crate) fn stop_of(fault: FetchFault) -> FetchStop
    ensures { result ≡ stop_of fault }
{
    match fault {
        FetchFault::At(number, what) => FetchStop::Module(number, what),
        FetchFault::ReadFault => FetchStop::ReadFault,
        FetchFault::Memory => FetchStop::Memory,
    }
}
