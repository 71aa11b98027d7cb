//! Why an image gave no library.
ghost use Rattle.std.specs.Prelude.{◌≡◌};
ghost use Rattle.pds_directory.specs.declared.stop.LibStop.TheVariants.{Memory};

use le_bytes::LibFault;
use std::alloc::{AllocError, AllocFailed};

/// Why an image gave no library, or its head no directory.
#[derive(Clone, Copy, Debug, PartialEq, Eq)]
pub enum LibStop {
    /// The first fault of the image.
    Bad(LibFault),
    /// Want of memory.
    Memory,
}

impl From<AllocError> for LibStop {
    ghost from_gives = { λ _ e. e ≡ Memory };

    fn from(_refused: AllocError) -> LibStop {
        LibStop::Memory
    }
}

impl<T: Drop> From<AllocFailed<T>> for LibStop {
    ghost from_gives = { λ _ e. e ≡ Memory };

    fn from(_refused: AllocFailed<T>) -> LibStop {
        LibStop::Memory
    }
}
