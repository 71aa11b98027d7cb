//! Why the steps of a load module end.
ghost use Rattle.std.specs.Prelude.{◌≡◌};
ghost use Rattle.le_bytes.specs.declared.refusal.Refusal.TheVariants.{Card};
ghost use Rattle.link_steps.specs.Unfolding.{spot};
ghost use Rattle.link_steps.specs.declared.stop.StepStop.TheVariants.{Refused};

use crate::source::Source;
use le_bytes::{CardWhat, Memory, Refusal};
use std::alloc::{AllocError, AllocFailed};

/// Why the steps of a load module end before its NAME statement or the end of the primary input.
#[derive(Clone, Copy, Debug, PartialEq, Eq)]
pub enum StepStop {
    /// This is refused.
    Refused(Refusal),
    /// Out of memory.
    Memory,
}

impl From<AllocError> for StepStop {
    ghost use Rattle.std.specs.Prelude.{◌≡◌};
    ghost use Rattle.link_steps.specs.declared.stop.StepStop.TheVariants.{Memory};

    ghost from_gives = { λ _ e. e ≡ Memory };

    fn from(_refused: AllocError) -> StepStop {
        StepStop::Memory
    }
}

impl<T: Drop> From<AllocFailed<T>> for StepStop {
    ghost use Rattle.std.specs.Prelude.{◌≡◌};
    ghost use Rattle.link_steps.specs.declared.stop.StepStop.TheVariants.{Memory};

    ghost from_gives = { λ _ e. e ≡ Memory };

    fn from(_refused: AllocFailed<T>) -> StepStop {
        StepStop::Memory
    }
}

impl From<Memory> for StepStop {
    ghost use Rattle.std.specs.Prelude.{◌≡◌};
    ghost use Rattle.link_steps.specs.declared.stop.StepStop.TheVariants.{Memory as OutOfMemory};

    ghost from_gives = { λ _ e. e ≡ OutOfMemory };

    fn from(_refused: Memory) -> StepStop {
        StepStop::Memory
    }
}

/// A card that is refused.
pub fn card(source: Source, number: u32, what: CardWhat) -> StepStop
    ensures { result ≡ Refused (Card (spot source number) what) }
{
    StepStop::Refused(Refusal::Card(source.spot(number), what))
}
