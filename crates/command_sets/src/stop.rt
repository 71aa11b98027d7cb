//! Why there is no answer.
ghost use Rattle.std.specs.Prelude.{◌≡◌};
ghost use Rattle.command_sets.specs.declared.stop.Stop.TheVariants.{Memory as NoMemory};

use le_bytes::{Memory, Name};

/// Why there is no answer.
#[derive(Clone, Copy, Debug, PartialEq, Eq)]
pub enum Stop {
    /// A read of the data set with this data definition name failed.
    Read(Name),
    /// Want of memory.
    Memory,
}

impl From<Memory> for Stop {
    ghost from_gives = { λ _ e. e ≡ NoMemory };

    fn from(_refused: Memory) -> Stop {
        Stop::Memory
    }
}
