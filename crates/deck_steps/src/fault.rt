//! Why a list of decks is refused.
use le_bytes::{CardWhat, Name};
use std::alloc::{AllocError, AllocFailed};

/// The first thing in a list of decks that is refused. Cards are counted from 1.
#[derive(Clone, Copy, Debug, PartialEq, Eq)]
pub enum DeckFault {
    /// The card of this number is faulty.
    Card(u32, CardWhat),
    /// The card of this number is a statement, which a list of decks has not.
    Statement(u32),
    /// The module that was read last gives this name a second meaning.
    DoubleDefinition(Name),
    /// With the module that was read last there are this many symbols, which is too many.
    TooManySymbols(u64),
}

/// Why there are no merged modules: the first refusal, or want of memory.
#[derive(Clone, Copy, Debug, PartialEq, Eq)]
pub enum DeckStop {
    Refused(DeckFault),
    Memory,
}

impl From<AllocError> for DeckStop {
    ghost use Rattle.std.specs.Prelude.{◌≡◌};
    ghost use Rattle.deck_steps.specs.declared.fault.DeckStop.TheVariants.{Memory};

    ghost from_gives = { λ _ e. e ≡ Memory };

    fn from(_refused: AllocError) -> DeckStop {
        DeckStop::Memory
    }
}

impl<T: Drop> From<AllocFailed<T>> for DeckStop {
    ghost use Rattle.std.specs.Prelude.{◌≡◌};
    ghost use Rattle.deck_steps.specs.declared.fault.DeckStop.TheVariants.{Memory};

    ghost from_gives = { λ _ e. e ≡ Memory };

    fn from(_refused: AllocFailed<T>) -> DeckStop {
        DeckStop::Memory
    }
}
