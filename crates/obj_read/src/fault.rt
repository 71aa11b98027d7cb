//! Why a deck is refused.
use le_bytes::CardWhat;
use obj_cards::CardFault;
use std::alloc::{AllocError, AllocFailed};

/// The first faulty card of a deck, by its place from 0, or want of memory.
#[derive(Clone, Copy, Debug, PartialEq, Eq)]
pub enum ObjFault {
    At(usize, CardWhat),
    Memory,
}

impl From<AllocError> for ObjFault {
    ghost use Rattle.std.specs.Prelude.{◌≡◌};
    ghost use Rattle.obj_read.specs.declared.fault.ObjFault.TheVariants.{Memory};

    ghost from_gives = { λ _ e. e ≡ Memory };

    fn from(_refused: AllocError) -> ObjFault {
        ObjFault::Memory
    }
}

impl<T: Drop> From<AllocFailed<T>> for ObjFault {
    ghost use Rattle.std.specs.Prelude.{◌≡◌};
    ghost use Rattle.obj_read.specs.declared.fault.ObjFault.TheVariants.{Memory};

    ghost from_gives = { λ _ e. e ≡ Memory };

    fn from(_refused: AllocFailed<T>) -> ObjFault {
        ObjFault::Memory
    }
}

/// The fault of a card whose place the caller knows, or want of memory.
#[derive(Clone, Copy, Debug, PartialEq, Eq)]
pub enum Wrong {
    Card(CardWhat),
    Memory,
}

impl Wrong {
    ghost use Rattle.std.specs.Prelude.{◌≡◌};
    ghost use Rattle.obj_read.specs.Wrongs.{at_place};

    /// The same, of the card at a place.
    pub fn at(self, place: usize) -> ObjFault
        ensures { result ≡ at_place place self }
    {
        match self {
            Wrong::Card(what) => ObjFault::At(place, what),
            Wrong::Memory => ObjFault::Memory,
        }
    }
}

impl From<AllocError> for Wrong {
    ghost use Rattle.std.specs.Prelude.{◌≡◌};
    ghost use Rattle.obj_read.specs.declared.fault.Wrong.TheVariants.{Memory};

    ghost from_gives = { λ _ e. e ≡ Memory };

    fn from(_refused: AllocError) -> Wrong {
        Wrong::Memory
    }
}

impl From<CardFault> for Wrong {
    ghost use Rattle.std.specs.Prelude.{◌≡◌};
    ghost use Rattle.obj_cards.specs.Faults.{what_of};
    ghost use Rattle.obj_read.specs.declared.fault.Wrong.TheVariants.{Card};

    ghost from_gives = { λ fault e. e ≡ Card (what_of fault) };

    fn from(fault: CardFault) -> Wrong {
        Wrong::Card(fault.what())
    }
}
