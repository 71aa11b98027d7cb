//! The statements, and why cards hold none.
ghost use Rattle.std.specs.Prelude.{◌≡◌};
ghost use Rattle.ctl_cards.specs.declared.statement.StmtFault.TheVariants.{Memory};

use le_bytes::{Items, Name};
use std::alloc::{AllocError, AllocFailed};

/// A data set to be included, `dd`, or members of it, `dd(member,..)`.
#[derive(Debug, PartialEq, Eq, Drop)]
pub struct IncludeItem {
    pub dd: Name,
    /// Empty where the data set itself is included.
    pub members: Items<Name>,
}

/// What a LIBRARY statement says of symbols.
#[derive(Debug, PartialEq, Eq, Drop)]
pub enum LibraryItem {
    /// `dd(symbol,..)`: these symbols are called from this library.
    From(Name, Items<Name>),
    /// `(symbol,..)`: they are not called for this load module.
    NoCall(Items<Name>),
    /// `*(symbol,..)`: they are not called for this and all later load modules.
    NeverCall(Items<Name>),
}

/// A control statement. Its names are as they stand on the card, in EBCDIC.
#[derive(Debug, PartialEq, Eq, Drop)]
pub enum Statement {
    /// `INCLUDE dd,dd(member,..),..`
    Include(Items<IncludeItem>),
    /// `LIBRARY dd(symbol,..),(symbol,..),*(symbol,..),..`
    Library(Items<LibraryItem>),
    /// `REPLACE old,old(new),..`: without a new name the section is deleted.
    Replace(Items<(Name, Option<Name>)>),
    /// `CHANGE old(new),..`
    Change(Items<(Name, Name)>),
    /// `ENTRY symbol`
    Entry(Name),
    /// `ALIAS name,..`: 1 to 16 names.
    Alias(Items<Name>),
    /// `NAME name`, or `NAME name(R)` with true: a member of that name is replaced.
    NameOf(Name, bool),
    /// `INSERT section,..`
    Insert(Items<Name>),
    /// `OVERLAY symbol`, or `OVERLAY symbol(REGION)` with true: the segment begins a region.
    Overlay(Name, bool),
}

/// Why cards hold no statement. The faults are tried in this order: TooMany and NoContinuation card by
/// card, UnknownOperation, BadOperand, TooMany of names.
#[derive(Clone, Copy, Debug, PartialEq, Eq)]
pub enum StmtFault {
    /// The operation is none of the nine.
    UnknownOperation,
    /// The operand has not the form that its operation asks for. The number is one more than the length
    /// of its longest prefix with which a valid operand of this operation may begin.
    BadOperand(u32),
    /// A card is continued, and the card at this place, from 0, is wanting, or its columns 1 to 15 are
    /// not blank. The place is the number of cards exactly where a card is wanting.
    NoContinuation(usize),
    /// The 32nd card is continued, or an ALIAS statement has more than 16 names.
    TooMany,
    /// Want of memory.
    Memory,
}

impl From<AllocError> for StmtFault {
    ghost from_gives = { λ _ e. e ≡ Memory };

    fn from(_refused: AllocError) -> StmtFault {
        StmtFault::Memory
    }
}

impl<T: Drop> From<AllocFailed<T>> for StmtFault {
    ghost from_gives = { λ _ e. e ≡ Memory };

    fn from(_refused: AllocFailed<T>) -> StmtFault {
        StmtFault::Memory
    }
}
