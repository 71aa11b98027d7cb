//! The refusals: each thing that linkedit does not accept, by name.
use crate::card_what::CardWhat;
use crate::library_fault::LibFault;
use crate::name::Name;
use crate::record_what::{EventWhat, PlaceWhat, RecWhat, StartWhat};

/// Where a card or a record stands: its data definition name, its member where it is of one, and its
/// number, from 1. Of a member the number 0 stands for its directory entry.
#[derive(Clone, Copy, Debug, PartialEq, Eq)]
pub struct Spot {
    pub set: Name,
    pub member: Option<Name>,
    pub number: u32,
}

/// Why a symbol is refused.
#[derive(Clone, Copy, Debug, PartialEq, Eq)]
pub enum SymbolWhat {
    Unresolved,
    DoubleDefinition,
    EntryUnknown,
    InsertUnknown,
    ExclusiveValid,
    ExclusiveInvalid,
}

/// What is counted against a limit.
#[derive(Clone, Copy, Debug, PartialEq, Eq)]
pub enum Counted {
    Symbols,
    Includes,
    IncludeDepth,
    Segments,
    Regions,
    Entries,
    Registers,
    ModuleLength,
    Records,
    ImageLength,
}

/// What linkedit refuses.
#[derive(Clone, Copy, Debug, PartialEq, Eq)]
pub enum Refusal {
    /// The data set of this name is not there.
    SetAbsent(Name),
    /// The data set of this name has more than 67,108,864 bytes.
    TooLong(Name),
    /// The data set of this name is not a library that will do.
    NotLibrary(Name),
    /// The library of this name is damaged.
    Library(Name, LibFault),
    /// This line of the events, counted from 1, is no event.
    BadEvent(u32),
    Card(Spot, CardWhat),
    Module(Spot, RecWhat),
    /// The overlay member of this library, by both names, cannot be started.
    Overlay(Name, Name, StartWhat),
    /// The root segment has no section.
    NoSection,
    Symbol(Name, SymbolWhat),
    /// What is counted came to this number, which is too many.
    Limit(Counted, u64),
    MemberExists(Name),
    MemberAbsent(Name),
    Place(PlaceWhat),
    /// The event of this line is refused.
    Event(u32, EventWhat),
}
