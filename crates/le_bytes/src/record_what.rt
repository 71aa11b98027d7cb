//! What may be wrong with a load module, its start, its placement or an event.
use crate::name::Name;

/// The fault of a record of a load module, or of its directory entry.
#[derive(Clone, Copy, Debug, PartialEq, Eq)]
pub enum RecWhat {
    /// The first byte names no kind of record.
    UnknownId,
    /// The record's length is not what its head says, or a count is none that it may have.
    BadLength,
    /// The subtype, or the type of an item, is unknown.
    BadType,
    /// A relocation flag has bits that mean nothing or are wrong for its symbol.
    BadFlag,
    /// The record stands where its kind may not stand.
    BadOrder,
    /// An item number names no fitting item.
    BadEsdid,
    /// A section or label does not lie where it has to.
    SectionOutside,
    /// The entry point of the directory does not lie in its section.
    BadEntryPoint,
    /// The scatter or translation items disagree with the symbols.
    BadScatter,
    /// Text does not lie in its section.
    TextOutside,
    /// A constant does not lie in its section.
    ConstantOutside,
    /// Two constants share a byte.
    ConstantsOverlap,
    /// The records end before the module does.
    NoEnd,
}

/// Why an overlay member cannot be started.
#[derive(Clone, Copy, Debug, PartialEq, Eq)]
pub enum StartWhat {
    /// The segment table is wanting or wrong.
    BadSegtab,
    /// The note list is wrong for this segment.
    BadNoteList(u8),
}

/// Why a member cannot be placed.
#[derive(Clone, Copy, Debug, PartialEq, Eq)]
pub enum PlaceWhat {
    /// The origin is no multiple of 8, or the module would end above 16,777,215.
    BadOrigin,
    /// The section fits in none of the areas.
    NoStorage(Name),
    /// Areas are given for a member that is not in scatter format.
    NotScatter,
}

/// Why an event is refused.
#[derive(Clone, Copy, Debug, PartialEq, Eq)]
pub enum EventWhat {
    /// No section has the name.
    NoSuchPlace,
    /// The section's segment is not in storage.
    NotResident(u8),
    /// No branch constant of 3 or 4 bytes stands at the place.
    NotVcon,
    /// The constant's symbol is not defined.
    Unresolved(Name),
    /// The entry at this address of an entry table is damaged.
    BadEntab(u32),
    /// This record, counted from 1, of a segment to be loaded is wrong.
    BadRecord(u32),
    /// The bytes do not lie in the section.
    OutOfSection,
    /// The bytes touch an address constant.
    TouchesConstant,
}
