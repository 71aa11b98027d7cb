//! What may be wrong with a card of the input.
use crate::name::Name;

/// The fault of a card: of its own layout, of what it says in its deck, or of what a statement asks for.
#[derive(Clone, Copy, Debug, PartialEq, Eq)]
pub enum CardWhat {
    /// The last card of its set has fewer than 80 bytes.
    ShortCard,
    /// The first column or the type names no kind of card.
    UnknownCard,
    /// The byte count is none that this kind of card may have.
    BadCount,
    /// An ESD item has an unknown type, a wrong alignment or no name.
    BadEsdType,
    /// An RLD flag has bits that mean nothing, or promises an item that does not come.
    BadFlag,
    /// An ESDID is 0, above 65,535 or given twice.
    BadEsdid,
    /// A card names an ESDID that no fitting item has.
    UnknownEsdid,
    /// Text does not lie in its section.
    TextOutside,
    /// A constant does not lie in its section.
    ConstantOutside,
    /// A label does not lie in its section.
    LabelOutside,
    /// The entry address does not lie in its section.
    EntryOutside,
    /// Two constants share a byte.
    ConstantsOverlap,
    /// A section is named as one of the overlay tables.
    ReservedName,
    /// The deck has no END card where it has to stand.
    NoEnd,
    /// A statement has an operation that there is not.
    UnknownOperation,
    /// The operand is wrong from this character on, counted from 1.
    BadOperand(u32),
    /// A continued statement has no continuation card.
    NoContinuation,
    /// A statement has more cards, or a load module more aliases, than there may be.
    TooMany,
    /// An edit waits for a module that does not come.
    NoModule,
    /// An edit names a section or label that the module has not.
    EditNotThere(Name),
    /// An edit gives a name that is taken.
    EditClash(Name),
    /// No word of the command has this data definition name.
    NoSuchDd(Name),
    /// The data set is not of the kind that the statement asks for.
    BadDd(Name),
    /// The library has no member of this name.
    MemberAbsent(Name),
    /// The statement may not stand here.
    NotHere,
    /// An overlay statement without the option OVLY.
    NoOvly,
    /// The region's first symbol was used before.
    RegionNameUsed(Name),
}
