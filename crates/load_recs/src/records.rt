//! What a record may be, and what may be wrong with it.
ghost use Rattle.std.specs.Prelude.{◌≡◌};
ghost use Rattle.load_recs.specs.Faults.{what_of};

use le_bytes::RecWhat;

/// What the next record of a member is: one with an identifier, or the text that the control record
/// before it told, which has none.
#[derive(Clone, Copy, Debug, PartialEq, Eq)]
pub enum Expect {
    /// A record that begins with an identifier.
    Head,
    /// Text of this many bytes.
    Text(u32),
}

/// What ends with a control or relocation record, and with its text where it tells of one. Where the
/// module ends, its last segment does.
#[derive(Clone, Copy, Debug, PartialEq, Eq)]
pub struct Ends {
    pub segment: bool,
    pub module: bool,
}

/// What a control record tells of the text record after it.
#[derive(Clone, Copy, Debug, PartialEq, Eq)]
pub struct TextHead {
    /// Where the text begins in the module, below 16,777,216.
    pub address: u32,
    /// How many bytes the text has, from 1 to 13,030.
    pub length: u32,
    /// The number of its section's symbol item, from 1.
    pub section: u32,
}

/// A record. Numbers are those of the first item, from 1, and bytes those of the items.
#[derive(Clone, Copy, Debug, PartialEq, Eq)]
pub enum Rec<'a> {
    /// Symbol items of 16 bytes.
    Cesd(u32, &'a [u8]),
    /// Scatter items of 4 bytes.
    Scatter(u32, &'a [u8]),
    /// Translation items of 2 bytes.
    Translation(u32, &'a [u8]),
    /// Note items of 12 bytes.
    Note(u32, &'a [u8]),
    /// What the text after it is.
    Control(Ends, TextHead),
    /// Relocation items.
    Rld(Ends, &'a [u8]),
    /// Relocation items, and what the text after it is.
    ControlRld(Ends, &'a [u8], TextHead),
    /// Text.
    Text(&'a [u8]),
}

/// Why bytes are no record.
#[derive(Clone, Copy, Debug, PartialEq, Eq)]
pub enum RecFault {
    /// The first byte is no identifier, or there is none.
    UnknownId,
    /// The record is shorter than its head, its counts are none that it may have or do not make up
    /// the record, its relocation items do not fill their count, or the text is not as long as told.
    BadLength,
    /// A scatter or translation record has another subtype, or a symbol item has an unknown type,
    /// another alignment, or a blank name where it needs one.
    BadType,
    /// A relocation flag has bits that mean nothing, or the last one promises a next item.
    BadFlag,
}

impl RecFault {
    /// The fault as the fault of a member's record.
    pub fn what(self) -> RecWhat
        ensures { result ≡ what_of self }
    {
        match self {
            RecFault::UnknownId => RecWhat::UnknownId,
            RecFault::BadLength => RecWhat::BadLength,
            RecFault::BadType => RecWhat::BadType,
            RecFault::BadFlag => RecWhat::BadFlag,
        }
    }
}
