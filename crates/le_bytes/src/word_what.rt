//! What may be wrong with a word of the command line.
use crate::name::Name;

/// Why a word of the command line is refused.
#[derive(Clone, Copy, Debug, PartialEq, Eq)]
pub enum WordWhat {
    /// There is no word at all.
    NoCommand,
    /// The first word is no command.
    UnknownCommand,
    /// The word is not a key, `=` and a value.
    NotKeyValue,
    /// The key stood before.
    Repeated,
    /// The command has no use for the key.
    NotUsed,
    /// An origin and areas are both given.
    Excluded,
    /// The value has not the form that its key asks for.
    BadValue,
    /// This key is wanting.
    Missing(Name),
}
