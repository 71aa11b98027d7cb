//! What REPLACE and CHANGE statements ask for.
use le_bytes::Name;

/// One operand of a REPLACE or CHANGE statement.
#[derive(Clone, Copy, Debug, PartialEq, Eq)]
pub enum Edit {
    /// The sections and labels of the name go; references to it stay.
    Remove(Name),
    /// The sections and labels of the first name go; references to it become references to the second.
    Replace(Name, Name),
    /// What has the first name, sections, labels and references, gets the second.
    Change(Name, Name),
}
