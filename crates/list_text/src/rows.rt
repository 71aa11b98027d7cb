//! The rows of a map and of a cross-reference.
use le_bytes::Name;

/// What a section of a map is: an ordinary control section, private code or a common area.
#[derive(Clone, Copy, Debug, PartialEq, Eq)]
pub enum RowKind {
    Sd,
    Pc,
    Cm,
}

/// A row of a map. Private code and blank common have their printed names, `Name::PRIVATE_CODE` and
/// `Name::BLANK_COMMON`.
#[derive(Clone, Copy, Debug, PartialEq, Eq)]
pub enum MapRow {
    /// The name of a section, its kind, its address, its length in bytes, and its segment from 1.
    Section(Name, RowKind, u32, u32, u8),
    /// A label and its address.
    Label(Name, u32),
    /// A register, its displacement, and its length in bytes.
    Register(Name, u32, u32),
}

/// A row of a cross-reference: one term of an address or branch constant. Private code and blank common
/// have their printed names.
#[derive(Clone, Copy, Debug, PartialEq, Eq)]
pub struct RefRow {
    /// The section that holds the constant.
    pub section: Name,
    /// The offset of the constant in it.
    pub offset: u32,
    /// Whether the constant is V-type; else it is A-type.
    pub branch: bool,
    /// The name that the term refers to.
    pub target: Name,
    /// The address of the target in the module; none where it is unresolved.
    pub at: Option<u32>,
}
