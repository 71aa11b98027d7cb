//! What a member is called, where it is entered, and how it is written.
use le_bytes::{Items, Name};

/// How a member is written.
#[derive(Clone, Copy, Debug, PartialEq, Eq)]
pub struct Format {
    /// With overlay tables and a note list.
    pub overlay: bool,
    /// With the items by which its sections can be scattered.
    pub scatter: bool,
    /// The bytes of text in a record, from 1 to 13,030: 1,024 in a version 1 library and 13,030 in a
    /// version 2 library.
    pub piece: u32,
}

/// An entry point: a section by its number in the program, from 0, and an address in the module.
#[derive(Clone, Copy, Debug, PartialEq, Eq)]
pub struct PointAt {
    pub section: u32,
    pub address: u32,
}

/// Another name of a member, with an entry point of its own.
#[derive(Clone, Copy, Debug, PartialEq, Eq)]
pub struct AliasPoint {
    pub name: Name,
    pub point: PointAt,
}

/// The name and the entry point of a member, and those of each alias.
#[derive(Debug, Drop, PartialEq, Eq)]
pub struct Naming {
    pub name: Name,
    pub point: PointAt,
    pub aliases: Items<AliasPoint>,
}
