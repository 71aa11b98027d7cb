//! Directory entries.
ghost use Rattle.std.specs.Prelude.{◌≡◌};
ghost use Rattle.pds_directory.specs.Attributes.{has_overlay, has_scatter};

use le_bytes::Name;

/// An entry of the directory: a member, or another name of one.
#[derive(Clone, Copy, Debug, PartialEq, Eq)]
pub struct Entry {
    pub name: Name,
    /// The name of the member, which is `name` for a main entry.
    pub main: Name,
    /// Whether this is another name of the member `main`.
    pub alias: bool,
    /// X'20' overlay, X'04' scatter; 0 in a library of cards.
    pub attr: u8,
    /// The bytes of the load module, below 2 to the power of 24; 0 in a library of cards.
    pub length: u32,
    /// The address of the entry point, below 2 to the power of 24; 0 in a library of cards.
    pub entry: u32,
    /// The item number of the section of the entry point; 0 in a library of cards.
    pub entry_section: u16,
}

impl Entry {
    /// Whether the load module is in overlay format.
    pub fn is_overlay(&self) -> bool
        ensures { result ≡ has_overlay self.now.attr }
    {
        self.attr / 32 % 2 == 1
    }

    /// Whether the load module is in scatter format.
    pub fn is_scatter(&self) -> bool
        ensures { result ≡ has_scatter self.now.attr }
    {
        self.attr / 4 % 2 == 1
    }
}

/// A part of an image.
#[derive(Clone, Copy, Debug, PartialEq, Eq)]
pub struct Span {
    /// The place of its first byte, from 0.
    pub at: usize,
    /// The number of its bytes.
    pub len: usize,
}

/// An entry as it stands in a directory. The main name of an alias in a library of cards is not told
/// by its entry, and is its own name here.
#[derive(Clone, Copy, Debug, PartialEq, Eq)]
pub struct Listed {
    pub entry: Entry,
    /// The number, from 1, of the first record of the member.
    pub first: u32,
    /// The user data of an entry in a library of cards; no bytes in a library of load modules.
    pub user_data: Span,
    /// The directory block that it stands in, from 1.
    pub block: u32,
    /// Its place in the block, from 1.
    pub number: u32,
}
