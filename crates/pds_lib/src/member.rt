//! A member to be put into a library.
ghost use Rattle.std.specs.Prelude.{◌≡◌};
ghost use Rattle.pds_lib.specs.declared.member.StowFault.TheVariants.{Memory};

use le_bytes::{Bytes, Items, Name};
use std::alloc::{AllocError, AllocFailed};

/// Another name of a member, with an entry point of its own.
#[derive(Clone, Copy, Debug, PartialEq, Eq)]
pub struct AliasAt {
    pub name: Name,
    /// An address in the module, below 2 to the power of 24.
    pub entry: u32,
    /// The item number of the section of the entry point.
    pub entry_section: u16,
}

/// A load module with its directory data.
#[derive(Debug, Drop)]
pub struct Member {
    pub name: Name,
    pub aliases: Items<AliasAt>,
    /// X'20' overlay, X'04' scatter.
    pub attr: u8,
    /// The bytes of the module, below 2 to the power of 24.
    pub length: u32,
    /// The address of the entry point in the module, below 2 to the power of 24.
    pub entry: u32,
    /// The item number of the section of the entry point.
    pub entry_section: u16,
    /// Records of 1 to 65,535 bytes.
    pub records: Items<Bytes>,
}

/// Why a member was not put into a library.
#[derive(Clone, Copy, Debug, PartialEq, Eq)]
pub enum StowFault {
    /// This name of the member is an entry that does not go, or stands twice among its names.
    Exists(Name),
    /// The records and those that end members would be so many, above 16,777,215.
    TooManyRecords(u64),
    /// Want of memory.
    Memory,
}

impl From<AllocError> for StowFault {
    ghost from_gives = { λ _ e. e ≡ Memory };

    fn from(_refused: AllocError) -> StowFault {
        StowFault::Memory
    }
}

impl<T: Drop> From<AllocFailed<T>> for StowFault {
    ghost from_gives = { λ _ e. e ≡ Memory };

    fn from(_refused: AllocFailed<T>) -> StowFault {
        StowFault::Memory
    }
}
