//! The names of the overlay tables, which no section of an object module may have.
ghost use Rattle.std.specs.Prelude.{◌≡◌};
ghost use Rattle.sym_mod.specs.Reserved.{is_reserved};

use le_bytes::Name;

/// `$SEGTAB`, the table of segments, which stands first in the root of an overlay program.
pub const SEGMENT_TABLE: Name = Name([0x5B, 0xE2, 0xC5, 0xC7, 0xE3, 0xC1, 0xC2, 0x40]);

/// `$ENTAB`, the table of entries, which stands last in a segment that has entries.
pub const ENTRY_TABLE: Name = Name([0x5B, 0xC5, 0xD5, 0xE3, 0xC1, 0xC2, 0x40, 0x40]);

/// Whether the name is that of an overlay table.
pub fn is_reserved(name: &Name) -> bool
    ensures { result ≡ is_reserved name.now }
{
    *name == SEGMENT_TABLE || *name == ENTRY_TABLE
}
