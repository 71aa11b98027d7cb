//! The keys that some command knows by name, as names in EBCDIC.
ghost use Rattle.std.specs.Prelude.{◌≡◌};
ghost use Rattle.command_words.specs.Keys.{is_reserved};

use le_bytes::Name;

/// `PARM`: options of `link`, `go` and `ldr`; the size of `gen`.
pub const PARM: Name = Name([0xD7, 0xC1, 0xD9, 0xD4, 0x40, 0x40, 0x40, 0x40]);
/// `MEMBER`: the name of a member.
pub const MEMBER: Name = Name([0xD4, 0xC5, 0xD4, 0xC2, 0xC5, 0xD9, 0x40, 0x40]);
/// `ORIGIN`: the address at which a block is placed.
pub const ORIGIN: Name = Name([0xD6, 0xD9, 0xC9, 0xC7, 0xC9, 0xD5, 0x40, 0x40]);
/// `AREAS`: the areas over which a member is scattered, or the storage of `tasks`.
pub const AREAS: Name = Name([0xC1, 0xD9, 0xC5, 0xC1, 0xE2, 0x40, 0x40, 0x40]);
/// `SYSLIN`: the primary input.
pub const SYSLIN: Name = Name([0xE2, 0xE8, 0xE2, 0xD3, 0xC9, 0xD5, 0x40, 0x40]);
/// `SYSLMOD`: the library of load modules.
pub const SYSLMOD: Name = Name([0xE2, 0xE8, 0xE2, 0xD3, 0xD4, 0xD6, 0xC4, 0x40]);
/// `SYSLIB`: the library of automatic call.
pub const SYSLIB: Name = Name([0xE2, 0xE8, 0xE2, 0xD3, 0xC9, 0xC2, 0x40, 0x40]);
/// `SYSPUNCH`: the statements that `list` puts.
pub const SYSPUNCH: Name = Name([0xE2, 0xE8, 0xE2, 0xD7, 0xE4, 0xD5, 0xC3, 0xC8]);
/// `EVENTS`: the events to replay.
pub const EVENTS: Name = Name([0xC5, 0xE5, 0xC5, 0xD5, 0xE3, 0xE2, 0x40, 0x40]);
/// `NEWLMOD`: the library that `migrate` puts.
pub const NEWLMOD: Name = Name([0xD5, 0xC5, 0xE6, 0xD3, 0xD4, 0xD6, 0xC4, 0x40]);
/// `TASKS`: the requests of `tasks`.
pub const TASKS: Name = Name([0xE3, 0xC1, 0xE2, 0xD2, 0xE2, 0x40, 0x40, 0x40]);
/// `TEMPNAME`: the name of a load module that neither a NAME statement nor MEMBER names.
pub const TEMPNAME: Name = Name([0xE3, 0xC5, 0xD4, 0xD7, 0xD5, 0xC1, 0xD4, 0xC5]);

/// Whether a key is none of the data definition names: PARM, MEMBER, ORIGIN and AREAS.
pub fn is_reserved(key: Name) -> bool
    ensures { result ≡ is_reserved key }
{
    key == PARM || key == MEMBER || key == ORIGIN || key == AREAS
}
