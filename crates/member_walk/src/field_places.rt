//! Where fields lie.
ghost use Rattle.std.specs.Prelude.{◌≡◌, ◌<◌, ◌^◌};
ghost use Rattle.member_walk.specs.Fields.{extent_of, place_of, clashes};

use load_recs::RldItem;

/// Where a field begins.
#[derive(Clone, Copy, Debug, PartialEq, Eq, Hash)]
pub(crate) struct FieldPlace {
    /// The number of the section's symbol item.
    pub section: u32,
    /// The address in the module.
    pub address: u64,
}

/// How far a field reaches.
#[derive(Clone, Copy, Debug, PartialEq, Eq)]
pub(crate) struct Extent {
    /// The number of its bytes, from 1 to 4.
    pub length: u8,
    /// Whether the field is that of an A-type item, which may have another at its place.
    pub is_a_type: bool,
}

pub(crate) fn place_of(x: &RldItem) -> FieldPlace
    ensures { result ≡ place_of x.now }
{
    FieldPlace {
        section: x.p,
        address: u64::from(x.address),
    }
}

pub(crate) fn extent_of(x: &RldItem) -> Extent
    ensures { result ≡ extent_of x.now }
{
    Extent {
        length: x.field_length(),
        is_a_type: x.field_kind() == 0,
    }
}

/// Whether the item's field shares a byte with one of this extent at an address of its section, and may
/// not: only two A-type items of one place and length may.
pub(crate) fn clashes(x: &RldItem, address: u64, other: Extent) -> bool
    requires { address < 2 ^ 33 }
    ensures { result ≡ clashes x.now address other }
{
    let own = extent_of(x);
    let from = u64::from(x.address);
    let is_same = from == address && own.length == other.length;
    from < address + u64::from(other.length)
        && address < from + u64::from(own.length)
        && !(is_same && own.is_a_type && other.is_a_type)
}
