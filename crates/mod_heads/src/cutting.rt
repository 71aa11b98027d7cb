//! Items in records, as many in each as 240 bytes hold (this project's profile).
ghost use Rattle.std.specs.Prelude.{◌≡◌, ◌+◌, ◌*◌, ◌≤◌, ◌++◌, All, IfOk, OnOk, map, take, drop, length};
ghost use Rattle.load_recs.specs.Records.{rec_bytes, record_of, IsRecord};
ghost use Rattle.mod_segments.specs.Records.{IsStored};
ghost use Rattle.mod_heads.specs.Cut.{record_as, most_in, cut_records, AreItemsOf};

use le_bytes::{Bytes, Items, Memory};
use load_recs::{Rec, write_rec};
use std::alloc::Global;

/// The number of bytes of items in a whole record.
const MOST: usize = 240;

/// What the items of a record are.
#[derive(Clone, Copy, Debug, PartialEq, Eq)]
pub(crate) enum Kind {
    Symbol,
    Scatter,
    Translation,
    Note,
}

impl Kind {
    /// The number of items of a whole record.
    fn most(self) -> u32
        ensures value { result ≡ most_in self }
        ensures few { result ≤ 120 }
    {
        match self {
            Kind::Symbol => 15,
            Kind::Scatter => 60,
            Kind::Translation => 120,
            Kind::Note => 20,
        }
    }
}

/// Puts the records of items at the end of `records`; `items` has the bytes of all.
pub(crate) fn put_records(
    alloc: Global,
    records: &mut Items<Bytes>,
    kind: Kind,
    items: &[u8],
) -> Result<(), Memory>
    requires items { AreItemsOf kind items.now }
    requires sizes { All IsStored records.old }
    ensures records { OnOk result (records.new ≡ records.old ++ map rec_bytes (cut_records kind items.now)) }
    ensures sizes { OnOk result (All IsStored records.new) }
{
    for k in 0..(items.len() + MOST - 1) / MOST {
        records.push(record(alloc, kind, k as u32, cut(items, k))?)?;
    }
    Ok(())
}

/// The bytes of the items of record `k`, counted from 0.
fn cut(items: &[u8], k: usize) -> &[u8]
    requires { MOST * k ≤ length items.now }
    ensures { result.now ≡ take MOST (drop (MOST * k) items.now) }
{
    let rest = &items[MOST * k..];
    if rest.len() < MOST {
        rest
    } else {
        &rest[..MOST]
    }
}

/// Record `k` of records of this kind.
fn record(alloc: Global, kind: Kind, k: u32, items: &[u8]) -> Result<Bytes, Memory>
    requires few { k ≤ 2184 }
    requires items { IsRecord (record_as kind (k * most_in kind + 1) items.now) }
    ensures bytes { IfOk result (λ bytes. bytes ≡ rec_bytes (record_as kind (k * most_in kind + 1) items.now)) }
    ensures size { IfOk result (λ bytes. IsStored bytes) }
{
    let first = k * kind.most() + 1;
    let bytes = write_rec(alloc, &record_of(kind, first, items))?;
    Ok(Bytes::from_vec(bytes))
}

fn record_of(kind: Kind, first: u32, items: &[u8]) -> Rec<'_>
    ensures { record_of result ≡ record_as kind first items.now }
{
    match kind {
        Kind::Symbol => Rec::Cesd(first, items),
        Kind::Scatter => Rec::Scatter(first, items),
        Kind::Translation => Rec::Translation(first, items),
        Kind::Note => Rec::Note(first, items),
    }
}
