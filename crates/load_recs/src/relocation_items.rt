//! Reading the relocation items of a record one after the other.
ghost use Rattle.std.specs.Prelude.{◌≡◌, true, None, option_map};
ghost use Rattle.load_recs.specs.Relocations.{short_item, full_item, first_item, kept_by, is_wrong_flag, is_whole, rlds_of, has_wrong_flag};
ghost use Rattle.load_recs.specs.ItemBytes.{rld_list_bytes};
ghost use Rattle.load_recs.specs.RldItems.{items_left, YieldsItem};

use crate::items::RldItem;
use le_bytes::{num16, num24};

/// The item numbers that a relocation item has.
#[derive(Clone, Copy, Debug, PartialEq, Eq)]
pub struct Pointers {
    pub r: u32,
    pub p: u32,
}

/// The relocation items of a record, in order.
#[derive(Clone, Debug, Drop)]
pub struct RldItems<'a> {
    kept: Option<Pointers>,
    rest: &'a [u8],
}

impl RldItems<'_> {
    /// The next item, if a whole one is left.
    fn next_item(&mut self) -> Option<RldItem>
        ensures { YieldsItem self.old result self.new }
    {
        let (item, rest) = first_item(self.kept, self.rest)?;
        self.kept = kept_by(&item);
        self.rest = rest;
        Some(item)
    }
}

impl Iterator for RldItems<'_> {
    ghost use Rattle.std.specs.Iterator.{YieldsFirst, item_count};

    type Item = RldItem;

    ghost next_gives = { YieldsFirst items_left };

    ghost remaining = { item_count items_left };

    fn next(&mut self) -> Option<RldItem> {
        self.next_item()
    }
}

/// The items of a record's relocation items, in order. An item has its numbers also where the record
/// does not say them again.
pub fn rld_items(b: &[u8]) -> RldItems<'_>
    ensures items { items_left result ≡ rlds_of b.now }
    ensures spelled { is_whole b.now ≡ true → rld_list_bytes None (items_left result) ≡ b.now }
{
    walk(b)
}

fn walk(bytes: &[u8]) -> RldItems<'_>
    ensures kept { result.kept ≡ None }
    ensures rest { result.rest.now ≡ bytes.now }
{
    RldItems {
        kept: None,
        rest: bytes,
    }
}

/// The item of flag and address alone that the bytes begin with, and the bytes after it.
fn short_item(pointers: Pointers, bytes: &[u8]) -> Option<(RldItem, &[u8])>
    ensures { option_map (λ x. (x.0, x.1.now)) result ≡ short_item pointers bytes.now }
{
    let [flag, x, y, z, rest @ ..] = bytes else {
        return None;
    };
    let item = RldItem {
        r: pointers.r,
        p: pointers.p,
        flag: *flag,
        address: num24(&[*x, *y, *z], 0),
    };
    Some((item, rest))
}

/// The item with its numbers that the bytes begin with, and the bytes after it.
fn full_item(bytes: &[u8]) -> Option<(RldItem, &[u8])>
    ensures { option_map (λ x. (x.0, x.1.now)) result ≡ full_item bytes.now }
{
    let [a, b, c, d, rest @ ..] = bytes else {
        return None;
    };
    let pointers = Pointers {
        r: num16(&[*a, *b], 0),
        p: num16(&[*c, *d], 0),
    };
    short_item(pointers, rest)
}

/// The item that the bytes begin with, and the bytes after it.
fn first_item(kept: Option<Pointers>, bytes: &[u8]) -> Option<(RldItem, &[u8])>
    ensures { option_map (λ x. (x.0, x.1.now)) result ≡ first_item kept bytes.now }
{
    match kept {
        Some(pointers) => short_item(pointers, bytes),
        None => full_item(bytes),
    }
}

/// The numbers that the item after this one does not say again.
fn kept_by(item: &RldItem) -> Option<Pointers>
    ensures { result ≡ kept_by item.now }
{
    if item.shares_pointers() {
        Some(Pointers {
            r: item.r,
            p: item.p,
        })
    } else {
        None
    }
}

fn is_wrong_flag(item: &RldItem) -> bool
    ensures { result ≡ is_wrong_flag item.now.flag }
{
    !matches!(item.flag / 16, 0..=3 | 8 | 9) || (item.is_minus() && item.field_kind() != 0)
}

/// Whether the bytes are whole items.
pub fn is_whole(b: &[u8]) -> bool
    ensures { result ≡ is_whole b.now }
{
    let mut items = walk(b);
    while let Some(_) = items.next_item() {}
    items.rest.is_empty()
}

/// Whether an item has a flag that means nothing, or the last promises a next one.
pub fn has_wrong_flag(b: &[u8]) -> bool
    ensures { result ≡ has_wrong_flag (rlds_of b.now) }
{
    let mut joined = false;
    let mut items = walk(b);
    while let Some(item) = items.next_item() {
        if is_wrong_flag(&item) {
            return true;
        }
        joined = item.shares_pointers();
    }
    joined
}
