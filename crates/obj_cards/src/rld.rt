//! RLD cards.
ghost use Rattle.std.specs.Prelude.{◌≡◌, ◌+◌, ◌<◌, ◌≤◌, ◌++◌, length, take, IfOk, IfErr, Some, None, Ok, Err, is_some, if◌then◌else◌};
ghost use Rattle.obj_cards.specs.Columns.{card_with};
ghost use Rattle.obj_cards.specs.Faults.{filled_card};
ghost use Rattle.obj_cards.specs.Rld.{IsCardRld, IsRldCard, field_bytes, is_rld_flag, pointer_bytes, pointers_after, rld_bytes, rld_card, rld_items, rld_text, rld_with, unused_rld_card, with_first};

use crate::card::{CardRld, RldCard};
use crate::fault::CardFault;
use crate::layout::{BLANK, RLD, blank_head, padded_card};
use le_bytes::{num16, num24, put16, put24};

/// Reads an RLD card into a card that is not in use. The kind of the card is the caller's to know:
/// columns 1 to 4 are not looked at.
///
/// # Errors
/// The first from the left of these. The card is of no use then.
/// - BadCount: the byte count is above 56, or ends inside an item.
/// - BadFlag: a flag has bits without a meaning, or the last item shares its pointers with one that is
///   not there.
#[tactic(auto, unfolding(crate::specs::Rld::rld_card))]
pub fn read_rld(c: &[u8; 80], card: &mut RldCard) -> Result<(), CardFault>
    requires unused { card.old ≡ unused_rld_card }
    ensures exact { filled_card card.new result ≡ rld_card c.now }
    ensures in_range { IfOk (filled_card card.new result) IsRldCard }
{
    let count = num16(c, 10);
    if count > 56 {
        return Err(CardFault::BadCount);
    }
    read_items(&c[16..16 + count as usize], card)
}

/// Reads the items of the bytes, from the left.
fn read_items(bytes: &[u8], card: &mut RldCard) -> Result<(), CardFault>
    requires few { length bytes.now ≤ 56 }
    requires unused { card.old ≡ unused_rld_card }
    ensures exact { filled_card card.new result ≡ rld_with (rld_items None bytes.now) }
    ensures in_range { IfOk (filled_card card.new result) IsRldCard }
{
    let mut count: usize = 0;
    let mut shared = None;
    let mut rest = bytes;
    while !rest.is_empty() {
        let (item, after) = first_item(shared, rest)?;
        card.items[count] = item;
        count += 1;
        shared = pointers_after(&item);
        rest = after;
    }
    match shared {
        Some(_) => Err(CardFault::BadFlag),
        None => {
            card.count = count as u8;
            Ok(())
        }
    }
}

/// The pointers of an item, where the next item has them too.
fn pointers_after(item: &CardRld) -> Option<(u32, u32)>
    ensures { result ≡ pointers_after item.now }
{
    if item.shares_pointers() {
        Some((item.r, item.p))
    } else {
        None
    }
}

/// Whether the flag tells one of the four kinds of term, and a minus sign of none but an A-type.
fn is_flag(flag: u8) -> bool
    ensures { result ≡ is_rld_flag flag }
{
    flag < 0x40 && (flag < 0x10 || flag & 0x02 == 0)
}

/// The first item and the bytes after it, or its fault.
fn first_item(shared: Option<(u32, u32)>, bytes: &[u8]) -> Result<(CardRld, &[u8]), CardFault>
    requires { 0 < length bytes.now }
    ensures item { IfOk result (λ x. rld_items shared bytes.now ≡ with_first x.0 (rld_items (pointers_after x.0) x.1.now)) }
    ensures shorter { IfOk result (λ x. length x.1.now + (if is_some shared then 4 else 8) ≡ length bytes.now) }
    ensures fault { IfErr result (λ e. rld_items shared bytes.now ≡ Err e) }
{
    match shared {
        Some((r, p)) => field_item(r, p, bytes),
        None => {
            if bytes.len() < 8 {
                return Err(CardFault::BadCount);
            }
            field_item(num16(bytes, 0), num16(bytes, 2), &bytes[4..])
        }
    }
}

/// The item with these pointers whose flag and address begin the bytes, and the bytes after it.
fn field_item(r: u32, p: u32, bytes: &[u8]) -> Result<(CardRld, &[u8]), CardFault>
    requires { 0 < length bytes.now }
    ensures item { IfOk result (λ x. rld_items (Some (r, p)) bytes.now ≡ with_first x.0 (rld_items (pointers_after x.0) x.1.now)) }
    ensures shorter { IfOk result (λ x. length x.1.now + 4 ≡ length bytes.now) }
    ensures fault { IfErr result (λ e. rld_items (Some (r, p)) bytes.now ≡ Err e) }
{
    match bytes {
        [flag, _, _, _, rest @ ..] => {
            let flag = *flag;
            if !is_flag(flag) {
                return Err(CardFault::BadFlag);
            }
            let address = num24(bytes, 1);
            Ok((
                CardRld {
                    r,
                    p,
                    flag,
                    address,
                },
                rest,
            ))
        }
        _ => Err(CardFault::BadCount),
    }
}

pub(crate) fn write_rld(c: &RldCard) -> [u8; 80]
    requires { IsRldCard c.now }
    ensures spelled { result ≡ card_with (rld_text c.now) }
    ensures read_back { rld_card result ≡ Ok c.now }
{
    let items = used(c);
    let mut body = [BLANK; 56];
    let mut end: usize = 0;
    let mut omitted = false;
    for item in items {
        end = put_pointers(&mut body, end, omitted, item);
        end = put_field(&mut body, end, item);
        omitted = item.shares_pointers();
    }
    let mut head = blank_head(RLD);
    put16(&mut head, 10, end as u32);
    padded_card(&head, &body[..end])
}

/// The items in use.
fn used(c: &RldCard) -> &[CardRld]
    requires { c.now.count ≤ 13 }
    ensures value { result.now ≡ take c.now.count c.now.items }
    ensures len { length result.now ≡ c.now.count }
{
    &c.items[..c.count as usize]
}

/// Writes the pointers of an item, unless they are omitted, and answers where they end.
fn put_pointers(body: &mut [u8; 56], at: usize, omitted: bool, item: &CardRld) -> usize
    requires room { at + length (pointer_bytes omitted item.now) ≤ 56 }
    requires range { IsCardRld item.now }
    ensures end { result ≡ at + length (pointer_bytes omitted item.now) }
    ensures bytes { take result body.new ≡ take at body.old ++ pointer_bytes omitted item.now }
{
    if omitted {
        return at;
    }
    put16(body, at, item.r);
    put16(body, at + 2, item.p);
    at + 4
}

/// Writes the flag and the address of an item, and answers where they end.
fn put_field(body: &mut [u8; 56], at: usize, item: &CardRld) -> usize
    requires room { at + 4 ≤ 56 }
    requires range { IsCardRld item.now }
    ensures end { result ≡ at + 4 }
    ensures bytes { take result body.new ≡ take at body.old ++ field_bytes item.now }
{
    body[at] = item.flag;
    put24(body, at + 1, item.address);
    at + 4
}
