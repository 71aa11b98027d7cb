//! ESD cards.
ghost use Rattle.std.specs.Prelude.{◌≡◌, ◌*◌, ◌+◌, ◌-◌, ◌≤◌, ◌++◌, Ok, drop, length, replicate, take, true, IfOk};
ghost use Rattle.std.specs.List.{AllByRecursion};
ghost use Rattle.std.specs.Option.{option_map};
ghost use Rattle.obj_cards.specs.Columns.{card_with, filled};
ghost use Rattle.obj_cards.specs.Faults.{filled_card};
ghost use Rattle.obj_cards.specs.Esd.{IsEsdCard, IsEsdItem, align_byte, esd_bytes, esd_card, esd_item, esd_items, esd_text, is_esd_size, item_of_kind, kind_code, kind_of, name_in, or_bad_type, suits, unused_esd, unused_esd_card};

use crate::card::{EsdCard, EsdItem, EsdKind};
use crate::fault::CardFault;
use crate::layout::{BLANK, ESD, blank_head, characters, padded_card, place};
use le_bytes::{Name, num16, num24, put16, put24};

/// Reads an ESD card into a card that is not in use. The kind of the card is the caller's to know:
/// columns 1 to 4 are not looked at.
///
/// # Errors
/// - BadCount: the byte count is not 16, 32 or 48.
/// - BadEsdType: an item has an unknown type, a pseudo-register an alignment other than 1, 2, 4 or 8
///   bytes, or a label or reference a name of blanks.
///
/// The card is of no use then.
#[tactic(auto, unfolding(crate::specs::Esd::esd_card))]
pub fn read_esd(c: &[u8; 80], card: &mut EsdCard) -> Result<(), CardFault>
    requires unused { card.old ≡ unused_esd_card }
    ensures exact { filled_card card.new result ≡ esd_card c.now }
    ensures in_range { IfOk (filled_card card.new result) IsEsdCard }
{
    let size = num16(c, 10);
    if !is_size(size) {
        return Err(CardFault::BadCount);
    }
    read_items(size as usize / 16, &c[16..], &mut card.items)?;
    card.esdid = num16(c, 14);
    card.count = (size / 16) as u8;
    Ok(())
}

/// Whether the count is that of one, two or three items.
fn is_size(size: u32) -> bool
    ensures { result ≡ is_esd_size size }
{
    matches!(size, 16 | 32 | 48)
}

/// Reads the first items of the bytes, 16 bytes each, into places that are not in use.
fn read_items(count: usize, bytes: &[u8], items: &mut [EsdItem; 3]) -> Result<(), CardFault>
    requires most { count ≤ 3 }
    requires room { 16 * count ≤ length bytes.now }
    requires unused { items.old ≡ replicate 3 unused_esd }
    ensures exact { filled_card items.new result ≡ or_bad_type (option_map (filled 3 unused_esd) (esd_items count bytes.now)) }
    ensures each { IfOk (filled_card items.new result) (λ items. AllByRecursion IsEsdItem (take count items)) }
    ensures unused { IfOk (filled_card items.new result) (λ items. drop count items ≡ replicate (3 - count) unused_esd) }
{
    let mut rest = bytes;
    for k in 0..count {
        let (item, after) = rest.split_at(16);
        items[k] = read_item(item)?;
        rest = after;
    }
    Ok(())
}

#[tactic(auto, unfolding(crate::specs::Esd::esd_item))]
fn read_item(bytes: &[u8]) -> Result<EsdItem, CardFault>
    requires { length bytes.now ≡ 16 }
    ensures exact { result ≡ or_bad_type (esd_item bytes.now) }
    ensures in_range { IfOk result IsEsdItem }
{
    match kind(bytes[8]) {
        Some(kind) if suits(kind, bytes) => Ok(item(kind, bytes)),
        _ => Err(CardFault::BadEsdType),
    }
}

fn kind(code: u8) -> Option<EsdKind>
    ensures { result ≡ kind_of code }
{
    match code {
        0x00 => Some(EsdKind::Sd),
        0x01 => Some(EsdKind::Ld),
        0x02 => Some(EsdKind::Er),
        0x04 => Some(EsdKind::Pc),
        0x05 => Some(EsdKind::Cm),
        0x06 => Some(EsdKind::Pr),
        0x0A => Some(EsdKind::Wx),
        _ => None,
    }
}

/// Whether the bytes have what the kind asks for: a register's alignment, a label's or reference's name.
fn suits(kind: EsdKind, bytes: &[u8]) -> bool
    requires { length bytes.now ≡ 16 }
    ensures { result ≡ suits kind bytes.now }
{
    match kind {
        EsdKind::Pr => matches!(bytes[12], 0 | 1 | 3 | 7),
        EsdKind::Ld | EsdKind::Er | EsdKind::Wx => !name(bytes).is_blank(),
        EsdKind::Sd | EsdKind::Pc | EsdKind::Cm => true,
    }
}

fn name(bytes: &[u8]) -> Name
    requires { 8 ≤ length bytes.now }
    ensures { result ≡ name_in bytes.now }
{
    let mut name = Name::BLANK;
    name.0.copy_from_slice(&bytes[..8]);
    name
}

/// The item of a kind, with the fields that the kind has.
fn item(kind: EsdKind, bytes: &[u8]) -> EsdItem
    requires { length bytes.now ≡ 16 }
    ensures exact { result ≡ item_of_kind kind bytes.now }
    ensures in_range { suits kind bytes.now ≡ true → IsEsdItem result }
{
    let none = EsdItem {
        kind,
        ..EsdItem::UNUSED
    };
    let name = name(bytes);
    match kind {
        EsdKind::Sd => EsdItem {
            name,
            address: num24(bytes, 9),
            length: num24(bytes, 13),
            ..none
        },
        EsdKind::Ld => EsdItem {
            name,
            address: num24(bytes, 9),
            length: num16(bytes, 14),
            ..none
        },
        EsdKind::Pc => EsdItem {
            address: num24(bytes, 9),
            length: num24(bytes, 13),
            ..none
        },
        EsdKind::Cm => EsdItem {
            name,
            length: num24(bytes, 13),
            ..none
        },
        EsdKind::Pr => EsdItem {
            name,
            align: bytes[12],
            length: num24(bytes, 13),
            ..none
        },
        EsdKind::Er | EsdKind::Wx => EsdItem { name, ..none },
    }
}

fn code(kind: EsdKind) -> u8
    ensures { result ≡ kind_code kind }
{
    match kind {
        EsdKind::Sd => 0x00,
        EsdKind::Ld => 0x01,
        EsdKind::Er => 0x02,
        EsdKind::Pc => 0x04,
        EsdKind::Cm => 0x05,
        EsdKind::Pr => 0x06,
        EsdKind::Wx => 0x0A,
    }
}

pub(crate) fn write_esd(e: &EsdCard) -> [u8; 80]
    requires { IsEsdCard e.now }
    ensures spelled { result ≡ card_with (esd_text e.now) }
    ensures read_back { esd_card result ≡ Ok e.now }
{
    let items = used(e);
    let mut head = blank_head(ESD);
    put16(&mut head, 10, 16 * u32::from(e.count));
    put16(&mut head, 14, e.esdid);
    let mut body = [BLANK; 48];
    let mut end = 0;
    for item in items {
        put_item(&mut body, end, item);
        end += 16;
    }
    padded_card(&head, &body[..end])
}

/// The items in use.
fn used(e: &EsdCard) -> &[EsdItem]
    requires { e.now.count ≤ 3 }
    ensures value { result.now ≡ take e.now.count e.now.items }
    ensures len { length result.now ≡ e.now.count }
{
    &e.items[..e.count as usize]
}

fn put_item(body: &mut [u8; 48], at: usize, item: &EsdItem)
    requires room { at + 16 ≤ 48 }
    requires range { IsEsdItem item.now }
    ensures bytes { take (at + 16) body.new ≡ take at body.old ++ esd_bytes item.now }
    ensures long { length (esd_bytes item.now) ≡ 16 }
{
    place(body, at, &item_bytes(item));
}

/// The 16 bytes of an item.
fn item_bytes(item: &EsdItem) -> [u8; 16]
    requires { IsEsdItem item.now }
    ensures { result ≡ esd_bytes item.now }
{
    let mut bytes = [BLANK; 16];
    place(&mut bytes, 0, characters(&item.name));
    bytes[8] = code(item.kind);
    put24(&mut bytes, 9, item.address);
    bytes[12] = align_byte(item.kind, item.align);
    put24(&mut bytes, 13, item.length);
    bytes
}

/// Byte 12 of an item: a register's alignment, else a blank.
fn align_byte(kind: EsdKind, align: u8) -> u8
    ensures { result ≡ align_byte kind align }
{
    match kind {
        EsdKind::Pr => align,
        _ => BLANK,
    }
}
