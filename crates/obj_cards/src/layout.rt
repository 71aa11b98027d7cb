//! What all object cards have: 16 columns of head, and blanks up to column 80.
ghost use Rattle.std.specs.Prelude.{◌≡◌, ◌+◌, ◌≤◌, ◌++◌, [], ◌∷◌, drop, length, take};
ghost use Rattle.obj_cards.specs.Columns.{are_blank, blanks, card_with, head};

use le_bytes::Name;

pub(crate) const BLANK: u8 = 0x40;

pub(crate) const ASTERISK: u8 = 0x5C;

pub(crate) const OBJECT: u8 = 0x02;

pub(crate) const ESD: [u8; 3] = [0xC5, 0xE2, 0xC4];

pub(crate) const TXT: [u8; 3] = [0xE3, 0xE7, 0xE3];

pub(crate) const RLD: [u8; 3] = [0xD9, 0xD3, 0xC4];

pub(crate) const END: [u8; 3] = [0xC5, 0xD5, 0xC4];

pub(crate) const SYM: [u8; 3] = [0xE2, 0xE8, 0xD4];

/// Whether every byte is a blank.
pub(crate) fn is_all_blank(bytes: &[u8]) -> bool
    ensures { result ≡ are_blank bytes.now }
{
    bytes.iter().all(|b| *b == BLANK)
}

/// Columns 1 to 16 of an object card, its fields blank.
pub(crate) fn blank_head(kind: [u8; 3]) -> [u8; 16]
    ensures { result ≡ head kind (blanks 3) (blanks 2) (blanks 2) }
{
    [
        OBJECT, kind[0], kind[1], kind[2], BLANK, BLANK, BLANK, BLANK, BLANK, BLANK, BLANK, BLANK,
        BLANK, BLANK, BLANK, BLANK,
    ]
}

/// The card that begins with these bytes.
pub(crate) fn padded_card(head: &[u8], body: &[u8]) -> [u8; 80]
    requires { length head.now + length body.now ≤ 80 }
    ensures { result ≡ card_with (head.now ++ body.now) }
{
    let mut card = [BLANK; 80];
    place(&mut card, 0, head);
    place(&mut card, head.len(), body);
    card
}

/// The eight characters of a name.
pub(crate) fn characters(name: &Name) -> &[u8]
    ensures value { result.now ≡ name.now.0 }
    ensures len { length result.now ≡ 8 }
{
    &name.0
}

/// Writes the bytes into the part of `into` from `at`. All other bytes stay.
pub(crate) fn place(into: &mut [u8], at: usize, bytes: &[u8])
    requires { at + length bytes.now ≤ length into.old }
    ensures { into.new ≡ take at into.old ++ (bytes.now ++ drop (at + length bytes.now) into.old) }
{
    into[at..at + bytes.len()].copy_from_slice(bytes);
}
