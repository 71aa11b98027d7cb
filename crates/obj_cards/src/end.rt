//! END cards.
ghost use Rattle.std.specs.Prelude.{◌≡◌, ◌<◌, ◌^◌, ◌++◌, drop, length, take, IfSome};
ghost use Rattle.obj_cards.specs.Columns.{blanks, card_with, end_type, head};
ghost use Rattle.obj_cards.specs.End.{IsEndCard, IsEndStart, end_card, end_length, end_start, end_text, length_bytes, start_address, start_esdid, start_name};

use crate::card::{EndCard, EndStart};
use crate::layout::{BLANK, END, blank_head, characters, is_all_blank, padded_card, place};
use le_bytes::{Name, num16, num24, num32, put16, put24, put32};

/// What an END card says. None is faulty by itself, and columns 1 to 4 are not looked at.
#[tactic(auto, unfolding(crate::specs::End::end_card))]
pub fn read_end(c: &[u8; 80]) -> EndCard
    ensures exact { result ≡ end_card c.now }
    ensures in_range { IsEndCard result }
{
    EndCard {
        start: start(c),
        length: length(c),
    }
}

fn start(c: &[u8; 80]) -> EndStart
    ensures exact { result ≡ end_start c.now }
    ensures in_range { IsEndStart result }
{
    if !is_all_blank(&c[5..8]) {
        return EndStart::At(num24(c, 5), num16(c, 14));
    }
    if is_all_blank(&c[16..24]) {
        return EndStart::None;
    }
    let mut name = Name::BLANK;
    name.0.copy_from_slice(&c[16..24]);
    EndStart::Named(name)
}

fn length(c: &[u8; 80]) -> Option<u32>
    ensures exact { result ≡ end_length c.now }
    ensures in_range { IfSome result (λ n. n < 2 ^ 24) }
{
    if c[28] == 0 { Some(num32(c, 28)) } else { None }
}

pub(crate) fn write_end(e: &EndCard) -> [u8; 80]
    requires { IsEndCard e.now }
    ensures spelled { result ≡ card_with (end_text e.now) }
    ensures read_back { end_card result ≡ e.now }
{
    let head = start_head(&e.start);
    let name = start_name(&e.start);
    let body = end_body(characters(&name), e.length);
    padded_card(&head, &body)
}

/// Columns 17 to 32: the name and the length.
fn end_body(name: &[u8], size: Option<u32>) -> [u8; 16]
    requires { length name.now ≡ 8 }
    ensures { result ≡ name.now ++ blanks 4 ++ length_bytes size }
{
    let mut body = [BLANK; 16];
    place(&mut body, 0, name);
    put_length(&mut body, size);
    body
}

fn start_head(start: &EndStart) -> [u8; 16]
    requires { IsEndStart start.now }
    ensures { result ≡ head end_type (start_address start.now) (blanks 2) (start_esdid start.now) }
{
    let mut head = blank_head(END);
    if let EndStart::At(address, esdid) = start {
        put24(&mut head, 5, *address);
        put16(&mut head, 14, *esdid);
        return head;
    }
    head
}

fn start_name(start: &EndStart) -> Name
    ensures { result.0 ≡ start_name start.now }
{
    match start {
        EndStart::Named(name) => *name,
        _ => Name::BLANK,
    }
}

/// Writes the length into the last 4 bytes, which are blank before.
fn put_length(body: &mut [u8; 16], length: Option<u32>)
    requires { drop 12 body.old ≡ blanks 4 }
    ensures { body.new ≡ take 12 body.old ++ length_bytes length }
{
    if let Some(length) = length {
        put32(body, 12, length);
    }
}
