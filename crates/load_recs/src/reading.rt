//! Reading a record.
ghost use Rattle.std.specs.Prelude.{◌≡◌, ◌≤◌, ◌||◌, ℕ, List, nat_lt, length, IfOk, Ok, Err, if◌then◌else◌};
ghost use Rattle.std.specs.Result.{result_map_both};
ghost use Rattle.load_recs.specs.Reading.{form, has_wrong_count, subtype, section_size, rld_bytes, end_bytes, has_wrong_size, text_head, has_wrong_text_length, fault_as, contents_as, own_fault, contents, unless, reading};
ghost use Rattle.load_recs.specs.Gives.{Gives};
ghost use Rattle.load_recs.specs.Plain.{Spells};
ghost use Rattle.load_recs.specs.Records.{Record, record_of};
ghost use Rattle.load_recs.specs.declared.forms.Form.TheVariants.{Symbols, Sections, Notes, Control, Rld, ControlRld, Unknown};
ghost use Rattle.load_recs.specs.declared.records.RecFault.TheVariants.{BadLength};

use crate::forms::{Form, form_of};
use crate::item_reading::has_wrong_symbol;
use crate::records::{Ends, Expect, Rec, RecFault, TextHead};
use crate::relocation_items::{has_wrong_flag, is_whole};
use le_bytes::{num16, num24};

/// The greatest number of bytes of a record's items.
const MOST_ITEMS: usize = 240;
/// The greatest number of bytes of a text.
const MOST_TEXT: u32 = 13_030;
/// The number of bytes before the items of a symbol, scatter, translation or note record.
const HEAD: usize = 8;
/// The number of bytes before the items of a control or relocation record.
const CONTROL_HEAD: usize = 16;
/// The number of bytes after the items where a text comes.
const TEXT_TAIL: usize = 4;

/// The record that the bytes are, where one is due as `after` says, or the one fault that is first:
/// UnknownId where the first byte is no identifier or there is none; BadLength where the record is
/// shorter than its head; BadType of a subtype; any other BadLength, of a text too that is not as long
/// as told; BadType or BadFlag of an item.
pub fn read_rec(b: &[u8], after: Expect) -> Result<Rec<'_>, RecFault>
    ensures exact { Gives result (reading after b.now) }

    // What is read is spelled by the bytes, but for those that nothing looks at.
    ensures found { IfOk result (λ r. Spells after b.now (record_of r)) }

    // What the bytes spell is read.
    ensures only { (r : Record) → Spells after b.now r → Gives result (Ok r) }
{
    read_after(b, after)
}

fn read_after(b: &[u8], after: Expect) -> Result<Rec<'_>, RecFault>
    ensures { Gives result (reading after b.now) }
{
    match after {
        Expect::Head => read_head(b),
        Expect::Text(length) => {
            if b.len() == length as usize {
                Ok(Rec::Text(b))
            } else {
                Err(RecFault::BadLength)
            }
        }
    }
}

fn form(bytes: &[u8]) -> Form
    ensures { result ≡ form bytes.now }
{
    match bytes {
        [] => Form::Unknown,
        [identifier, ..] => form_of(*identifier),
    }
}

fn read_head(b: &[u8]) -> Result<Rec<'_>, RecFault>
    ensures { Gives result (unless (own_fault b.now) (contents b.now)) }
{
    match form(b) {
        Form::Symbols => read_symbols(b),
        Form::Sections => read_sections(b),
        Form::Notes => read_notes(b),
        Form::Control(ends) => read_control(b, ends),
        Form::Rld(ends) => read_rld(b, ends),
        Form::ControlRld(ends) => read_control_rld(b, ends),
        Form::Unknown => Err(RecFault::UnknownId),
    }
}

/// Whether the count in a head is none of items of `size` bytes, or not that of the bytes after it.
fn has_wrong_count(b: &[u8], size: usize) -> bool
    requires long { 8 ≤ length b.now }
    requires size { 1 ≤ size }
    ensures { result ≡ has_wrong_count size b.now }
{
    let count = num16(b, 6) as usize;
    count == 0 || count % size != 0 || count > MOST_ITEMS || b.len() != HEAD + count
}

fn read_symbols(b: &[u8]) -> Result<Rec<'_>, RecFault>
    ensures { Gives result (unless (fault_as Symbols b.now) (contents_as Symbols b.now)) }
{
    if b.len() < HEAD || has_wrong_count(b, 16) {
        return Err(RecFault::BadLength);
    }
    let items = &b[HEAD..];
    if has_wrong_symbol(items) {
        return Err(RecFault::BadType);
    }
    Ok(Rec::Cesd(num16(b, 4), items))
}

fn read_sections(b: &[u8]) -> Result<Rec<'_>, RecFault>
    ensures { Gives result (unless (fault_as Sections b.now) (contents_as Sections b.now)) }
{
    if b.len() < HEAD {
        return Err(RecFault::BadLength);
    }
    match b[1] {
        1 => {
            if has_wrong_count(b, 4) {
                return Err(RecFault::BadLength);
            }
            Ok(Rec::Scatter(num16(b, 4), &b[HEAD..]))
        }
        2 => {
            if has_wrong_count(b, 2) {
                return Err(RecFault::BadLength);
            }
            Ok(Rec::Translation(num16(b, 4), &b[HEAD..]))
        }
        _ => Err(RecFault::BadType),
    }
}

fn read_notes(b: &[u8]) -> Result<Rec<'_>, RecFault>
    ensures { Gives result (unless (fault_as Notes b.now) (contents_as Notes b.now)) }
{
    if b.len() < HEAD || has_wrong_count(b, 12) {
        return Err(RecFault::BadLength);
    }
    Ok(Rec::Note(num16(b, 4), &b[HEAD..]))
}

/// The relocation items of a control or relocation record and the `tail` bytes after them, unless its
/// counts do not make it up.
fn parts(b: &[u8], tail: usize) -> Result<(&[u8], &[u8]), RecFault>
    requires { tail ≤ 4 }
    ensures long { IfOk result (λ x. (16 ≤ length b.now) × (length x.1.now ≡ tail)) }
    ensures value { result_map_both {U = List ℕ × List ℕ} (λ x. (x.0.now, x.1.now)) (λ fault. fault) result
        ≡ (if nat_lt (length b.now) 16 || has_wrong_size tail b.now then Err BadLength else Ok (rld_bytes b.now, end_bytes b.now)) }
{
    if b.len() < CONTROL_HEAD {
        return Err(RecFault::BadLength);
    }
    let count = num16(b, 4) as usize;
    if num16(b, 6) as usize != tail
        || count > MOST_ITEMS
        || b.len() != CONTROL_HEAD + count + tail
    {
        return Err(RecFault::BadLength);
    }
    let (items, end) = b[CONTROL_HEAD..].split_at(count);
    Ok((items, end))
}

/// What a control record with these bytes at its end tells of its text, if both lengths are the same
/// and one that a text may have.
fn text_head(b: &[u8], end: &[u8]) -> Result<TextHead, RecFault>
    requires long { 16 ≤ length b.now }
    requires whole { length end.now ≡ 4 }
    requires end { end.now ≡ end_bytes b.now }
    ensures { result ≡ (if has_wrong_text_length b.now then Err BadLength else Ok (text_head b.now)) }
{
    let length = num16(b, 14);
    if length == 0 || length > MOST_TEXT || num16(end, 2) != length {
        return Err(RecFault::BadLength);
    }
    Ok(TextHead {
        address: num24(b, 9),
        length,
        section: num16(end, 0),
    })
}

fn read_control(b: &[u8], ends: Ends) -> Result<Rec<'_>, RecFault>
    ensures { Gives result (unless (fault_as (Control ends) b.now) (contents_as (Control ends) b.now)) }
{
    let (items, end) = parts(b, TEXT_TAIL)?;
    if !items.is_empty() {
        return Err(RecFault::BadLength);
    }
    let text = text_head(b, end)?;
    Ok(Rec::Control(ends, text))
}

fn read_rld(b: &[u8], ends: Ends) -> Result<Rec<'_>, RecFault>
    ensures { Gives result (unless (fault_as (Rld ends) b.now) (contents_as (Rld ends) b.now)) }
{
    let (items, _) = parts(b, 0)?;
    if !is_whole(items) {
        return Err(RecFault::BadLength);
    }
    if has_wrong_flag(items) {
        return Err(RecFault::BadFlag);
    }
    Ok(Rec::Rld(ends, items))
}

fn read_control_rld(b: &[u8], ends: Ends) -> Result<Rec<'_>, RecFault>
    ensures { Gives result (unless (fault_as (ControlRld ends) b.now) (contents_as (ControlRld ends) b.now)) }
{
    let (items, end) = parts(b, TEXT_TAIL)?;
    if items.is_empty() || !is_whole(items) {
        return Err(RecFault::BadLength);
    }
    let text = text_head(b, end)?;
    if has_wrong_flag(items) {
        return Err(RecFault::BadFlag);
    }
    Ok(Rec::ControlRld(ends, items, text))
}
