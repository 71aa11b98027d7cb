//! The note list of an overlay member.
ghost use Rattle.std.specs.Prelude.{◌≡◌, ◌+◌, ◌/◌, ◌%◌, ◌<◌, ◌≤◌, ◌++◌, List, All, IfOk, OnOk, map, length};
ghost use Rattle.load_recs.specs.ItemBytes.{note_bytes, IsNote};
ghost use Rattle.load_recs.specs.Records.{Record, rec_bytes};
ghost use Rattle.member_model.specs.Cuts.{together};
ghost use Rattle.member_model.specs.Written.{note_item, note_record_count, note_records};
ghost use Rattle.mod_parts.specs.Placed.{ArePlacesOf};
ghost use Rattle.mod_segments.specs.Records.{IsStored};
ghost use Rattle.mod_heads.specs.Noted.{notes_by};

use crate::cutting::{Kind, put_records};
use le_bytes::{Bytes, Items, Memory};
use load_recs::{NoteItem, put_note_item};
use mod_parts::PartList;
use std::alloc::{AllocError, Global};
use sym_mod::Places;

/// Numbers of records are kept modulo this.
const NUMBERS: usize = 16_777_216;

/// The note records of a member: where each segment begins and how long it is, and the number of its
/// first record, where `before` records come before the note records and each segment has as many as
/// `counts` has for it, segment 1 first. Linear in the segments.
///
/// # Errors
/// Want of memory.
pub fn note_records(
    alloc: Global,
    list: &PartList<'_>,
    a: &Places,
    before: usize,
    counts: &[usize],
) -> Result<Items<Bytes>, Memory>
    requires places { ArePlacesOf list.now a.now }
    requires each { length counts.now ≡ length list.now.tree }
    ensures records { IfOk result (λ records. (segs : List (List Record)) → map length segs ≡ counts.now
        → records ≡ map rec_bytes (note_records list.now before segs)) }
    ensures sizes { IfOk result (All IsStored) }
{
    let mut records = Items::new(alloc);
    let bytes = notes_bytes(alloc, list, a, before, counts)?;
    put_records(alloc, &mut records, Kind::Note, bytes.as_slice())?;
    Ok(records)
}

fn notes_bytes(
    alloc: Global,
    list: &PartList<'_>,
    a: &Places,
    before: usize,
    counts: &[usize],
) -> Result<Vec<u8>, AllocError>
    requires places { ArePlacesOf list.now a.now }
    requires each { length counts.now ≡ length list.now.tree }
    ensures items { IfOk result (λ bytes. bytes.items
        ≡ together (map note_bytes (notes_by list.now (before + note_record_count list.now + 1) 1 counts.now))) }
    ensures few { IfOk result (λ _. length counts.now ≤ 255) }
{
    let count = list.tree().count();
    let mut number = first_number(before, count);
    let mut bytes = Vec::new(alloc);
    for i in 0..count {
        put_note(&mut bytes, &note(list, a, i + 1, number))?;
        number = number_after(number, counts[i as usize]);
    }
    Ok(bytes)
}

/// The number of the first record of segment 1, which the notes of `count` segments precede, 20 in a
/// record.
fn first_number(before: usize, count: u8) -> u32
    ensures number { result ≡ (before + (count + 19) / 20 + 1) % 16777216 }
    ensures near { result < 16777216 }
{
    let own = (count as usize + 19) / 20;
    ((before % NUMBERS + own + 1) % NUMBERS) as u32
}

/// The number of the record that comes so many records after the one of this number.
fn number_after(number: u32, records: usize) -> u32
    ensures number { result ≡ (number + records) % 16777216 }
    ensures near { result < 16777216 }
{
    ((number as usize + records % NUMBERS) % NUMBERS) as u32
}

fn put_note(bytes: &mut Vec<u8>, note: &NoteItem) -> Result<(), AllocError>
    requires { IsNote note.now }
    ensures { OnOk result (bytes.new.items ≡ bytes.old.items ++ note_bytes note.now) }
{
    let mut item = [0; 12];
    put_note_item(&mut item, note);
    bytes.extend_from_slice(&item)
}

/// Where a segment is, of which the first record has this number.
fn note(list: &PartList<'_>, a: &Places, s: u8, number: u32) -> NoteItem
    requires places { ArePlacesOf list.now a.now }
    requires first { 1 ≤ s }
    requires last { s ≤ length list.now.tree }
    requires number { number < 16777216 }
    ensures note { result ≡ note_item list.now number s }
    ensures spelled { IsNote result }
{
    NoteItem {
        first: number,
        origin: list.origin_of(a, s),
        length: list.size_of(a, s),
    }
}
