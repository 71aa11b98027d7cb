//! The text of a part in pieces.
ghost use Rattle.std.specs.Prelude.{◌≡◌, ◌+◌, ◌-◌, ◌*◌, ◌/◌, ◌^◌, ◌<◌, ◌≤◌, ◌++◌, nat_lt, List, All, length, map, take, drop, min, IfOk, OnOk};
ghost use Rattle.std.specs.List.{prefix_len};
ghost use Rattle.member_model.specs.Chunks.{chunks, chunk_bytes};
ghost use Rattle.member_model.specs.Pieces.{Piece as Seen, pieces as pieces_of};
ghost use Rattle.text_store.specs.Content.{section_of};
ghost use Rattle.mod_segments.specs.Chunks.{IsItem, IsChunk};
ghost use Rattle.mod_segments.specs.Pieces.{seen, IsPart, IsPieceLength, last_byte};
ghost use Rattle.mod_segments.specs.Writing.{IsReady, HasPieces};

use crate::chunking::chunks;
use crate::piece::{Piece, PlacedPart};
use crate::recording::SegmentRecords;
use crate::text::{KeptText, PartText, WholePart, copied};
use le_bytes::{Bytes, Memory};
use load_recs::RldItem;
use std::alloc::Global;
use text_store::TextKeeper;

/// Puts the pieces of a section after those that are there: each of `most` bytes, and the last one of
/// what is left. The text is section `section` of the keeper, of which one piece is read at a time.
/// Linear in bytes and items.
///
/// # Errors
/// Want of memory, after which some of the pieces may be there.
pub fn add_section<K: TextKeeper>(
    alloc: Global,
    records: &mut SegmentRecords,
    most: u32,
    part: PlacedPart<'_>,
    kept: &K,
    section: u32,
) -> Result<(), Memory>
    requires most { IsPieceLength most }
    requires part { IsPart part }
    requires whole { length (section_of (K.content kept.now) section) ≡ part.length }
    requires ready { IsReady records.old }
    ensures pieces { OnOk result ((before : List Seen) → HasPieces records.old before
        → HasPieces records.new (before ++ pieces_of most part.entry.number part.entry.address part.entry.items.now (section_of (K.content kept.now) section))) }
    ensures ready { OnOk result (IsReady records.new) }
{
    add_pieces(alloc, records, most, part, &KeptText { kept, section })
}

/// Puts the pieces of an overlay table of these bytes after those that are there, as `add_section` does.
///
/// # Errors
/// Want of memory, after which some of the pieces may be there.
pub fn add_table(
    alloc: Global,
    records: &mut SegmentRecords,
    most: u32,
    part: PlacedPart<'_>,
    bytes: &[u8],
) -> Result<(), Memory>
    requires most { IsPieceLength most }
    requires part { IsPart part }
    requires whole { length bytes.now ≡ part.length }
    requires ready { IsReady records.old }
    ensures pieces { OnOk result ((before : List Seen) → HasPieces records.old before
        → HasPieces records.new (before ++ pieces_of most part.entry.number part.entry.address part.entry.items.now bytes.now)) }
    ensures ready { OnOk result (IsReady records.new) }
{
    add_pieces(alloc, records, most, part, &WholePart { bytes })
}

/// The pieces of a part. The items that are left go along, so that each is looked at in one piece only.
fn add_pieces<T: PartText>(
    alloc: Global,
    records: &mut SegmentRecords,
    most: u32,
    part: PlacedPart<'_>,
    text: &T,
) -> Result<(), Memory>
    requires most { IsPieceLength most }
    requires part { IsPart part }
    requires whole { length (T.text text.now) ≡ part.length }
    requires ready { IsReady records.old }
    ensures pieces { OnOk result ((before : List Seen) → HasPieces records.old before
        → HasPieces records.new (before ++ pieces_of most part.entry.number part.entry.address part.entry.items.now (T.text text.now))) }
    ensures ready { OnOk result (IsReady records.new) }
{
    let mut rest = part.items;
    for k in 0..(part.length + (most - 1)) / most {
        let at = most * k;
        let size = most.min(part.length - at);
        let (here, later) = rest.split_at(ending_before(rest, part.address + at + size));
        let piece = piece(alloc, &mut records.spare, part, text, at, size, here)?;
        records.put(alloc, piece)?;
        rest = later;
    }
    Ok(())
}

/// How many of the items, which are in the order of their last bytes, end before an address.
fn ending_before(items: &[RldItem], end: u32) -> usize
    requires { All IsItem items.now }
    ensures value { result ≡ prefix_len (λ x. nat_lt (last_byte x) end) items.now }
    ensures most { result ≤ length items.now }
{
    items.iter().take_while(|x| last_byte(x) < end).count()
}

/// The address of the last byte of the item's field.
fn last_byte(item: &RldItem) -> u32
    requires { IsItem item.now }
    ensures { result ≡ last_byte item.now }
{
    item.address + u32::from(item.field_length() - 1)
}

/// A piece of `size` bytes from place `at` of the part on, with these items, whose first chunk takes
/// the memory of `spare`.
fn piece<T: PartText>(
    alloc: Global,
    spare: &mut Bytes,
    part: PlacedPart<'_>,
    text: &T,
    at: u32,
    size: u32,
    items: &[RldItem],
) -> Result<Piece, Memory>
    requires some { 0 < size }
    requires inside { at + size ≤ length (T.text text.now) }
    requires near { part.address + at < 2 ^ 32 }
    requires items { All IsItem items.now }
    ensures value { IfOk result (λ made. seen made ≡ record {
      section = part.entry.number;
      address = part.entry.address + at;
      bytes = take size (drop at (T.text text.now));
      chunks = map chunk_bytes (chunks items.now);
    }) }
    ensures chunks { IfOk result (λ made. All IsChunk made.chunks) }
{
    Ok(Piece {
        section: part.number,
        address: part.address + at,
        bytes: copied(alloc, text, at, size)?,
        chunks: chunks(alloc, spare, items)?,
    })
}
