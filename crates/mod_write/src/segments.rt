//! The records of the segments of a program.
ghost use Rattle.std.specs.Prelude.{◌≡◌, ◌<◌, ◌≤◌, ◌++◌, List, All, length, map, IfOk, OnOk};
ghost use Rattle.member_model.specs.Parts.{SegmentTable as Segtab, OneSection, EntryTable as Entab, part_number, part_place, part_length};
ghost use Rattle.member_model.specs.Chunks.{part_items};
ghost use Rattle.member_model.specs.Pieces.{Piece};
ghost use Rattle.member_model.specs.Written.{part_pieces};
ghost use Rattle.mod_parts.specs.Seen.{seen, IsPartOf};
ghost use Rattle.mod_segments.specs.Pieces.{IsPart};
ghost use Rattle.mod_segments.specs.Records.{IsStored};
ghost use Rattle.mod_segments.specs.Writing.{IsReady, HasPieces};
ghost use Rattle.mod_write.specs.Ready.{IsSource};
ghost use Rattle.mod_write.specs.Written.{segment_bytes, bytes_of_segments};

use crate::chains::Chains;
use crate::items::{entry_items, fill_section_items};
use le_bytes::{Bytes, Items, Memory};
use load_recs::{Ends, RldItem};
use mod_parts::{Part, PartList};
use mod_segments::{PlacedPart, SegmentRecords, add_section, add_table};
use relocate::{entab_bytes, segtab_bytes};
use std::alloc::{AllocError, Global};
use sym_mod::{Places, SecKind};
use text_store::TextKeeper;

/// What the records of segments are made of.
#[derive(Clone, Copy)]
pub(crate) struct Source<'a, K: TextKeeper> {
    pub kept: &'a K,
    pub list: &'a PartList<'a>,
    pub places: &'a Places,
    /// The constants of each section.
    pub chains: &'a Chains,
    /// The bytes of text in a record.
    pub piece: u32,
}

/// The records of each segment, segment 1 first.
///
/// # Errors
/// Want of memory.
pub(crate) fn segments<K: TextKeeper>(
    alloc: Global,
    from: &Source<'_, K>,
) -> Result<Vec<Items<Bytes>>, Memory>
    requires source { IsSource from.now.list.now from.now.places.now (K.content from.now.kept.now) from.now.chains.now from.now.piece }
    ensures value { IfOk result (λ all. all.items ≡ bytes_of_segments from.now.list.now from.now.piece) }
    ensures sizes { IfOk result (λ all. All (All IsStored) all.items) }
{
    let count = from.list.tree().count();
    let mut all = Vec::with_capacity(alloc, count as usize)?;
    for i in 0..count {
        all.push(segment(alloc, from, i + 1)?)?;
    }
    Ok(all)
}

/// The records of a segment.
fn segment<K: TextKeeper>(
    alloc: Global,
    from: &Source<'_, K>,
    s: u8,
) -> Result<Items<Bytes>, Memory>
    requires source { IsSource from.now.list.now from.now.places.now (K.content from.now.kept.now) from.now.chains.now from.now.piece }
    requires first { 1 ≤ s }
    requires last { s ≤ length from.now.list.now.tree }
    ensures value { IfOk result (λ records. records ≡ segment_bytes from.now.list.now from.now.piece s) }
    ensures sizes { IfOk result (All IsStored) }
{
    let parts = from.list.in_segment(s);
    let mut records = SegmentRecords::new(alloc, parts.len())?;
    let mut items = Vec::new(alloc);
    for part in parts {
        add_part(alloc, &mut records, from, *part, &mut items)?;
    }
    let ends = Ends {
        segment: true,
        module: s == from.list.tree().count(),
    };
    records.end(alloc, ends)
}

/// Puts the pieces of a part after those that are there: none of a common area. `items` is a list that
/// a section's relocation items are gathered in.
fn add_part<K: TextKeeper>(
    alloc: Global,
    records: &mut SegmentRecords,
    from: &Source<'_, K>,
    part: Part,
    items: &mut Vec<RldItem>,
) -> Result<(), Memory>
    requires source { IsSource from.now.list.now from.now.places.now (K.content from.now.kept.now) from.now.chains.now from.now.piece }
    requires part { IsPartOf from.now.list.now (seen part) }
    requires ready { IsReady records.old }
    ensures pieces { OnOk result ((before : List Piece) → HasPieces records.old before → HasPieces records.new (before ++ part_pieces from.now.list.now from.now.piece (seen part))) }
    ensures ready { OnOk result (IsReady records.new) }
{
    match part {
        Part::SegmentTable => add_segment_table(alloc, records, from),
        Part::Section(section) => add_text(alloc, records, from, section, items),
        Part::EntryTable(segment) => add_entry_table(alloc, records, from, segment),
    }
}

/// Puts the pieces of the table of segments after those that are there.
fn add_segment_table<K: TextKeeper>(
    alloc: Global,
    records: &mut SegmentRecords,
    from: &Source<'_, K>,
) -> Result<(), Memory>
    requires source { IsSource from.now.list.now from.now.places.now (K.content from.now.kept.now) from.now.chains.now from.now.piece }
    requires ready { IsReady records.old }
    ensures pieces { OnOk result ((before : List Piece) → HasPieces records.old before → HasPieces records.new (before ++ part_pieces from.now.list.now from.now.piece Segtab)) }
    ensures ready { OnOk result (IsReady records.new) }
{
    let part = placed(from, Part::SegmentTable, &[]);
    let mut bytes = zeros(alloc, part.length)?;
    segtab_bytes(from.list.tree(), &mut bytes);
    add_table(alloc, records, from.piece, part, &bytes)
}

/// Puts the pieces of a section after those that are there: none of a common area. Its relocation items
/// are gathered in `items`.
fn add_text<K: TextKeeper>(
    alloc: Global,
    records: &mut SegmentRecords,
    from: &Source<'_, K>,
    section: u32,
    items: &mut Vec<RldItem>,
) -> Result<(), Memory>
    requires source { IsSource from.now.list.now from.now.places.now (K.content from.now.kept.now) from.now.chains.now from.now.piece }
    requires there { section < length from.now.list.now.program.sections }
    requires ready { IsReady records.old }
    ensures pieces { OnOk result ((before : List Piece) → HasPieces records.old before → HasPieces records.new (before ++ part_pieces from.now.list.now from.now.piece (OneSection section))) }
    ensures ready { OnOk result (IsReady records.new) }
{
    let part = Part::Section(section);
    match from.list.kind_of(part) {
        SecKind::Cm => Ok(()),
        SecKind::Sd | SecKind::Pc => {
            fill_section_items(items, from.list, from.places, from.chains, section)?;
            let part = placed(from, part, items);
            add_section(alloc, records, from.piece, part, from.kept, section)
        }
    }
}

/// Puts the pieces of the entry table of a segment after those that are there.
fn add_entry_table<K: TextKeeper>(
    alloc: Global,
    records: &mut SegmentRecords,
    from: &Source<'_, K>,
    segment: u8,
) -> Result<(), Memory>
    requires source { IsSource from.now.list.now from.now.places.now (K.content from.now.kept.now) from.now.chains.now from.now.piece }
    requires first { 1 ≤ segment }
    requires last { segment ≤ length from.now.list.now.tree }
    requires ready { IsReady records.old }
    ensures pieces { OnOk result ((before : List Piece) → HasPieces records.old before → HasPieces records.new (before ++ part_pieces from.now.list.now from.now.piece (Entab segment))) }
    ensures ready { OnOk result (IsReady records.new) }
{
    let items = entry_items(alloc, from.list, from.places, segment)?;
    let part = placed(from, Part::EntryTable(segment), &items);
    let mut bytes = zeros(alloc, part.length)?;
    entab_bytes(
        from.list.program(),
        from.places,
        from.list.tables(),
        segment,
        &mut bytes,
    );
    add_table(alloc, records, from.piece, part, &bytes)
}

/// A part with its number, its address, its length and these relocation items, which are its own.
fn placed<'a, K: TextKeeper>(
    from: &Source<'_, K>,
    part: Part,
    items: &'a [RldItem],
) -> PlacedPart<'a>
    requires source { IsSource from.now.list.now from.now.places.now (K.content from.now.kept.now) from.now.chains.now from.now.piece }
    requires part { IsPartOf from.now.list.now (seen part) }
    requires items { items.now ≡ part_items from.now.list.now (seen part) }
    ensures part { IsPart result }
    ensures number { result.number ≡ part_number from.now.list.now (seen part) }
    ensures address { result.address ≡ part_place from.now.list.now (seen part) }
    ensures length { result.length ≡ part_length from.now.list.now (seen part) }
    ensures items { result.items.now ≡ part_items from.now.list.now (seen part) }
{
    PlacedPart {
        number: u32::from(from.list.number_of(part)),
        address: from.list.place_of(from.places, part),
        length: from.list.length_of(part),
        items,
    }
}

fn zeros(alloc: Global, count: u32) -> Result<Vec<u8>, AllocError>
    ensures { IfOk result (λ bytes. length bytes.items ≡ count) }
{
    vec![in alloc; 0u8; count as usize]
}
