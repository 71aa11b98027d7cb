//! The records of a program, one list after the other.
ghost use Rattle.std.specs.Prelude.{◌≡◌, ◌++◌, All, length, map, IfOk, OnOk};
ghost use Rattle.linking_model.specs.Places.{is_overlay};
ghost use Rattle.member_model.specs.Cuts.{together};
ghost use Rattle.member_model.specs.Written.{written_bytes};
ghost use Rattle.mod_segments.specs.Records.{IsStored};
ghost use Rattle.mod_write.specs.Ready.{IsSource};
ghost use Rattle.mod_write.specs.Written.{bytes_of_segments, note_bytes};

use crate::naming::Format;
use crate::segments::{Source, segments};
use le_bytes::{Bytes, Items, Memory};
use mod_heads::{head_records, note_records};
use std::alloc::{AllocError, Global};
use text_store::TextKeeper;

/// The records of the names, the note list of an overlay program, and the records of each segment.
///
/// # Errors
/// Want of memory.
pub(crate) fn records<K: TextKeeper>(
    alloc: Global,
    from: &Source<'_, K>,
    fmt: Format,
) -> Result<Items<Bytes>, Memory>
    requires source { IsSource from.now.list.now from.now.places.now (K.content from.now.kept.now) from.now.chains.now from.now.piece }
    requires overlay { fmt.overlay ≡ is_overlay from.now.list.now.tree }
    ensures value { IfOk result (λ records. records ≡ written_bytes from.now.list.now fmt.scatter from.now.piece) }
    ensures sizes { IfOk result (All IsStored) }
{
    let mut records = head_records(alloc, from.list, from.places, fmt.scatter)?.into_vec();
    let segments = segments(alloc, from)?;
    let mut notes = notes(alloc, from, fmt.overlay, records.len(), &segments)?.into_vec();
    records.append(&mut notes)?;
    append_each(&mut records, segments)?;
    Ok(Items::from_vec(records))
}

/// The note list of an overlay program after so many records.
fn notes<K: TextKeeper>(
    alloc: Global,
    from: &Source<'_, K>,
    overlay: bool,
    before: usize,
    segments: &[Items<Bytes>],
) -> Result<Items<Bytes>, Memory>
    requires source { IsSource from.now.list.now from.now.places.now (K.content from.now.kept.now) from.now.chains.now from.now.piece }
    requires segments { segments.now ≡ bytes_of_segments from.now.list.now from.now.piece }
    ensures value { IfOk result (λ notes. notes ≡ note_bytes from.now.list.now from.now.piece overlay before) }
    ensures sizes { IfOk result (All IsStored) }
{
    if overlay {
        let counts = counts(alloc, segments)?;
        note_records(alloc, from.list, from.places, before, &counts)
    } else {
        Ok(Items::new(alloc))
    }
}

/// How many records each segment has.
fn counts(alloc: Global, segments: &[Items<Bytes>]) -> Result<Vec<usize>, AllocError>
    ensures { IfOk result (λ counts. counts.items ≡ map length segments.now) }
{
    let mut counts = Vec::with_capacity(alloc, segments.len())?;
    for segment in segments {
        counts.push(segment.len())?;
    }
    Ok(counts)
}

/// Puts the records of each segment after those that are there.
fn append_each(records: &mut Vec<Bytes>, segments: Vec<Items<Bytes>>) -> Result<(), AllocError>
    ensures { OnOk result (records.new.items ≡ records.old.items ++ together segments.items) }
{
    for segment in segments {
        records.append(&mut segment.into_vec())?;
    }
    Ok(())
}
