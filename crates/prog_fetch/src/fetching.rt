//! A fetch.
ghost use Rattle.std.specs.Prelude.{◌≡◌, IfErr, IfOk, None, OnOk, [], true};
ghost use Rattle.le_io.specs.Counts.{WhereTold};
ghost use Rattle.fetch_storage.specs.Kept.{empty_parts};
ghost use Rattle.prog_fetch.specs.Given.{IsPlacementOf, Answers, AnswersSome};
ghost use Rattle.prog_fetch.specs.Reading.{HasHead, HasAll, IsOver, FindsFault};
ghost use Rattle.prog_fetch.specs.Sources.{seen, Stays, HasReason};

use crate::fault::FetchFault;
use crate::fetched::Fetched;
use crate::loading::finish;
use crate::reading::{Task, take_head, take_text};
use fetch_places::Placement;
use fetch_storage::Parts;
use le_io::Store;
use lib_stream::RecordSource;
use member_walk::Walk;
use pds_lib::Entry;
use std::alloc::Global;

/// Fetches a member into storage where it is placed: of an overlay member the head records and
/// segment 1, of any other all records, each read once. Text stands where its section has moved to, a
/// later text wins, and all else is 0. Then each field of an A-type or V-type item whose symbol is
/// defined has the signed shifts of its items added, modulo its size. The placement is a block that
/// `place_block` gives for the member's length, or, for a member in scatter format without overlay, the
/// addresses that `place_scatter` gives.
/// Linear in the bytes and items of the records, but for look-ups in maps, and n log n in the sections
/// of a scattered member.
///
/// # Errors
/// `At`: the first fault of the records that a fetch reads, with the record's number, from 1, or 0 for
/// the entry point; or, where there is none, BadScatter at 0 where the placement has not one address for
/// each section, two sections would share a byte, or one would end above 16,777,215. `ReadFault`: a
/// record could not be read, and the faults of the source rose. `Memory`: want of memory.
pub fn fetch<S: Store, R: RecordSource<S>>(
    alloc: Global,
    e: &Entry,
    s: &mut S,
    r: &mut R,
    p: &Placement,
) -> Result<Fetched, FetchFault>
    requires placement { IsPlacementOf e.now p.now }
    ensures answer { AnswersSome (R.list r.old s.old) (R.total r.old) e.now p.now result }
    ensures told { WhereTold (R.list r.old s.old) (λ records. Answers e.now p.now records result) }
    ensures stays { Stays (seen R.list R.total R.lengths R.keeps R.held S.told R.faults S.counts r.old s.old) (seen R.list R.total R.lengths R.keeps R.held S.told R.faults S.counts r.new s.new) }
    ensures reason { HasReason (seen R.list R.total R.lengths R.keeps R.held S.told R.faults S.counts r.old s.old) (seen R.list R.total R.lengths R.keeps R.held S.told R.faults S.counts r.new s.new) result }
{
    let task = Task {
        alloc,
        entry: e,
        placement: p,
    };
    let (walk, parts) = read(&task, s, r)?;
    finish(&task, walk, parts, r.count())
}

/// Reads all records that the fetch reads, and lays their text.
fn read<S: Store, R: RecordSource<S>>(
    task: &Task<'_>,
    s: &mut S,
    r: &mut R,
) -> Result<(Walk, Parts), FetchFault>
    requires placement { IsPlacementOf task.now.entry.now task.now.placement.now }
    ensures read { IfOk result (λ x. HasAll task.now.entry.now (R.list r.old s.old) (R.total r.old) task.now.placement.now x.0 x.1) }
    ensures fault { IfErr result (FindsFault (R.list r.old s.old) (R.total r.old) task.now.entry.now) }
    ensures stays { Stays (seen R.list R.total R.lengths R.keeps R.held S.told R.faults S.counts r.old s.old) (seen R.list R.total R.lengths R.keeps R.held S.told R.faults S.counts r.new s.new) }
    ensures reason { HasReason (seen R.list R.total R.lengths R.keeps R.held S.told R.faults S.counts r.old s.old) (seen R.list R.total R.lengths R.keeps R.held S.told R.faults S.counts r.new s.new) result }
{
    let mut walk = Walk::new(task.alloc);
    read_heads(task.alloc, task.entry, s, r, &mut walk)?;
    let mut parts = Parts::new(task.alloc, walk.symbols(), task.placement)?;
    read_texts(task, s, r, &mut walk, &mut parts)?;
    Ok((walk, parts))
}

/// Reads records up to the first that is followed by text.
fn read_heads<S: Store, R: RecordSource<S>>(
    alloc: Global,
    e: &Entry,
    s: &mut S,
    r: &mut R,
    walk: &mut Walk,
) -> Result<(), FetchFault>
    requires head { HasHead e.now (R.list r.old s.old) (R.total r.old) walk.old }
    requires none { walk.old.number ≡ 0 }
    ensures head { OnOk result (HasHead e.now (R.list r.old s.old) (R.total r.old) walk.new) }
    ensures over { OnOk result (walk.new.facts.due ≡ None → IsOver e.now (R.total r.old) walk.new) }
    ensures fault { IfErr result (FindsFault (R.list r.old s.old) (R.total r.old) e.now) }
    ensures stays { Stays (seen R.list R.total R.lengths R.keeps R.held S.told R.faults S.counts r.old s.old) (seen R.list R.total R.lengths R.keeps R.held S.told R.faults S.counts r.new s.new) }
    ensures reason { HasReason (seen R.list R.total R.lengths R.keeps R.held S.told R.faults S.counts r.old s.old) (seen R.list R.total R.lengths R.keeps R.held S.told R.faults S.counts r.new s.new) result }
{
    for before in 0..r.count() {
        if walk.due().is_some() {
            return Ok(());
        }
        if !walk.is_fetched_on(e) {
            return Ok(());
        }
        take_head(alloc, e, s, r, walk, before + 1)?;
    }
    Ok(())
}

/// Reads the records after those, and lays their text.
fn read_texts<S: Store, R: RecordSource<S>>(
    task: &Task<'_>,
    s: &mut S,
    r: &mut R,
    walk: &mut Walk,
    parts: &mut Parts,
) -> Result<(), FetchFault>
    requires placement { IsPlacementOf task.now.entry.now task.now.placement.now }
    requires head { HasHead task.now.entry.now (R.list r.old s.old) (R.total r.old) walk.old }
    requires over { walk.old.facts.due ≡ None → IsOver task.now.entry.now (R.total r.old) walk.old }
    requires empty { parts.old ≡ empty_parts walk.old.facts.symbols task.now.placement.now }
    ensures all { OnOk result (HasAll task.now.entry.now (R.list r.old s.old) (R.total r.old) task.now.placement.now walk.new parts.new) }
    ensures fault { IfErr result (FindsFault (R.list r.old s.old) (R.total r.old) task.now.entry.now) }
    ensures stays { Stays (seen R.list R.total R.lengths R.keeps R.held S.told R.faults S.counts r.old s.old) (seen R.list R.total R.lengths R.keeps R.held S.told R.faults S.counts r.new s.new) }
    ensures reason { HasReason (seen R.list R.total R.lengths R.keeps R.held S.told R.faults S.counts r.old s.old) (seen R.list R.total R.lengths R.keeps R.held S.told R.faults S.counts r.new s.new) result }
{
    let Some(_) = walk.due() else {
        return Ok(());
    };
    for before in walk.number()..r.count() {
        if !walk.is_fetched_on(task.entry) {
            return Ok(());
        }
        take_text(task, s, r, walk, parts, before + 1)?;
    }
    Ok(())
}
