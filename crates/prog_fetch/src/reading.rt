//! The next record of a source, judged after those before.
ghost use Rattle.std.specs.Prelude.{◌≡◌, ◌+◌, ◌≤◌, ◌++◌, ◌∷◌, [], true, List, ℕ, None, OnOk, IfErr};
ghost use Rattle.member_walk.specs.Walked.{IsWalked};
ghost use Rattle.member_walk.specs.Told.{is_fetched_on};
ghost use Rattle.prog_fetch.specs.Given.{IsPlacementOf};
ghost use Rattle.prog_fetch.specs.Reading.{HasHead, HasText, IsLaidOf, LaysNext, FindsFault, ShowsFault};
ghost use Rattle.prog_fetch.specs.Sources.{seen, Stays, HasReason};

use crate::fault::{FetchFault, fault_of};
use fetch_places::Placement;
use fetch_storage::Parts;
use le_io::Store;
use lib_stream::RecordSource;
use member_walk::Walk;
use pds_lib::Entry;
use std::alloc::Global;

/// What is fetched, and where it goes.
#[derive(Clone, Copy)]
pub(crate) struct Task<'a> {
    pub alloc: Global,
    pub entry: &'a Entry,
    pub placement: &'a Placement,
}

/// Reads the next record, which is no text, and judges it.
pub(crate) fn take_head<S: Store, R: RecordSource<S>>(
    alloc: Global,
    e: &Entry,
    s: &mut S,
    r: &mut R,
    walk: &mut Walk,
    number: u32,
) -> Result<(), FetchFault>
    requires number { number ≡ walk.old.number + 1 }
    requires head { HasHead e.now (R.list r.old s.old) (R.total r.old) walk.old }
    requires on { is_fetched_on e.now walk.old ≡ true }
    requires more { number ≤ R.total r.old }
    requires no_text { walk.old.facts.due ≡ None }
    ensures head { OnOk result (HasHead e.now (R.list r.old s.old) (R.total r.old) walk.new) }
    ensures counted { OnOk result (walk.new.number ≡ walk.old.number + 1) }
    ensures fault { IfErr result (FindsFault (R.list r.old s.old) (R.total r.old) e.now) }
    ensures stays { Stays (seen R.list R.total R.lengths R.keeps R.held S.told R.faults S.counts r.old s.old) (seen R.list R.total R.lengths R.keeps R.held S.told R.faults S.counts r.new s.new) }
    ensures reason { HasReason (seen R.list R.total R.lengths R.keeps R.held S.told R.faults S.counts r.old s.old) (seen R.list R.total R.lengths R.keeps R.held S.told R.faults S.counts r.new s.new) result }
{
    match r.record(s, number) {
        Ok(bytes) => judge_head(alloc, e, walk, bytes),
        Err(_) => Err(FetchFault::ReadFault),
    }
}

/// Judges a record that is no text.
fn judge_head(alloc: Global, e: &Entry, walk: &mut Walk, bytes: &[u8]) -> Result<(), FetchFault>
    ensures walked { OnOk result ((records : List (List ℕ)) → IsWalked e.now records walk.old → IsWalked e.now (records ++ bytes.now ∷ []) walk.new) }
    ensures fault { IfErr result (ShowsFault e.now walk.old bytes.now) }
{
    match walk.next(alloc, e, bytes) {
        Ok(_) => Ok(()),
        Err(fault) => Err(fault_of(fault)),
    }
}

/// Reads the next record of a segment, judges it, and lays it if it is text.
pub(crate) fn take_text<S: Store, R: RecordSource<S>>(
    task: &Task<'_>,
    s: &mut S,
    r: &mut R,
    walk: &mut Walk,
    parts: &mut Parts,
    number: u32,
) -> Result<(), FetchFault>
    requires number { number ≡ walk.old.number + 1 }
    requires placement { IsPlacementOf task.now.entry.now task.now.placement.now }
    requires text { HasText task.now.entry.now (R.list r.old s.old) (R.total r.old) task.now.placement.now walk.old parts.old }
    requires on { is_fetched_on task.now.entry.now walk.old ≡ true }
    requires more { number ≤ R.total r.old }
    ensures text { OnOk result (HasText task.now.entry.now (R.list r.old s.old) (R.total r.old) task.now.placement.now walk.new parts.new) }
    ensures counted { OnOk result (walk.new.number ≡ walk.old.number + 1) }
    ensures fault { IfErr result (FindsFault (R.list r.old s.old) (R.total r.old) task.now.entry.now) }
    ensures stays { Stays (seen R.list R.total R.lengths R.keeps R.held S.told R.faults S.counts r.old s.old) (seen R.list R.total R.lengths R.keeps R.held S.told R.faults S.counts r.new s.new) }
    ensures reason { HasReason (seen R.list R.total R.lengths R.keeps R.held S.told R.faults S.counts r.old s.old) (seen R.list R.total R.lengths R.keeps R.held S.told R.faults S.counts r.new s.new) result }
{
    match r.record(s, number) {
        Ok(bytes) => judge_text(task, walk, parts, bytes),
        Err(_) => Err(FetchFault::ReadFault),
    }
}

/// Judges a record of a segment, and lays it if it is text.
fn judge_text(
    task: &Task<'_>,
    walk: &mut Walk,
    parts: &mut Parts,
    bytes: &[u8],
) -> Result<(), FetchFault>
    requires placement { IsPlacementOf task.now.entry.now task.now.placement.now }
    requires laid { IsLaidOf task.now.entry.now task.now.placement.now walk.old parts.old }
    requires late { 4 ≤ walk.old.facts.stage }
    requires on { is_fetched_on task.now.entry.now walk.old ≡ true }
    ensures laid { OnOk result (LaysNext task.now.entry.now task.now.placement.now bytes.now walk.old parts.old walk.new parts.new) }
    ensures fault { IfErr result (ShowsFault task.now.entry.now walk.old bytes.now) }
{
    match walk.next(task.alloc, task.entry, bytes) {
        Ok(Some(place)) => {
            parts.lay(place.section, place.address, bytes);
            Ok(())
        }
        Ok(None) => Ok(()),
        Err(fault) => Err(fault_of(fault)),
    }
}
