//! Placing a member over areas.
ghost use Rattle.std.specs.Prelude.{◌≡◌, ◌+◌, ◌≤◌, ◌||◌, nat_lt, ◌++◌, ◌∷◌, [], List, ℕ, true, false, None, IfOk, IfErr};
ghost use Rattle.le_io.specs.Counts.{WhereTold};
ghost use Rattle.member_model.specs.Placing.{may_scatter, is_of_segment};
ghost use Rattle.member_walk.specs.Walked.{IsWalked};
ghost use Rattle.fetch_places.specs.Over.{AreInOrder};
ghost use Rattle.prog_fetch.specs.Given.{IsPlacementOf};
ghost use Rattle.prog_fetch.specs.Faults.{scatter_fault_of};
ghost use Rattle.prog_fetch.specs.Scattering.{Places, PlacesSome, PlacesNext, PlacesAt, PlacedOver, GoesOn, AnswersNext, HasReason, are_heads, HasHeads};
ghost use Rattle.prog_fetch.specs.Sources.{seen, Stays};

use crate::fault::{ScatterFault, scatter_fault_of};
use fetch_places::{Area, AreaFault, Placement, place_sections};
use le_io::Store;
use lib_stream::RecordSource;
use member_walk::{Walk, WalkFault};
use pds_lib::Entry;
use std::alloc::Global;

/// What is placed, and over what.
#[derive(Clone, Copy)]
struct Task<'a> {
    alloc: Global,
    entry: &'a Entry,
    areas: &'a [Area],
}

/// Places the sections of a member over areas, in the order of its items: each in the first of the
/// areas, in the order given, in which it fits from the next multiple of 8 on. Reads the records up to
/// the first control or relocation record, each once: that is a record whose first byte is 1, 2, 3, 5,
/// 6, 7, 13, 14 or 15. The areas are not empty, ascend, do not meet, and end at 16,777,215 at most.
/// Linear in the items of these records, but for look-ups in maps, and as many steps as sections times
/// areas.
///
/// # Errors
/// In this order. `NotScatter`: the member's attributes lack scatter format or have overlay. `Record`:
/// the first fault of the member, where it is at the entry point (number 0) or at one of these records,
/// or at the record after them where there is none (NoEnd) or where scatter or translation items are
/// still to come before it. `NoStorage`: the first section that fits in none of the areas. `ReadFault`:
/// a record could not be read, and the faults of the source rose. `Memory`: want of memory.
pub fn place_scatter<S: Store, R: RecordSource<S>>(
    alloc: Global,
    e: &Entry,
    s: &mut S,
    r: &mut R,
    areas: &[Area],
) -> Result<Placement, ScatterFault>
    requires order { AreInOrder 0 areas.now }
    ensures answer { PlacesSome (R.list r.old s.old) (R.total r.old) e.now areas.now result }
    ensures told { WhereTold (R.list r.old s.old) (λ records. Places e.now areas.now records result) }
    ensures placement { IfOk result (IsPlacementOf e.now) }
    ensures stays { Stays (seen R.list R.total R.lengths R.keeps R.held S.told R.faults S.counts r.old s.old) (seen R.list R.total R.lengths R.keeps R.held S.told R.faults S.counts r.new s.new) }
    ensures reason { HasReason (seen R.list R.total R.lengths R.keeps R.held S.told R.faults S.counts r.old s.old) (seen R.list R.total R.lengths R.keeps R.held S.told R.faults S.counts r.new s.new) result }
{
    if may_scatter(e) {
        let task = Task {
            alloc,
            entry: e,
            areas,
        };
        place_heads(&task, s, r)
    } else {
        Err(ScatterFault::NotScatter)
    }
}

/// Whether the member is in scatter format and has no overlay.
fn may_scatter(e: &Entry) -> bool
    ensures { result ≡ may_scatter e.now }
{
    e.is_scatter() && !e.is_overlay()
}

/// Places a member that may be scattered.
fn place_heads<S: Store, R: RecordSource<S>>(
    task: &Task<'_>,
    s: &mut S,
    r: &mut R,
) -> Result<Placement, ScatterFault>
    requires scatter { may_scatter task.now.entry.now ≡ true }
    requires order { AreInOrder 0 task.now.areas.now }
    ensures answer { PlacesSome (R.list r.old s.old) (R.total r.old) task.now.entry.now task.now.areas.now result }
    ensures stays { Stays (seen R.list R.total R.lengths R.keeps R.held S.told R.faults S.counts r.old s.old) (seen R.list R.total R.lengths R.keeps R.held S.told R.faults S.counts r.new s.new) }
    ensures reason { HasReason (seen R.list R.total R.lengths R.keeps R.held S.told R.faults S.counts r.old s.old) (seen R.list R.total R.lengths R.keeps R.held S.told R.faults S.counts r.new s.new) result }
{
    let mut walk = Walk::new(task.alloc);
    for before in 0..r.count() {
        if let Some(placement) = take_next(task, s, r, &mut walk, before + 1)? {
            return Ok(placement);
        }
    }
    place_alone(task, &walk)
}

/// Reads the next record and judges it: the placement, where it is the first record of a segment.
fn take_next<S: Store, R: RecordSource<S>>(
    task: &Task<'_>,
    s: &mut S,
    r: &mut R,
    walk: &mut Walk,
    number: u32,
) -> Result<Option<Placement>, ScatterFault>
    requires scatter { may_scatter task.now.entry.now ≡ true }
    requires order { AreInOrder 0 task.now.areas.now }
    requires number { number ≡ walk.old.number + 1 }
    requires heads { HasHeads task.now.entry.now (R.list r.old s.old) (R.total r.old) walk.old }
    requires more { number ≤ R.total r.old }
    ensures heads { IfOk result (λ placed. placed ≡ None → HasHeads task.now.entry.now (R.list r.old s.old) (R.total r.old) walk.new) }
    ensures counted { IfOk result (λ placed. placed ≡ None → walk.new.number ≡ walk.old.number + 1) }
    ensures answer { PlacesNext (R.list r.old s.old) (R.total r.old) task.now.entry.now task.now.areas.now result }
    ensures stays { Stays (seen R.list R.total R.lengths R.keeps R.held S.told R.faults S.counts r.old s.old) (seen R.list R.total R.lengths R.keeps R.held S.told R.faults S.counts r.new s.new) }
    ensures reason { HasReason (seen R.list R.total R.lengths R.keeps R.held S.told R.faults S.counts r.old s.old) (seen R.list R.total R.lengths R.keeps R.held S.told R.faults S.counts r.new s.new) result }
{
    match r.record(s, number) {
        Ok(bytes) => judge(task, walk, bytes),
        Err(_) => Err(ScatterFault::ReadFault),
    }
}

/// Judges the record after head records: the placement, where it is the first record of a segment.
fn judge(task: &Task<'_>, walk: &mut Walk, bytes: &[u8]) -> Result<Option<Placement>, ScatterFault>
    requires scatter { may_scatter task.now.entry.now ≡ true }
    requires order { AreInOrder 0 task.now.areas.now }
    ensures on { IfOk result (λ placed. placed ≡ None → GoesOn task.now.entry.now bytes.now walk.old walk.new) }
    ensures answer { AnswersNext task.now.entry.now task.now.areas.now bytes.now walk.old result }
    ensures read { IfErr result (λ fault. fault ≡ ScatterFault.ReadFault → ⊥) }
{
    if !is_of_segment(bytes) {
        return judge_head(task, walk, bytes);
    }
    match place_before(task, walk, bytes) {
        Ok(placement) => Ok(Some(placement)),
        Err(fault) => Err(fault),
    }
}

/// Judges one more head record.
fn judge_head(
    task: &Task<'_>,
    walk: &mut Walk,
    bytes: &[u8],
) -> Result<Option<Placement>, ScatterFault>
    requires scatter { may_scatter task.now.entry.now ≡ true }
    requires head { is_of_segment bytes.now ≡ false }
    ensures on { IfOk result (λ placed. GoesOn task.now.entry.now bytes.now walk.old walk.new) }
    ensures answer { AnswersNext task.now.entry.now task.now.areas.now bytes.now walk.old result }
    ensures read { IfErr result (λ fault. fault ≡ ScatterFault.ReadFault → ⊥) }
{
    match walk.next(task.alloc, task.entry, bytes) {
        Ok(_) => Ok(None),
        Err(fault) => Err(scatter_fault_of(fault)),
    }
}

/// Whether this is a control or relocation record.
fn is_of_segment(bytes: &[u8]) -> bool
    ensures { result ≡ is_of_segment bytes.now }
{
    match bytes.first() {
        Some(identifier) => matches!(*identifier, 1 | 2 | 3 | 5 | 6 | 7 | 13 | 14 | 15),
        None => false,
    }
}

/// Places the sections before the first record of a segment, which is judged too.
fn place_before(task: &Task<'_>, walk: &mut Walk, bytes: &[u8]) -> Result<Placement, ScatterFault>
    requires scatter { may_scatter task.now.entry.now ≡ true }
    requires order { AreInOrder 0 task.now.areas.now }
    requires segment { is_of_segment bytes.now ≡ true }
    ensures answer { PlacesAt task.now.entry.now task.now.areas.now bytes.now walk.old result }
    ensures read { IfErr result (λ fault. fault ≡ ScatterFault.ReadFault → ⊥) }
{
    let heads = walk.number();
    let is_incomplete = walk.is_incomplete();
    let placed = place(task, walk);
    match walk.next(task.alloc, task.entry, bytes) {
        Ok(_) => placed,
        Err(WalkFault::At(number, what)) => {
            if comes_first(number, heads, is_incomplete) {
                Err(ScatterFault::Record(number, what))
            } else {
                placed
            }
        }
        Err(WalkFault::Memory) => Err(ScatterFault::Memory),
    }
}

/// Whether a fault that shows at the record after so many head records comes before want of storage.
fn comes_first(number: u32, heads: u32, is_incomplete: bool) -> bool
    ensures { result ≡ (nat_lt number (heads + 1) || is_incomplete) }
{
    number <= heads || is_incomplete
}

/// Places the sections of a member that has no record but head records, if nothing is wrong with it.
fn place_alone(task: &Task<'_>, walk: &Walk) -> Result<Placement, ScatterFault>
    requires scatter { may_scatter task.now.entry.now ≡ true }
    requires order { AreInOrder 0 task.now.areas.now }
    ensures answer { (records : List (List ℕ)) → IsWalked task.now.entry.now records walk.now → are_heads records ≡ true → Places task.now.entry.now task.now.areas.now records result }
    ensures read { IfErr result (λ fault. fault ≡ ScatterFault.ReadFault → ⊥) }
{
    match walk.finish(task.entry, walk.ended()) {
        Ok(()) => place(task, walk),
        Err((number, what)) => Err(ScatterFault::Record(number, what)),
    }
}

/// Places the sections of the records that were walked.
fn place(task: &Task<'_>, walk: &Walk) -> Result<Placement, ScatterFault>
    requires order { AreInOrder 0 task.now.areas.now }
    ensures { PlacedOver task.now.areas.now walk.now.facts.symbols result }
{
    match place_sections(task.alloc, walk.symbols(), task.areas) {
        Ok(placement) => Ok(placement),
        Err(AreaFault::NoStorage(name)) => Err(ScatterFault::NoStorage(name)),
        Err(AreaFault::Memory) => Err(ScatterFault::Memory),
    }
}
