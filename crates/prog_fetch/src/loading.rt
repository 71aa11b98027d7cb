//! What is fetched once all records were read.
ghost use Rattle.std.specs.Prelude.{◌≡◌, ℕ, List, [], None, Some, map, IfOk, IfErr, length};
ghost use Rattle.member_model.specs.Facts.{facts, no_facts};
ghost use Rattle.member_model.specs.FirstBad.{first_bad_of, root_part};
ghost use Rattle.member_walk.specs.Fields.{items_of};
ghost use Rattle.member_walk.specs.Told.{is_fetched_whole};
ghost use Rattle.member_walk.specs.Walked.{IsWalked};
ghost use Rattle.fetch_places.specs.Extents.{Fits};
ghost use Rattle.prog_fetch.specs.Given.{IsPlacementOf, given};
ghost use Rattle.prog_fetch.specs.Reading.{IsLaid, IsLaidOf, Completes, AnswersAll, EndsWith, SectionsFit, IsGood, Gives};

use crate::fault::FetchFault;
use crate::fetched::Fetched;
use crate::reading::Task;
use fetch_places::fits;
use fetch_storage::Parts;
use le_bytes::{Items, Memory, RecWhat};
use load_recs::RldItem;
use member_walk::{SegmentField, Walk, WalkParts};
use pds_lib::Entry;
use std::alloc::{AllocError, Global};

/// What is fetched, or why not, once all records were read and their text is laid.
pub(crate) fn finish(
    task: &Task<'_>,
    walk: Walk,
    parts: Parts,
    count: u32,
) -> Result<Fetched, FetchFault>
    requires placement { IsPlacementOf task.now.entry.now task.now.placement.now }
    requires laid { IsLaidOf task.now.entry.now task.now.placement.now walk parts }
    ensures answer { AnswersAll task.now.entry.now task.now.placement.now walk parts count result }
    ensures read { IfErr result (λ fault. fault ≡ FetchFault.ReadFault → ⊥) }
{
    judge_end(task.entry, &walk)?;
    judge_placement(task, &walk)?;
    match load(task, walk, parts, count) {
        Ok(fetched) => Ok(fetched),
        Err(_) => Err(FetchFault::Memory),
    }
}

/// Judges that no record comes any more.
fn judge_end(e: &Entry, walk: &Walk) -> Result<(), FetchFault>
    ensures { EndsWith e.now walk.now result }
{
    match walk.finish(e, walk.is_fetched_whole(e)) {
        Ok(()) => Ok(()),
        Err((number, what)) => Err(FetchFault::At(number, what)),
    }
}

/// Judges that the sections fit where they are placed.
fn judge_placement(task: &Task<'_>, walk: &Walk) -> Result<(), FetchFault>
    ensures { SectionsFit task.now.placement.now walk.now result }
{
    if fits(task.alloc, task.placement, walk.symbols())? {
        Ok(())
    } else {
        Err(FetchFault::At(0, RecWhat::BadScatter))
    }
}

/// Adds the shifts of all fields, and gives the parts with what the member says of them.
fn load(task: &Task<'_>, walk: Walk, mut parts: Parts, count: u32) -> Result<Fetched, Memory>
    requires placement { IsPlacementOf task.now.entry.now task.now.placement.now }
    requires laid { IsLaidOf task.now.entry.now task.now.placement.now walk parts }
    requires good { IsGood task.now.entry.now walk }
    requires fits { Fits task.now.placement.now walk.facts.symbols }
    ensures { IfOk result (Gives task.now.entry.now task.now.placement.now walk parts count) }
{
    let entry = parts.address_of(u32::from(task.entry.entry_section), task.entry.entry);
    let WalkParts {
        symbols,
        notes,
        fields,
    } = walk.into_parts();
    let shifts = parts.shifts(task.alloc, &symbols)?;
    let fields = items_of(task.alloc, &fields)?;
    parts.relocate(&symbols, &shifts, &fields);
    Ok(Fetched {
        parts: parts.into_items(task.alloc)?,
        entry,
        items: Items::from_vec(symbols),
        notes: Items::from_vec(notes),
        shifts: Items::from_vec(shifts),
        fields: Items::from_vec(fields),
        records: count,
    })
}

/// The items of fields.
fn items_of(alloc: Global, fields: &[SegmentField]) -> Result<Vec<RldItem>, AllocError>
    ensures { IfOk result (λ items. items.items ≡ items_of fields.now) }
{
    fields.iter().map(|field| field.item).collect(alloc)
}
