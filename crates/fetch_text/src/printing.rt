//! A member fetched into one block, and spelled as text.
ghost use Rattle.std.specs.Prelude.{◌≡◌, false, IfOk};
ghost use Rattle.le_io.specs.Counts.{WhereTold};
ghost use Rattle.member_model.specs.Placing.{is_origin};
ghost use Rattle.prog_fetch.specs.Sources.{seen, Stays};
ghost use Rattle.fetch_text.specs.Answers.{Answers, AnswersSome, HasReason};

use crate::stop::{FetchStop, stop_of};
use crate::text::text_of;
use le_io::Store;
use lib_stream::RecordSource;
use pds_lib::Entry;
use prog_fetch::{fetch, place_block};
use std::alloc::Global;

/// The text of a member in storage, fetched into one block at `origin`: the line of its entry address,
/// and the dump of the block from its first byte to its last. Of an overlay member the root is fetched,
/// of any other all records, each read once. No member is refused for what it is: one in scatter format
/// stands in one block too.
/// Linear in the bytes and items of the records and in the length of the member, but for look-ups in
/// maps.
///
/// # Errors
/// In this order. `Place(BadOrigin)`: `origin` is no multiple of 8, or origin plus length passes
/// 16,777,215; no record is read then. `Module`: the first fault of the records that a fetch reads, with
/// the record's number, from 1, or 0 for the entry point. `ReadFault`: a record could not be read, and
/// the faults of the source rose. `Memory`: want of memory.
#[tactic(auto, using(crate::proofs::Answering::printed, crate::proofs::Answering::parts_low))]
pub fn fetched_text<S: Store, R: RecordSource<S>>(
    alloc: Global,
    e: &Entry,
    s: &mut S,
    r: &mut R,
    origin: u32,
) -> Result<Vec<u8>, FetchStop>
    ensures answer { AnswersSome (R.list r.old s.old) (R.total r.old) e.now origin result }
    ensures told { WhereTold (R.list r.old s.old) (λ records. Answers e.now records origin result) }
    ensures unread { is_origin e.now.length origin ≡ false → (r.new ≡ r.old) × (s.new ≡ s.old) }
    ensures stays { Stays (seen R.list R.total R.lengths R.keeps R.held S.told R.faults S.counts r.old s.old) (seen R.list R.total R.lengths R.keeps R.held S.told R.faults S.counts r.new s.new) }
    ensures reason { HasReason (seen R.list R.total R.lengths R.keeps R.held S.told R.faults S.counts r.old s.old) (seen R.list R.total R.lengths R.keeps R.held S.told R.faults S.counts r.new s.new) result }
{
    match place_block(origin, e.length) {
        Ok(placement) => match fetch(alloc, e, s, r, &placement) {
            Ok(member) => Ok(text_of(alloc, &member)?),
            Err(fault) => Err(stop_of(fault)),
        },
        Err(what) => Err(FetchStop::Place(what)),
    }
}
