//! The records of a member, judged one after the other.
ghost use Rattle.std.specs.Prelude.{◌+◌, ◌<◌, ◌^◌, length, take, OnOk, IfOk, IfErr};
ghost use Rattle.sym_mod.specs.Sound.{IsSoundModule};
ghost use Rattle.mod_read.specs.Answers.{HasRead, ReadsOn, ShowsFault, FindsFault, EndsWith, Answers};

use crate::fault::ModFault;
use crate::fragments::{LoadedText, text_at};
use crate::making::module_of;
use le_bytes::Items;
use member_walk::{Walk, WalkFault};
use pds_lib::{Entry, Records};
use std::alloc::Global;
use sym_mod::SymModule;

/// The symbolic module of a member, all of whose records are judged, one after the other. Null items
/// are left out. So are the SD items `$SEGTAB` and `$ENTAB`, the tables of overlay, with their text,
/// their constants and their labels, and what refers to these refers to a name. An SD whose name is
/// blank is a PC. The relocation items of one field make one constant, in the order of their first
/// items. The module is sound. Linear in the bytes and items of the records, but for look-ups in maps.
/// That a load module may be linked again follows GC28-6538; what is kept of one is this project's
/// profile.
///
/// # Errors
/// `At`: the first fault of the member, with the number of its record, from 1; number 0 and
/// BadEntryPoint where the entry point does not lie in a section of segment 1 or at its end; NoEnd, at
/// the number after the last record, where the module does not end. `Memory`: out of memory.
pub fn read_load_module(alloc: Global, e: &Entry, r: Records<'_>) -> Result<SymModule, ModFault>
    ensures answer { Answers e.now r.entry result }
    ensures sound { IfOk result IsSoundModule }
{
    let (walk, texts) = read(alloc, e, &r)?;
    judge_end(e, &walk)?;
    match module_of(alloc, e, walk, texts) {
        Ok(module) => Ok(module),
        Err(_) => Err(ModFault::Memory),
    }
}

/// Judges all records, and keeps their text.
fn read(alloc: Global, e: &Entry, r: &Records<'_>) -> Result<(Walk, Items<LoadedText>), ModFault>
    ensures read { IfOk result (λ x. HasRead e.now r.now x.0 x.1) }
    ensures fault { IfErr result (FindsFault e.now r.now) }
{
    let mut walk = Walk::new(alloc);
    let mut texts = Items::new(alloc);
    for before in 0..r.count() {
        take_next(alloc, e, r, before, &mut walk, &mut texts)?;
    }
    Ok((walk, texts))
}

/// Judges the record that comes after so many, and keeps its text.
fn take_next(
    alloc: Global,
    e: &Entry,
    r: &Records<'_>,
    before: u32,
    walk: &mut Walk,
    texts: &mut Items<LoadedText>,
) -> Result<(), ModFault>
    requires more { before < length r.now }
    requires few { before + 1 < 2 ^ 32 }
    requires read { HasRead e.now (take before r.now) walk.old texts.old }
    ensures read { OnOk result (HasRead e.now (take (before + 1) r.now) walk.new texts.new) }
    ensures fault { IfErr result (FindsFault e.now r.now) }
{
    match r.get(before + 1) {
        Some(bytes) => take_record(alloc, e, bytes, walk, texts),
        None => Ok(()),
    }
}

/// Judges a record, and keeps it if it is text.
fn take_record(
    alloc: Global,
    e: &Entry,
    bytes: &[u8],
    walk: &mut Walk,
    texts: &mut Items<LoadedText>,
) -> Result<(), ModFault>
    ensures read { OnOk result (ReadsOn e.now bytes.now walk.old texts.old walk.new texts.new) }
    ensures fault { IfErr result (ShowsFault e.now walk.old bytes.now) }
{
    match walk.next(alloc, e, bytes) {
        Ok(Some(place)) => {
            texts.push(text_at(alloc, place, bytes)?)?;
            Ok(())
        }
        Ok(None) => Ok(()),
        Err(WalkFault::At(number, what)) => Err(ModFault::At(number, what)),
        Err(WalkFault::Memory) => Err(ModFault::Memory),
    }
}

/// Judges that no record comes any more.
fn judge_end(e: &Entry, walk: &Walk) -> Result<(), ModFault>
    ensures { EndsWith e.now walk.now result }
{
    match walk.finish(e, walk.ended()) {
        Ok(()) => Ok(()),
        Err((number, what)) => Err(ModFault::At(number, what)),
    }
}
