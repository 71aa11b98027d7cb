//! The members of an image: where they begin, and their records.
ghost use Rattle.std.specs.Prelude.{◌≡◌, ◌≤◌, ◌<◌, ◌^◌, ◌+◌, ◌++◌, ℕ, [], length, drop, slice_index_or, if◌then◌else◌, IfOk, OnOk};
ghost use Rattle.std.specs.HashMap.{get};
ghost use Rattle.std.specs.List.{flat_map};
ghost use Rattle.le_bytes.specs.Names.{name_eq};
ghost use Rattle.le_bytes.specs.declared.name.Name.{Name};
ghost use Rattle.pds_lib.specs.Contents.{entries_of, records_of};
ghost use Rattle.pds_image.specs.Spelling.{record_bytes};
ghost use Rattle.pds_image.specs.Image.{added, records_in, first_from, body_bytes, most_bytes};
ghost use Rattle.pds_image.specs.Firsts.{first_with};

use crate::numbers::{put2, put4};
use le_bytes::Name;
use pds_lib::{Entry, Library, Records, Version};
use std::alloc::{AllocError, Global};
use std::collections::HashMap;

/// The records that an entry adds: of a main entry its own and the one that ends them.
pub(crate) fn added(library: &Library, e: &Entry) -> u64
    ensures value { result ≡ added library.now e.now }
    ensures few { result ≤ 2 ^ 24 }
{
    if e.alias {
        0
    } else {
        library.records(e).count() as u64 + 1
    }
}

pub(crate) fn count_records(library: &Library) -> u64
    requires { records_in library.now (entries_of library.now) ≤ most_bytes }
    ensures { result ≡ records_in library.now (entries_of library.now) }
{
    let mut total = 0;
    for e in library.entries() {
        total += added(library, e);
    }
    total
}

#[tactic(auto, unfolding(crate::specs::Firsts::first_with))]
fn note_first(firsts: &mut HashMap<Name, u64>, e: &Entry, k: u64) -> Result<(), AllocError>
    ensures { OnOk result ((n : Name) → get name_eq firsts.new n ≡ first_with (get name_eq firsts.old n) e.now k n) }
{
    if !e.alias && !firsts.contains_key(&e.name) {
        let _ = firsts.insert(e.name, k)?;
    }
    Ok(())
}

/// The number of the first record of each member, by its name.
pub(crate) fn first_records(
    alloc: Global,
    library: &Library,
) -> Result<HashMap<Name, u64>, AllocError>
    requires { records_in library.now (entries_of library.now) ≤ most_bytes }
    ensures { IfOk result (λ m. (n : Name) → get name_eq m n ≡ first_from 1 library.now (entries_of library.now) n) }
{
    let mut firsts = HashMap::new(alloc);
    let mut next = 1;
    for e in library.entries() {
        note_first(&mut firsts, e, next)?;
        next += added(library, e);
    }
    Ok(firsts)
}

#[tactic(auto, unfolding(crate::specs::Spelling::record_bytes))]
fn put_record(out: &mut Vec<u8>, version: Version, text: &[u8]) -> Result<(), AllocError>
    ensures { OnOk result (out.new.items ≡ out.old.items ++ record_bytes version text.now) }
{
    match version {
        Version::One => put2(out, text.len() as u64)?,
        Version::Two => put4(out, text.len() as u64)?,
    }
    out.extend_from_slice(text)
}

/// The record behind so many.
pub(crate) fn record_behind<'a>(records: &'a Records<'_>, k: u32) -> &'a [u8]
    requires there { k < length records.now }
    requires small { k < 2 ^ 24 }
    ensures { result.now ≡ slice_index_or records.now k [] }
{
    match records.get(k + 1) {
        None => &[],
        Some(text) => text,
    }
}

fn put_records(out: &mut Vec<u8>, version: Version, records: &Records<'_>) -> Result<(), AllocError>
    ensures { OnOk result (out.new.items ≡ out.old.items ++ flat_map (record_bytes version) records.now) }
{
    for k in 0..records.count() {
        put_record(out, version, record_behind(records, k))?;
    }
    Ok(())
}

#[tactic(auto, unfolding(crate::specs::Image::body_bytes))]
fn put_body(out: &mut Vec<u8>, library: &Library, e: &Entry) -> Result<(), AllocError>
    ensures { OnOk result (out.new.items ≡ out.old.items ++ body_bytes library.now e.now) }
{
    if e.alias {
        return Ok(());
    }
    put_records(out, library.version(), &library.records(e))?;
    put_record(out, library.version(), &[])
}

/// Puts the records of all members at the end.
pub(crate) fn put_bodies(out: &mut Vec<u8>, library: &Library) -> Result<(), AllocError>
    ensures { OnOk result (out.new.items ≡ out.old.items ++ flat_map (body_bytes library.now) (entries_of library.now)) }
{
    for e in library.entries() {
        put_body(out, library, e)?;
    }
    Ok(())
}
