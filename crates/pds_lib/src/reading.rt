//! The library that an image holds.
ghost use Rattle.std.specs.Prelude.{◌≡◌, ◌-◌, ◌<◌, ◌^◌, [], length, map, drop, slice_get, option_and_then, IfOk, IsTrue};
ghost use Rattle.pds_directory.specs.Directory.{owner_of};
ghost use Rattle.pds_directory.specs.Answers.{Gives};
ghost use Rattle.pds_directory.specs.Places.{run_length};
ghost use Rattle.pds_lib.specs.Grammar.{main_of, library_of};
ghost use Rattle.pds_lib.specs.Rows.{main_count, row_of};
ghost use Rattle.std.specs.List.{list_all};
ghost use Rattle.pds_directory.specs.Order.{ascends};
ghost use Rattle.pds_lib.specs.Stored.{row_name, contents, row_is_there};
ghost use Rattle.pds_lib.specs.Sound.{IsSound};

use crate::library::Library;
use crate::table::{Row, Store, Table};
use le_bytes::Name;
use pds_directory::{
    Directory, Head, LibStop, Listed, Span, ends_of, read_directory, read_records, run_length,
};
use std::alloc::{AllocError, Global};

/// The records from number `first` on.
fn places_behind(places: &[Span], first: u32) -> &[Span]
    ensures { result.now ≡ drop (first - 1) places.now }
{
    let from = (first.saturating_sub(1) as usize).min(places.len());
    &places[from..]
}

/// How many records the member of a main entry has; 0 for an alias.
fn main_count(places: &[Span], x: &Listed) -> usize
    ensures { result ≡ main_count places.now x.now }
{
    if x.entry.alias {
        0
    } else {
        run_length(places_behind(places, x.first))
    }
}

fn main_counts(alloc: Global, places: &[Span], entries: &[Listed]) -> Result<Vec<usize>, AllocError>
    ensures { IfOk result (λ v. v.items ≡ map (main_count places.now) entries.now) }
{
    entries.iter().map(|x| main_count(places, x)).collect(alloc)
}

fn count_at(counts: &[usize], j: usize) -> Option<usize>
    ensures { result ≡ slice_get counts.now j }
{
    match counts.get(j) {
        None => None,
        Some(n) => Some(*n),
    }
}

fn owner_count(d: &Directory, counts: &[usize], x: &Listed) -> Option<usize>
    ensures { result ≡ option_and_then (slice_get counts.now) (owner_of d.now.entries x.now.first) }
{
    match d.owner(x.first) {
        None => None,
        Some(j) => count_at(counts, j),
    }
}

/// How many records the member of an entry has. That of an alias is known from its main entry, so that
/// each member is walked through once.
fn count_for(d: &Directory, counts: &[usize], places: &[Span], x: &Listed) -> usize
    requires { counts.now ≡ map (main_count places.now) d.now.entries }
    ensures { result ≡ run_length (drop (x.now.first - 1) places.now) }
{
    match owner_count(d, counts, x) {
        Some(n) => n,
        None => run_length(places_behind(places, x.first)),
    }
}

fn main_of(d: &Directory, x: &Listed) -> Name
    ensures { result ≡ main_of d.now.entries x.now }
{
    if !x.entry.alias {
        return x.entry.main;
    }
    match d.owner(x.first) {
        None => x.entry.main,
        Some(j) => match d.entries().get(j) {
            None => x.entry.main,
            Some(y) => y.entry.name,
        },
    }
}

fn row_of(d: &Directory, counts: &[usize], places: &[Span], x: &Listed) -> Row
    requires { counts.now ≡ map (main_count places.now) d.now.entries }
    ensures { result ≡ row_of places.now d.now.entries x.now }
{
    let mut entry = x.entry;
    entry.main = main_of(d, x);
    Row {
        entry,
        user_data: x.user_data,
        store: Store::Read {
            first: x.first.saturating_sub(1) as usize,
            count: count_for(d, counts, places, x),
        },
    }
}

fn rows_of(alloc: Global, d: &Directory, places: &[Span]) -> Result<Vec<Row>, AllocError>
    ensures rows { IfOk result (λ v. v.items ≡ map (row_of places.now d.now.entries) d.now.entries) }
    ensures ascending { IfOk result (λ v. IsTrue (ascends row_name v.items)) }
{
    let entries = d.entries();
    let counts = main_counts(alloc, places, entries)?;
    let mut rows = Vec::new(alloc);
    for x in entries {
        rows.push(row_of(d, counts.as_slice(), places, x))?;
    }
    Ok(rows)
}

/// What an image holds: its header, where its records lie, and the rows of its entries.
#[tactic(auto, unfolding(crate::specs::Grammar::library_of))]
fn parts_of(alloc: Global, image: &[u8]) -> Result<(Head, Vec<Span>, Table), LibStop>
    ensures gives { Gives (λ x. contents x.0.version x.0.kind image.now x.1.items [] x.2) result (library_of image.now) }
    ensures sound { IfOk result (λ x. IsSound (contents x.0.version x.0.kind image.now x.1.items [] x.2)) }
    ensures few { IfOk result (λ x. length x.1.items < 2 ^ 24) }
    ensures there { IfOk result (λ x. IsTrue (list_all (row_is_there 0) x.2)) }
{
    let d = read_directory(alloc, image)?;
    let h = d.head();
    let places = read_records(alloc, &h, image)?;
    let ends = ends_of(alloc, places.as_slice())?;
    match d.check(ends.as_slice()) {
        Ok(()) => {}
        Err(fault) => return Err(LibStop::Bad(fault)),
    }
    let rows = rows_of(alloc, &d, places.as_slice())?;
    let table = Table::from_rows(alloc, rows)?;
    Ok((h, places, table))
}

impl Library {
    ghost use Rattle.pds_directory.specs.Answers.{Gives};
    ghost use Rattle.pds_lib.specs.Grammar.{library_of};

    /// The library that an image holds. The image is kept, and records are parts of it.
    ///
    /// # Errors
    /// The first fault of the image: BadHeader; then BadDirectory or BadEntry up to the last entry; then
    /// BadRecord; then BadEntry of the first entry that breaks a rule. Want of memory.
    pub fn read(alloc: Global, image: Vec<u8>) -> Result<Library, LibStop>
        ensures { Gives (λ l. l) result (library_of image.items) }
    {
        let (h, places, table) = parts_of(alloc, image.as_slice())?;
        Ok(Library {
            version: h.version,
            kind: h.kind,
            image,
            places,
            given: Vec::new(alloc),
            table,
        })
    }
}
