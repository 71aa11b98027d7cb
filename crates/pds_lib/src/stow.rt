//! A member goes into a library.
ghost use Rattle.std.specs.Prelude.{◌≡◌, ◌≤◌, ◌<◌, ◌+◌, ◌^◌, ℕ, List, length, map, filter, insert, IfOk, IsTrue};
ghost use Rattle.std.specs.List.{list_any, list_all, AllByRecursion};
ghost use Rattle.pds_lib.specs.Contents.{entry_count, record_count};
ghost use Rattle.le_bytes.specs.Names.{name_eq};
ghost use Rattle.pds_directory.specs.Order.{ascends, place_of};
ghost use Rattle.pds_lib.specs.Stow.{is_named, goes, stays, entry_with, main_entry, alias_entry, entries_for, HasWidths, has_name, put_all};
ghost use Rattle.pds_lib.specs.Stored.{row_name, stored, held, is_few};
ghost use Rattle.pds_lib.specs.Rows.{row_for, PutsRow, PutsRows, StowsInto};
ghost use Rattle.pds_lib.specs.declared.table.Row.{Row};
ghost use Rattle.pds_lib.specs.declared.member.AliasAt.{AliasAt};
ghost use Rattle.pds_lib.specs.declared.member.StowFault.TheVariants.{Exists};

use crate::library::{Library, read_places};
use crate::member::{AliasAt, Member, StowFault};
use crate::table::{Row, Store, Table, find_row, place_of};
use le_bytes::{Bytes, Items, Name};
use pds_directory::{Entry, MOST_RECORDS, Span};
use std::alloc::{AllocError, Global};

fn is_among(aliases: &[AliasAt], n: &Name) -> bool
    ensures { result ≡ list_any (λ (a : AliasAt). name_eq n.now a.name) aliases.now }
{
    aliases.iter().any(|a| *n == a.name)
}

fn is_named(m: &Member, n: &Name) -> bool
    ensures { result ≡ is_named m.now n.now }
{
    *n == m.name || is_among(m.aliases.as_slice(), n)
}

fn goes(m: &Member, e: &Entry) -> bool
    ensures { result ≡ goes m.now e.now }
{
    e.main == m.name || (e.alias && is_named(m, &e.name))
}

/// The rows that stay when the member comes.
fn rows_kept(alloc: Global, rows: &[Row], m: &Member, replace: bool) -> Result<Vec<Row>, AllocError>
    ensures kept { IfOk result (λ v. v.items ≡ filter (λ (r : Row). stays m.now replace r.entry) rows.now) }
    ensures few { IfOk result (λ v. length v.items ≤ length rows.now) }
{
    let mut kept = Vec::new(alloc);
    for r in rows {
        if !(replace && goes(m, &r.entry)) {
            kept.push(*r)?;
        }
    }
    Ok(kept)
}

/// The same name, whose letters are eight.
fn same_name(n: &Name) -> Name
    ensures name { result ≡ n.now }
    ensures eight { length n.now.0 ≡ 8 }
{
    Name(n.0)
}

/// An entry of a member: its own, or an alias.
fn entry_with(m: &Member, name: &Name, alias: bool, entry: u32, entry_section: u16) -> Entry
    ensures entry { result ≡ entry_with m.now name.now alias entry entry_section }
    ensures widths { HasWidths (entry_with m.now name.now alias entry entry_section) }
{
    Entry {
        name: same_name(name),
        main: same_name(&m.name),
        alias,
        attr: m.attr,
        length: m.length,
        entry,
        entry_section,
    }
}

fn main_entry(m: &Member) -> Entry
    ensures entry { result ≡ main_entry m.now }
    ensures widths { HasWidths (main_entry m.now) }
{
    entry_with(m, &m.name, false, m.entry, m.entry_section)
}

fn alias_entry(m: &Member, a: &AliasAt) -> Entry
    ensures entry { result ≡ alias_entry m.now a.now }
    ensures widths { HasWidths (alias_entry m.now a.now) }
{
    entry_with(m, &a.name, true, a.entry, a.entry_section)
}

fn entries_for(alloc: Global, m: &Member) -> Result<Vec<Entry>, AllocError>
    ensures entries { IfOk result (λ v. v.items ≡ entries_for m.now) }
    ensures widths { IfOk result (λ _. AllByRecursion HasWidths (entries_for m.now)) }
{
    let mut entries = Vec::new(alloc);
    entries.push(main_entry(m))?;
    for a in m.aliases.as_slice() {
        entries.push(alias_entry(m, a))?;
    }
    Ok(entries)
}

fn has_row(rows: &[Row], n: &Name) -> bool
    requires { IsTrue (ascends row_name rows.now) }
    ensures { result ≡ has_name row_name rows.now n.now }
{
    match find_row(rows, n) {
        None => false,
        Some(_) => true,
    }
}

/// Puts one row in at the place of its name.
fn put_row(rows: &mut Vec<Row>, row: Row) -> Result<(), StowFault>
    requires { IsTrue (ascends row_name rows.old.items) }
    ensures gives { PutsRow result rows.old.items rows.new.items row }
    ensures ascending { IsTrue (ascends row_name rows.new.items) }
{
    let name = row.entry.name;
    if has_row(rows.as_slice(), &name) {
        return Err(StowFault::Exists(name));
    }
    let place = place_of(rows.as_slice(), &name);
    rows.insert(place, row)?;
    Ok(())
}

/// Puts a row in for each entry, all with the same records.
fn put_rows(rows: &mut Vec<Row>, entries: &[Entry], store: Store) -> Result<(), StowFault>
    requires { IsTrue (ascends row_name rows.old.items) }
    ensures gives { PutsRows result rows.new.items (put_all row_name (row_for store) rows.old.items entries.now) }
    ensures ascending { IsTrue (ascends row_name rows.new.items) }
{
    for e in entries {
        let row = Row {
            entry: *e,
            user_data: Span { at: 0, len: 0 },
            store,
        };
        match put_row(rows, row) {
            Ok(()) => {}
            Err(fault) => return Err(fault),
        }
    }
    Ok(())
}

/// How many records are kept so.
fn stored_count(places: &[Span], given: &[Items<Bytes>], store: Store) -> usize
    requires places { length places.now < 2 ^ 24 }
    requires given { IsTrue (list_all is_few given.now) }
    ensures count { (image : List ℕ) → result ≡ length (stored image places.now given.now store) }
    ensures few { result < 2 ^ 24 }
{
    match store {
        Store::Read { first, count } => read_places(places, first, count).len(),
        Store::Given(i) => match given.get(i) {
            None => 0,
            Some(records) => records.len(),
        },
    }
}

/// How many records an entry adds to a library: of a main entry its own and the one that ends them.
fn entry_count(places: &[Span], given: &[Items<Bytes>], r: &Row) -> u64
    requires places { length places.now < 2 ^ 24 }
    requires given { IsTrue (list_all is_few given.now) }
    ensures count { (image : List ℕ) → result ≡ entry_count (held image places.now given.now r.now) }
    ensures few { result ≤ 2 ^ 24 }
{
    if r.entry.alias {
        0
    } else {
        stored_count(places, given, r.store) as u64 + 1
    }
}

/// How many records the entries add to a library.
fn count_rows(places: &[Span], given: &[Items<Bytes>], rows: &[Row]) -> u64
    requires places { length places.now < 2 ^ 24 }
    requires given { IsTrue (list_all is_few given.now) }
    requires rows { length rows.now < 2 ^ 32 }
    ensures count { (image : List ℕ) → result ≡ record_count (map (held image places.now given.now) rows.now) }
    ensures few { result ≤ 2 ^ 56 }
{
    let mut total = 0;
    for r in rows {
        total += entry_count(places, given, r);
    }
    total
}

/// The rows of a library with a member more, whose records are to be given next.
fn stow_rows(
    alloc: Global,
    places: &[Span],
    given: &[Items<Bytes>],
    rows: &[Row],
    m: &Member,
    replace: bool,
) -> Result<Vec<Row>, StowFault>
    requires places { length places.now < 2 ^ 24 }
    requires given { IsTrue (list_all is_few given.now) }
    requires ascending { IsTrue (ascends row_name rows.now) }
    requires rows { length rows.now < 2 ^ 32 }
    ensures gives { StowsInto places.now given.now rows.now m.now replace result }
    ensures ascending { IfOk result (λ v. IsTrue (ascends row_name v.items)) }
    ensures widths { IfOk result (λ _. AllByRecursion HasWidths (entries_for m.now)) }
{
    let added = m.records.len();
    if added >= 0x1_0000_0000 {
        return Err(StowFault::Memory);
    }
    let entries = entries_for(alloc, m)?;
    let mut left = rows_kept(alloc, rows, m, replace)?;
    let before = count_rows(places, given, left.as_slice());
    let total = before + added as u64 + 1;
    let next = given.len();
    match put_rows(&mut left, entries.as_slice(), Store::Given(next)) {
        Ok(()) => {}
        Err(fault) => return Err(fault),
    }
    if total > MOST_RECORDS as u64 {
        return Err(StowFault::TooManyRecords(total));
    }
    Ok(left)
}

impl Library {
    ghost use Rattle.pds_lib.specs.Stow.{MayStow, Stows};

    /// Puts a member with its aliases into a library of load modules, at the place of its names. With
    /// `replace`, its main entry goes first with all aliases of that, and so does an alias entry that
    /// has its name or one of its alias names; without, nothing goes. After each fault the library is as
    /// it was, and the member is dropped. The cost is linear in the entries of the library, and n log n
    /// in the names of the member.
    ///
    /// # Errors
    /// Exists: this name, the first of its name and its alias names, is then still an entry, or stands
    /// twice among them. TooManyRecords: records and end records would be so many, above 16,777,215.
    /// Want of memory.
    pub fn stow(&mut self, alloc: Global, m: Member, replace: bool) -> Result<(), StowFault>
        requires { MayStow self.old m }
        ensures stows { Stows self.old m replace result self.new }
        ensures kind { self.new.kind ≡ self.old.kind }
        ensures version { self.new.version ≡ self.old.version }
    {
        let rows = match stow_rows(
            alloc,
            self.places.as_slice(),
            self.given.as_slice(),
            self.table.rows(),
            &m,
            replace,
        ) {
            Ok(rows) => rows,
            Err(fault) => return Err(fault),
        };
        let table = Table::from_rows(alloc, rows)?;
        self.given.push(m.records)?;
        self.table = table;
        Ok(())
    }
}
