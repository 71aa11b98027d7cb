//! The entries of a library by name, each with where its records are kept.
ghost use Rattle.std.specs.Prelude.{◌≡◌, ◌≤◌, ◌<◌, List, false, None, length, map, find, IsTrue, IfOk, IfNone, IfSome, slice_get, option_map};
ghost use Rattle.std.specs.Option.{option_map_or};
ghost use Rattle.le_bytes.specs.Names.{name_eq};
ghost use Rattle.pds_directory.specs.Order.{ascends, place_of};
ghost use Rattle.pds_lib.specs.Stored.{row_name, row_with};
ghost use Rattle.pds_lib.specs.declared.table.Row.{Row};

use le_bytes::Name;
use pds_directory::{Entry, Span, is_below};
use std::alloc::{AllocError, Global};
use std::marker::Model;

/// Where the records of an entry are kept.
#[derive(Clone, Copy, Debug, PartialEq, Eq)]
pub(crate) enum Store {
    /// So many records of the image that was read, behind so many others.
    Read { first: usize, count: usize },
    /// The member that was stowed at this place.
    Given(usize),
}

/// An entry with its user data, a part of the image that was read, and where its records are kept.
#[derive(Clone, Copy, Debug, PartialEq, Eq)]
pub(crate) struct Row {
    pub(crate) entry: Entry,
    pub(crate) user_data: Span,
    pub(crate) store: Store,
}

/// Rows in the order of their names.
#[derive(Debug, Drop)]
pub(crate) struct Table {
    rows: Vec<Row>,
    entries: Vec<Entry>,
}

impl Model for Table {
    ghost use Rattle.std.specs.Prelude.{List};
    ghost use Rattle.pds_lib.specs.declared.table.Row.{Row};
    ghost use Rattle.pds_lib.specs.Kept.{IsTable};

    ghost Value = { List Row };

    ghost view = { λ t. t.rows.items };

    ghost invariant = { λ t. IsTable t.rows.items t.entries.items };
}

/// How many of the rows have a name below `n`, by halving.
pub(crate) fn place_of(rows: &[Row], n: &Name) -> usize
    requires { IsTrue (ascends row_name rows.now) }
    ensures value { result ≡ place_of row_name rows.now n.now }
    ensures within { result ≤ length rows.now }
{
    let mut low = 0;
    let mut high = rows.len();
    while low < high {
        let middle = low + (high - low) / 2;
        if is_below(&rows[middle].entry.name, n) {
            low = middle + 1;
        } else {
            high = middle;
        }
    }
    low
}

fn is_named_at(rows: &[Row], k: usize, n: &Name) -> bool
    ensures { result ≡ option_map_or (λ (r : Row). name_eq r.entry.name n.now) (slice_get rows.now k) false }
{
    match rows.get(k) {
        None => false,
        Some(r) => r.entry.name == *n,
    }
}

/// Where the row with the name `n` stands.
pub(crate) fn find_row(rows: &[Row], n: &Name) -> Option<usize>
    requires { IsTrue (ascends row_name rows.now) }
    ensures none { IfNone result (row_with rows.now n.now ≡ None) }
    ensures found { IfSome result (λ k. (k < length rows.now) × (slice_get rows.now k ≡ row_with rows.now n.now)) }
{
    let k = place_of(rows, n);
    if is_named_at(rows, k, n) {
        Some(k)
    } else {
        None
    }
}

fn store_at(rows: &[Row], k: usize) -> Option<Store>
    ensures { result ≡ option_map (λ (r : Row). r.store) (slice_get rows.now k) }
{
    match rows.get(k) {
        None => None,
        Some(r) => Some(r.store),
    }
}

/// Where the records of the entry with the name `n` are kept.
pub(crate) fn store_of(rows: &[Row], n: &Name) -> Option<Store>
    requires { IsTrue (ascends row_name rows.now) }
    ensures { result ≡ option_map (λ (r : Row). r.store) (find (λ (r : Row). name_eq (row_name r) n.now) rows.now) }
{
    match find_row(rows, n) {
        None => None,
        Some(k) => store_at(rows, k),
    }
}

fn entries_of(alloc: Global, rows: &[Row]) -> Result<Vec<Entry>, AllocError>
    ensures { IfOk result (λ v. v.items ≡ map (λ (r : Row). r.entry) rows.now) }
{
    rows.iter().map(|r| r.entry).collect(alloc)
}

impl Table {
    ghost use Rattle.std.specs.Prelude.{◌≡◌, ◌<◌, ◌^◌, [], length, map, IsTrue, IfOk};
    ghost use Rattle.pds_directory.specs.Order.{ascends};
    ghost use Rattle.pds_lib.specs.declared.table.Row.{Row};
    ghost use Rattle.pds_lib.specs.Stored.{row_name};

    /// No rows. Takes no memory.
    pub(crate) fn new(alloc: Global) -> Table
        ensures { result ≡ [] }
    {
        Table {
            rows: Vec::new(alloc),
            entries: Vec::new(alloc),
        }
    }

    /// A table of rows that are in order. So many that 32 bits do not count them are refused as want of
    /// memory.
    pub(crate) fn from_rows(alloc: Global, rows: Vec<Row>) -> Result<Table, AllocError>
        requires { IsTrue (ascends row_name rows.items) }
        ensures { IfOk result (λ t. t ≡ rows.items) }
    {
        if rows.len() >= 0x1_0000_0000 {
            return Err(AllocError);
        }
        let entries = entries_of(alloc, rows.as_slice())?;
        Ok(Table { rows, entries })
    }

    pub(crate) fn rows(&self) -> &[Row]
        ensures rows { result.now ≡ self.now }
        ensures ascending { IsTrue (ascends row_name self.now) }
        ensures few { length self.now < 2 ^ 32 }
    {
        self.rows.as_slice()
    }

    pub(crate) fn entries(&self) -> &[Entry]
        ensures { result.now ≡ map (λ (r : Row). r.entry) self.now }
    {
        self.entries.as_slice()
    }
}
