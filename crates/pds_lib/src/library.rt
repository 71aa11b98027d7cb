//! A library: its members by name, with their records.
ghost use Rattle.std.specs.Prelude.{◌≡◌, ◌<◌, ◌^◌, [], length, take, drop, slice_get, IsTrue};
ghost use Rattle.std.specs.Option.{option_copied, option_map_or};
ghost use Rattle.std.specs.List.{list_all};
ghost use Rattle.pds_directory.specs.Parts.{part};
ghost use Rattle.pds_lib.specs.Stored.{stored, is_few};
ghost use Rattle.pds_lib.specs.Forms.{AreShort};
ghost use Rattle.pds_lib.specs.declared.table.Row.{Row};

use crate::records::{Form, Records};
use crate::table::{Row, Store, Table, find_row, store_of};
use le_bytes::{Bytes, Items, Name};
use pds_directory::{Entry, LibKind, Span, Version, part};
use std::alloc::Global;
use std::marker::Model;

/// The members of a library in the order of their names. Records that were read are parts of the image
/// that was read, and are not copied.
#[derive(Drop)]
pub struct Library {
    pub(crate) version: Version,
    pub(crate) kind: LibKind,
    pub(crate) image: Vec<u8>,
    pub(crate) places: Vec<Span>,
    pub(crate) given: Vec<Items<Bytes>>,
    pub(crate) table: Table,
}

impl Model for Library {
    ghost use Rattle.pds_lib.specs.Contents.{Contents};
    ghost use Rattle.pds_lib.specs.Stored.{contents};
    ghost use Rattle.pds_lib.specs.Kept.{IsKept};

    ghost Value = { Contents };

    ghost view = { λ l. contents l.version l.kind l.image.items l.places.items l.given.items l.table };

    ghost invariant = { λ l. IsKept l.version l.kind l.image.items l.places.items l.given.items l.table };
}

fn entry_at(entries: &[Entry], k: usize) -> Option<&Entry>
    ensures { option_copied result ≡ slice_get entries.now k }
{
    entries.get(k)
}

fn data_at<'a>(image: &'a [u8], rows: &[Row], k: usize) -> &'a [u8]
    ensures { result.now ≡ option_map_or (λ (r : Row). part image.now r.user_data) (slice_get rows.now k) [] }
{
    match rows.get(k) {
        None => &[],
        Some(r) => part(image, r.user_data),
    }
}

/// So many places behind so many others, as far as there are.
pub(crate) fn read_places(places: &[Span], first: usize, count: usize) -> &[Span]
    ensures { result.now ≡ take count (drop first places.now) }
{
    let from = first.min(places.len());
    let most = count.min(places.len() - from);
    &places[from..from + most]
}

/// The records that are kept so.
#[tactic(auto, using(crate::proofs::Short::none_short))]
fn lend<'a>(
    image: &'a [u8],
    places: &'a [Span],
    given: &'a [Items<Bytes>],
    store: Store,
) -> Records<'a>
    requires places { length places.now < 2 ^ 24 }
    requires given { IsTrue (list_all is_few given.now) }
    requires short { AreShort (stored image.now places.now given.now store) }
    ensures { result ≡ stored image.now places.now given.now store }
{
    match store {
        Store::Read { first, count } => {
            Records::new(Form::Read(image, read_places(places, first, count)))
        }
        Store::Given(i) => match given.get(i) {
            None => Records::new(Form::Given(&[])),
            Some(records) => Records::new(Form::Given(records.as_slice())),
        },
    }
}

impl Library {
    ghost use Rattle.std.specs.Prelude.{◌≡◌, [], IsTrue};
    ghost use Rattle.std.specs.Option.{option_copied};
    ghost use Rattle.pds_lib.specs.Contents.{Contents, entries_of, find_entry, records_of, user_data_of};
    ghost use Rattle.pds_lib.specs.Sound.{IsSound};

    /// A library of no members. Keeps the allocator and takes no memory.
    pub fn empty(alloc: Global, kind: LibKind, version: Version) -> Library
        ensures { result ≡ record { version = version; kind = kind; members = [] } }
    {
        Library {
            version,
            kind,
            image: Vec::new(alloc),
            places: Vec::new(alloc),
            given: Vec::new(alloc),
            table: Table::new(alloc),
        }
    }

    /// What holds of every library, for the proofs of callers. Does nothing.
    pub fn is_sound(&self)
        ensures { IsSound self.now }
    {
        let _ = &self.table;
    }

    /// What its records are.
    pub fn kind(&self) -> LibKind
        ensures { result ≡ self.now.kind }
    {
        self.kind
    }

    /// How the lengths of records stand in its image.
    pub fn version(&self) -> Version
        ensures { result ≡ self.now.version }
    {
        self.version
    }

    /// The entries, ascending by name.
    pub fn entries(&self) -> &[Entry]
        ensures { result.now ≡ entries_of self.now }
    {
        self.table.entries()
    }

    /// The entry with a name, main or alias; None exactly where there is none. The cost is the logarithm
    /// of the number of entries.
    pub fn find(&self, n: &Name) -> Option<&Entry>
        ensures { option_copied result ≡ find_entry self.now n.now }
    {
        match find_row(self.table.rows(), n) {
            None => None,
            Some(k) => entry_at(self.table.entries(), k),
        }
    }

    /// The records of the member of an entry, as it stands in this library; none for an entry of another
    /// name. The cost is the logarithm of the number of entries.
    #[tactic(auto, using(crate::proofs::Short::none_short))]
    pub fn records(&self, e: &Entry) -> Records<'_>
        ensures { result ≡ records_of self.now e.now }
    {
        match store_of(self.table.rows(), &e.name) {
            None => Records::new(Form::Given(&[])),
            Some(store) => lend(
                self.image.as_slice(),
                self.places.as_slice(),
                self.given.as_slice(),
                store,
            ),
        }
    }

    /// The user data of an entry, as it stands in this library; none for an entry of another name, and
    /// none in a library of load modules. The cost is the logarithm of the number of entries.
    pub fn user_data(&self, e: &Entry) -> &[u8]
        ensures { result.now ≡ user_data_of self.now e.now }
    {
        match find_row(self.table.rows(), &e.name) {
            None => &[],
            Some(k) => data_at(self.image.as_slice(), self.table.rows(), k),
        }
    }
}
