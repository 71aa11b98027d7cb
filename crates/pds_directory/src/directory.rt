//! The directory of an image, by itself.
ghost use Rattle.std.specs.Prelude.{◌≡◌, ◌≤◌, ◌<◌, ◌+◌, ◌-◌, ◌*◌, ◌==◌, ◌||◌, ℕ, [], false, nat_lt, slice_get, length, IfOk, OnOk, IsTrue};
ghost use Rattle.std.specs.HashMap.{get};
ghost use Rattle.std.specs.Option.{option_map_or};
ghost use Rattle.std.specs.List.{list_any, prefix_len};
ghost use Rattle.pds_directory.specs.Places.{rises};
ghost use Rattle.std.specs.Prelude.{nat_eq};
ghost use Rattle.pds_directory.specs.Answers.{Gives};
ghost use Rattle.pds_directory.specs.Order.{ascends};
ghost use Rattle.pds_directory.specs.Header.{directory_end, most_records};
ghost use Rattle.pds_directory.specs.Directory.{block_from, blocks_from, block_at, listing_of, owner_of, owner_with, listed_name, names_owner, may_begin, keeps_rules, rules_of};

use crate::entries::read_entries;
use crate::entry::Listed;
use crate::header::{BLOCK, HEADER, Head, read_head};
use crate::kinds::LibKind;
use crate::parts::number16;
use crate::stop::LibStop;
use le_bytes::LibFault;
use std::alloc::{AllocError, Global};
use std::collections::HashMap;
use std::marker::Model;

/// The directory of an image: what the header says, and the entries in their order.
#[derive(Drop)]
pub struct Directory {
    head: Head,
    entries: Vec<Listed>,
    owners: HashMap<u32, usize>,
}

impl Model for Directory {
    ghost use Rattle.std.specs.Prelude.{nat_eq, IsTrue};
    ghost use Rattle.std.specs.HashMap.{get};
    ghost use Rattle.pds_directory.specs.Order.{ascends};
    ghost use Rattle.pds_directory.specs.Directory.{Listing, AreOwners, listed_name};

    ghost Value = { Listing };

    ghost view = { λ d. record { head = d.head; entries = d.entries.items } };

    ghost invariant = { λ d. AreOwners (get nat_eq d.owners) d.entries.items × IsTrue (ascends listed_name d.entries.items) };
}

/// Puts the entries of block `b`, counted from 1, at the end of `entries`. The answer is whether the
/// last entry came.
#[tactic(auto, unfolding(crate::specs::Directory::block_from))]
fn read_block(h: &Head, image: &[u8], b: u32, entries: &mut Vec<Listed>) -> Result<bool, LibStop>
    requires counted { 1 ≤ b }
    requires within { block_at b + 256 ≤ length image.now }
    requires ascending { IsTrue (ascends listed_name entries.old.items) }
    ensures gives { Gives (λ last. (entries.new.items, last)) result (block_from h.now image.now b entries.old.items) }
    ensures ascending { IsTrue (ascends listed_name entries.new.items) }
{
    let at = BLOCK * b as usize - 236;
    let used = number16(image, at) as usize;
    if used < 2 || used > BLOCK {
        return Err(LibStop::Bad(LibFault::BadDirectory(b)));
    }
    read_entries(22, h, b, at + used, &image[at + 2..at + used], entries)
}

fn read_blocks(alloc: Global, h: &Head, image: &[u8]) -> Result<Vec<Listed>, LibStop>
    requires { directory_end h.now.blocks ≤ length image.now }
    ensures gives { Gives (λ v. v.items) result (blocks_from h.now.blocks h.now image.now 1 []) }
    ensures ascending { IfOk result (λ v. IsTrue (ascends listed_name v.items)) }
{
    let mut entries = Vec::new(alloc);
    for done in 0..h.blocks {
        match read_block(h, image, done + 1, &mut entries) {
            Ok(last) => {
                if last {
                    return Ok(entries);
                }
            }
            Err(stop) => return Err(stop),
        }
    }
    Err(LibStop::Bad(LibFault::BadDirectory(h.blocks)))
}

#[tactic(auto, unfolding(crate::specs::Directory::owner_with))]
fn note_owner(owners: &mut HashMap<u32, usize>, i: usize, x: Listed) -> Result<(), AllocError>
    ensures { OnOk result ((t : ℕ) → get nat_eq owners.new t ≡ owner_with (get nat_eq owners.old t) i x t) }
{
    if !x.entry.alias && !owners.contains_key(&x.first) {
        let _ = owners.insert(x.first, i)?;
    }
    Ok(())
}

/// For each record number the first main entry of a member that begins there.
fn owners_of(alloc: Global, entries: &[Listed]) -> Result<HashMap<u32, usize>, AllocError>
    ensures { IfOk result (λ m. (t : ℕ) → get nat_eq m t ≡ owner_of entries.now t) }
{
    let mut owners = HashMap::new(alloc);
    for (i, x) in entries.iter().enumerate() {
        note_owner(&mut owners, i, *x)?;
    }
    Ok(owners)
}

/// The directory at the front of an image. `head` is the header with the directory blocks, more of the
/// image, or the whole of an image that is too short for these.
///
/// # Errors
/// The first fault up to the last entry: BadHeader, BadDirectory or BadEntry. Want of memory.
#[tactic(auto, unfolding(crate::specs::Directory::listing_of))]
pub fn read_directory(alloc: Global, head: &[u8]) -> Result<Directory, LibStop>
    ensures gives { Gives (λ d. d) result (listing_of head.now) }
    ensures there { IfOk result (λ d. directory_end d.head.blocks ≤ length head.now) }
    ensures few { IfOk result (λ d. d.head.records ≤ most_records) }
{
    let Some(h) = read_head(head) else {
        return Err(LibStop::Bad(LibFault::BadHeader));
    };
    let entries = read_blocks(alloc, &h, head)?;
    let owners = owners_of(alloc, entries.as_slice())?;
    Ok(Directory {
        head: h,
        entries,
        owners,
    })
}

fn number_place(numbers: &[u32], k: u32) -> usize
    requires { IsTrue (rises numbers.now) }
    ensures value { result ≡ prefix_len (λ e. nat_lt e k) numbers.now }
    ensures within { result ≤ length numbers.now }
{
    let mut low = 0;
    let mut high = numbers.len();
    while low < high {
        let middle = low + (high - low) / 2;
        if numbers[middle] < k {
            low = middle + 1;
        } else {
            high = middle;
        }
    }
    low
}

fn number_stands(numbers: &[u32], place: usize, k: u32) -> bool
    ensures { result ≡ option_map_or (λ e. e == k) (slice_get numbers.now place) false }
{
    match numbers.get(place) {
        None => false,
        Some(e) => *e == k,
    }
}

fn has_number(numbers: &[u32], k: u32) -> bool
    requires { IsTrue (rises numbers.now) }
    ensures { result ≡ list_any (λ e. e == k) numbers.now }
{
    number_stands(numbers, number_place(numbers, k), k)
}

fn may_begin(ends: &[u32], first: u32) -> bool
    requires { IsTrue (rises ends.now) }
    ensures { result ≡ may_begin ends.now first }
{
    first == 1 || has_number(ends, first.saturating_sub(1))
}

fn names_owner(kind: LibKind, entries: &[Listed], x: &Listed, j: usize) -> bool
    ensures { result ≡ names_owner kind entries.now x.now j }
{
    match kind {
        LibKind::Cards => true,
        LibKind::Modules => match entries.get(j) {
            Some(y) => y.entry.name == x.entry.main,
            None => false,
        },
    }
}

impl Directory {
    ghost use Rattle.std.specs.Prelude.{◌≡◌, IsTrue};
    ghost use Rattle.pds_directory.specs.Directory.{Listing, owner_of, keeps_rules, rules_of, listed_name};
    ghost use Rattle.pds_directory.specs.Order.{ascends};
    ghost use Rattle.pds_directory.specs.Places.{rises};

    /// What the header says.
    pub fn head(&self) -> Head
        ensures { result ≡ self.now.head }
    {
        self.head
    }

    /// The entries, ascending by name.
    pub fn entries(&self) -> &[Listed]
        ensures entries { result.now ≡ self.now.entries }
        ensures ascending { IsTrue (ascends listed_name self.now.entries) }
    {
        self.entries.as_slice()
    }

    /// The place among the entries, from 0, of the main entry of the member that begins at a record.
    /// Of several the first counts.
    pub fn owner(&self, first: u32) -> Option<usize>
        ensures { result ≡ owner_of self.now.entries first }
    {
        let owners = &self.owners;
        owners.get(&first).copied()
    }

    #[tactic(auto, unfolding(crate::specs::Directory::keeps_rules))]
    fn keeps_rules(&self, ends: &[u32], i: usize, x: &Listed) -> bool
        requires { IsTrue (rises ends.now) }
        ensures { result ≡ keeps_rules self.now ends.now i x.now }
    {
        match self.owner(x.first) {
            None => false,
            Some(j) => {
                if x.entry.alias {
                    names_owner(self.head.kind, self.entries.as_slice(), x, j)
                } else {
                    may_begin(ends, x.first) && j == i
                }
            }
        }
    }

    /// The rules that entries keep together with the records. `ends` are the numbers of the records of
    /// length zero, ascending. Takes no memory.
    ///
    /// # Errors
    /// BadEntry of the first entry that breaks one: a main entry that begins neither at record 1 nor
    /// behind an end, a second main entry of one record, an alias of no main entry, or with another main
    /// name than that of its main entry.
    pub fn check(&self, ends: &[u32]) -> Result<(), LibFault>
        requires { IsTrue (rises ends.now) }
        ensures { result ≡ rules_of self.now ends.now }
    {
        let entries = self.entries();
        for (i, x) in entries.iter().enumerate() {
            if !self.keeps_rules(ends, i, x) {
                return Err(LibFault::BadEntry(x.block, x.number));
            }
        }
        Ok(())
    }
}
