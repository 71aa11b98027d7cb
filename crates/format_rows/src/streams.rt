//! Records are read through the trait, from both sources.
ghost use Rattle.std.specs.Prelude.{◌≡◌, ℕ, ◌-◌, [], ◌∷◌, ◌++◌, take, true, IfOk, IfErr, OnOk};
ghost use Rattle.le_io.specs.Counts.{WhereTold, NoneFalls, NoFault, Rose};
ghost use Rattle.lib_stream.specs.Sources.{SameRecords, SameHeld, IsRecordNumber};

use crate::samples::{self, RECORDS};
use le_bytes::{Bytes, Items};
use le_io::{MemStore, Store};
use lib_stream::{FailingRecords, RecordSource};
use pds_lib::Library;
use std::alloc::Global;
use std::test::Fail;

/// Why not all records were read.
#[derive(Clone, Copy, Debug, PartialEq, Eq)]
enum Stop {
    Failed,
    Memory,
}

fn add_copy(alloc: Global, records: &mut Items<Bytes>, bytes: &[u8]) -> Result<(), Stop>
    ensures added { OnOk result (records.new ≡ records.old ++ bytes.now ∷ []) }
    ensures memory { IfErr result (λ why. why ≡ Stop.Memory) }
{
    match Bytes::from_slice(alloc, bytes) {
        Ok(copy) => records.push(copy).map_err(|_| Stop::Memory),
        Err(_) => Err(Stop::Memory),
    }
}

/// Puts record `n` at the end of the records before it.
fn add_record<S: Store, R: RecordSource<S>>(
    alloc: Global,
    s: &mut S,
    r: &mut R,
    n: u32,
    records: &mut Items<Bytes>,
) -> Result<(), Stop>
    requires number { IsRecordNumber (R.total r.old) n }
    ensures told { OnOk result (WhereTold (R.list r.old s.old) (λ told. records.old ≡ take (n - 1) told → records.new ≡ take n told)) }
    ensures stays { SameRecords (R.list r.old s.old) (R.list r.new s.new) (R.total r.old) (R.total r.new) (R.lengths r.old) (R.lengths r.new) }
    ensures holds { SameHeld (R.keeps r.old) (R.keeps r.new) (R.held r.old) (R.held r.new) }
    ensures held { R.held r.old n ≡ true → IfErr result (λ why. why ≡ Stop.Memory) }
    ensures store { S.told s.new ≡ S.told s.old }
    ensures counts { NoneFalls (S.counts s.old) (S.counts s.new) }
    ensures faultless { OnOk result ((R.faults r.new s.new ≡ R.faults r.old s.old) × NoFault (S.counts s.old) (S.counts s.new)) }
    ensures cause { IfErr result (λ why. why ≡ Stop.Failed → Rose (R.faults r.old s.old) (R.faults r.new s.new)) }
{
    match r.record(s, n) {
        Ok(bytes) => add_copy(alloc, records, bytes),
        Err(_) => Err(Stop::Failed),
    }
}

/// All records of a source, one after the other.
fn read_each<S: Store, R: RecordSource<S>>(
    alloc: Global,
    s: &mut S,
    r: &mut R,
) -> Result<Items<Bytes>, Stop>
    ensures told { IfOk result (λ records. WhereTold (R.list r.old s.old) (λ told. records ≡ told)) }
    ensures stays { SameRecords (R.list r.old s.old) (R.list r.new s.new) (R.total r.old) (R.total r.new) (R.lengths r.old) (R.lengths r.new) }
    ensures holds { SameHeld (R.keeps r.old) (R.keeps r.new) (R.held r.old) (R.held r.new) }
    ensures held { ((n : ℕ) → IsRecordNumber (R.total r.old) n → R.held r.old n ≡ true) → IfErr result (λ why. why ≡ Stop.Memory) }
    ensures store { S.told s.new ≡ S.told s.old }
    ensures counts { NoneFalls (S.counts s.old) (S.counts s.new) }
    ensures faultless { OnOk result ((R.faults r.new s.new ≡ R.faults r.old s.old) × NoFault (S.counts s.old) (S.counts s.new)) }
    ensures cause { IfErr result (λ why. why ≡ Stop.Failed → Rose (R.faults r.old s.old) (R.faults r.new s.new)) }
{
    let mut records = Items::new(alloc);
    for before in 0..r.count() {
        match add_record(alloc, s, r, before + 1, &mut records) {
            Ok(()) => {}
            Err(why) => return Err(why),
        }
    }
    Ok(records)
}

/// Stages record `n` and reads it: whether nothing that was staged failed.
fn reads_staged<S: Store, R: RecordSource<S>>(s: &mut S, r: &mut R, n: u32) -> bool
    requires number { IsRecordNumber (R.total r.old) n }
    ensures kept { R.keeps r.old ≡ true → result ≡ true }
    ensures keeps { R.keeps r.new ≡ R.keeps r.old }
    ensures total { R.total r.new ≡ R.total r.old }
{
    match r.stage(s, n) {
        Ok(()) => r.record(s, n).is_ok(),
        Err(_) => true,
    }
}

/// Stages, reads and releases each record. A source that keeps never fails what was staged.
fn reads_all_staged<S: Store, R: RecordSource<S>>(s: &mut S, r: &mut R) -> bool
    ensures { R.keeps r.old ≡ true → result ≡ true }
{
    for before in 0..r.count() {
        if !reads_staged(s, r, before + 1) {
            return false;
        }
        r.release(before + 1);
    }
    true
}

fn sample(alloc: Global) -> Result<Library, Fail> {
    Ok(Library::read(alloc, samples::sample(alloc)?)?)
}

/// Whether these are the four records.
fn are_all(records: &Items<Bytes>) -> bool {
    let wanted = [
        &RECORDS[2..26],
        &RECORDS[28..48],
        &RECORDS[50..58],
        &RECORDS[60..84],
    ];
    records.len() == wanted.len()
        && records
            .as_slice()
            .iter()
            .zip(wanted)
            .all(|(found, want)| found.as_slice() == want)
}

fn empty_store(alloc: Global) -> MemStore {
    MemStore::new(alloc, Vec::new(alloc), Vec::new(alloc))
}

#[test]
fn records_of_a_library_one_by_one(rt: HostRuntime) -> Result<(), Fail> {
    let library = sample(rt.alloc())?;
    let entry = library.entries().first().ok_or("an entry")?;
    let mut store = empty_store(rt.alloc());
    let mut records = library.records(entry);
    let found = read_each(rt.alloc(), &mut store, &mut records)?;
    assert!(rt; are_all(&found));
    assert_eq!(rt; RecordSource::<MemStore>::count(&records), 4);
    assert!(rt; reads_all_staged(&mut store, &mut records));
    Ok(())
}

/// What two passes over the records answer, of which the `k`-th call fails: whether each gave all records.
fn two_passes(alloc: Global, k: u32) -> Result<(bool, bool), Fail> {
    let library = sample(alloc)?;
    let entry = library.entries().first().ok_or("an entry")?;
    let mut store = empty_store(alloc);
    let mut source = FailingRecords::new(library.records(entry), k);
    let first = read_each(alloc, &mut store, &mut source);
    let second = read_each(alloc, &mut store, &mut source);
    Ok((gave_all(first)?, gave_all(second)?))
}

fn gave_all(answer: Result<Items<Bytes>, Stop>) -> Result<bool, Fail> {
    match answer {
        Ok(records) if are_all(&records) => Ok(true),
        Ok(_) => Err("other records".into()),
        Err(Stop::Failed) => Ok(false),
        Err(Stop::Memory) => Err("out of memory".into()),
    }
}

#[test]
fn each_call_fails_in_its_turn(rt: HostRuntime) -> Result<(), Fail> {
    for k in 0..10 {
        let wanted = match k {
            1..=4 => (false, true),
            5..=8 => (true, false),
            _ => (true, true),
        };
        assert_eq!(rt; two_passes(rt.alloc(), k)?, wanted, "call {k}");
    }
    Ok(())
}
