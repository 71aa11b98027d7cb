//! A store in memory.
ghost use Rattle.std.specs.Prelude.{◌≡◌, ◌+◌, ◌-◌, ◌^◌, ◌↔◌, ℕ, List, take, drop, ◌++◌, min, length, Some, OnOk, IsTrue, IsErr, Contains};
ghost use Rattle.std.specs.Option.{option_copied};
ghost use Rattle.std.specs.List.{position};
ghost use Rattle.le_io.specs.Counts.{NoneFalls, CountsCall};
ghost use Rattle.le_io.specs.Reads.{OthersStay, ReadsWithin, ReadsTold, ReadHasCause, PutsTold, PutHasCause};
ghost use Rattle.le_io.specs.Stored.{is_at, files_in};
ghost use Rattle.le_io.specs.MemStored.{files_of, store_counts, store_fails, store_calls};

use crate::failing::Calls;
use crate::store::{Failed, Got, Store};
use crate::tally::Tally;
use std::alloc::{AllocError, Global};

/// Files in memory, for tests: it tells what it holds, and fails the calls that it was told to.
#[derive(Drop)]
pub struct MemStore {
    alloc: Global,
    files: Vec<(String, Vec<u8>)>,
    calls: Calls,
    tally: Tally,
}

/// Copies what stands in `file` from `at` on into the start of `into`, as far as it has room.
fn copy_part(file: &[u8], at: u64, into: &mut [u8]) -> usize
    ensures count { result ≡ min (length into.old) (length file.now - at) }
    ensures bytes { take result into.new ≡ take result (drop at file.now) }
{
    let start = file.len().min(at as usize);
    let n = into.len().min(file.len() - start);
    into[..n].copy_from_slice(&file[start..start + n]);
    n
}

/// The index of the first file at the path.
fn index_of(files: &[(String, Vec<u8>)], path: &str) -> Option<usize>
    ensures { result ≡ position (is_at path.now) files.now }
{
    files.iter().position(|file| file.0.as_str() == path)
}

/// Makes `b` the bytes of the first file at the path, or a file of its own where none has the path.
fn replace(
    files: &mut Vec<(String, Vec<u8>)>,
    alloc: Global,
    path: &str,
    b: &[u8],
) -> Result<(), AllocError>
    ensures held { OnOk result (files_in files.new.items path.now ≡ Some b.now) }
    ensures others { OthersStay (files_in files.old.items) (files_in files.new.items) path.now }
{
    let bytes = Vec::from_slice(alloc, b)?;
    match index_of(files, path) {
        Some(i) => files[i].1 = bytes,
        None => {
            let name = String::from_str(alloc, path)?;
            files.push((name, bytes))?;
        }
    }
    Ok(())
}

impl MemStore {
    /// A store of these files, of which the first counts where several have one path, whose calls of these numbers, from
    /// 1, fail. It takes no memory.
    pub fn new(alloc: Global, files: Vec<(String, Vec<u8>)>, fail: Vec<u64>) -> MemStore
        ensures files { files_of result ≡ files_in files.items }
        ensures fails { store_fails result ≡ fail.items }
        ensures calls { store_calls result ≡ 0 }
    {
        MemStore {
            alloc,
            files,
            calls: Calls::new(fail),
            tally: Tally::new(),
        }
    }

    /// The bytes at the path, or `None` where it is not there.
    pub fn bytes(&self, path: &str) -> Option<&[u8]>
        ensures { option_copied result ≡ files_of self.now path.now }
    {
        self.files
            .iter()
            .find(|file| file.0.as_str() == path)
            .map(|file| file.1.as_slice())
    }
}

/// What a put answers: a call that is to fail changes nothing.
fn put_unless(
    fails: bool,
    files: &mut Vec<(String, Vec<u8>)>,
    alloc: Global,
    path: &str,
    b: &[u8],
) -> Result<(), Failed>
    ensures told { PutsTold (files_in files.old.items) (files_in files.new.items) path.now b.now result }
    ensures fails { IsTrue fails → IsErr result }
{
    if fails {
        return Err(Failed);
    }
    replace(files, alloc, path, b).map_err(|_| Failed)
}

impl Store for MemStore {
    ghost told = { λ s. Some (files_of s) };

    ghost counts = { store_counts };

    /// Reads as much as the buffer has room for.
    fn read_at(&mut self, path: &str, at: u64, into: &mut [u8]) -> Got
        ensures within { ReadsWithin result (length into.new) }
        ensures bytes { ReadsTold (files_of self.old) path.now at into.new result }
        ensures told { files_of self.new ≡ files_of self.old }
        ensures counts { NoneFalls (store_counts self.old) (store_counts self.new) }
        ensures cause { ReadHasCause (store_counts self.old) (store_counts self.new) path.now at result }
        ensures numbered { CountsCall (store_calls self.old) (store_calls self.new) }
        ensures fails_stay { store_fails self.new ≡ store_fails self.old }
        ensures fails { (result ≡ Got.Failed) ↔ Contains (store_fails self.old) (store_calls self.new) }
    {
        let fails = self.calls.next_fails();
        let got = if fails {
            Got::Failed
        } else {
            match self.bytes(path) {
                Some(file) => Got::Bytes(copy_part(file, at, into)),
                None => Got::Absent,
            }
        };
        self.tally.note_read(at, got);
        got
    }

    fn put(&mut self, path: &str, b: &[u8]) -> Result<(), Failed>
        ensures told { PutsTold (files_of self.old) (files_of self.new) path.now b.now result }
        ensures counts { NoneFalls (store_counts self.old) (store_counts self.new) }
        ensures cause { PutHasCause (store_counts self.old) (store_counts self.new) path.now result }
        ensures numbered { CountsCall (store_calls self.old) (store_calls self.new) }
        ensures fails_stay { store_fails self.new ≡ store_fails self.old }
        ensures fails { Contains (store_fails self.old) (store_calls self.new) → IsErr result }
    {
        let fails = self.calls.next_fails();
        let answer = put_unless(fails, &mut self.files, self.alloc, path, b);
        self.tally.note_put(answer);
        answer
    }
}
