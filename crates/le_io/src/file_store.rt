//! The files of the host.
ghost use Rattle.std.specs.Prelude.{None, ◌≤◌, length, IfOk};
ghost use Rattle.le_io.specs.Reads.{ReadsWithin};
ghost use Rattle.le_io.specs.Tallied.{counts_of};

use crate::replacing::put_file;
use crate::store::{Failed, Got, Store};
use crate::tally::Tally;
use std::alloc::Global;
use std::fs;
use std::io::{self, ErrorKind, Read, Seek, SeekFrom};
use std::rt::Files;

/// The files of a runtime. It does not tell what they hold, and it keeps no file open from one call to the next.
///
/// A put replaces a regular file whole: after a put that failed, or a host that died in between, the old bytes stand.
#[derive(Drop)]
pub struct FileStore<R: Files> {
    alloc: Global,
    files: R,
    tally: Tally,
}

impl<R: Files> FileStore<R> {
    pub fn new(alloc: Global, files: R) -> FileStore<R> {
        FileStore {
            alloc,
            files,
            tally: Tally::new(),
        }
    }
}

fn read_from(files: &impl Files, path: &str, at: u64, into: &mut [u8]) -> io::Result<usize>
    ensures { IfOk result (λ n. n ≤ length into.new) }
{
    let mut file = fs::open(files, path)?;
    file.seek(SeekFrom::Start(at))?;
    file.read(into)
}

impl<R: Files> Store for FileStore<R> {
    ghost told = { λ _. None };

    ghost counts = { λ s. counts_of s.tally };

    fn read_at(&mut self, path: &str, at: u64, into: &mut [u8]) -> Got {
        let got = match read_from(&self.files, path, at, into) {
            Ok(n) => Got::Bytes(n),
            Err(e) if e.kind() == ErrorKind::NotFound => Got::Absent,
            Err(_) => Got::Failed,
        };
        self.tally.note_read(at, got);
        got
    }

    fn put(&mut self, path: &str, b: &[u8]) -> Result<(), Failed> {
        let answer = put_file(&self.files, self.alloc, path, b).map_err(|_| Failed);
        self.tally.note_put(answer);
        answer
    }
}
