//! The files between commands, and what the last command printed and how it ended.
use crate::bytes::bytes_of;
use le_io::{MemSink, MemStore, Store};
use linkedit_top::{Status, linkedit};
use std::alloc::Global;
use std::test::Fail;

/// The paths that scripts may name.
const PATHS: [&str; 4] = ["d", "e", "l", "n"];

/// The files, the calls that fail in the next run, and what the last run left.
#[derive(Drop)]
pub(crate) struct Stage {
    pub(crate) disk: MemStore,
    /// The number of the store's call that fails in the next run, and of the sink's; 0 for none.
    pub(crate) failing_call: u64,
    pub(crate) failing_write: u64,
    /// So many bytes the sink takes at once.
    pub(crate) most: usize,
    pub(crate) status: Status,
    pub(crate) printed: Vec<u8>,
    /// So many of the printed bytes were told already.
    told: usize,
    /// Whether the last run put a file, and other bytes than it held.
    pub(crate) changed: bool,
}

impl Stage {
    pub(crate) fn new(alloc: Global) -> Stage {
        Stage {
            disk: MemStore::new(alloc, Vec::new(alloc), Vec::new(alloc)),
            failing_call: 0,
            failing_write: 0,
            most: 1 << 20,
            status: Status::Done,
            printed: Vec::new(alloc),
            told: 0,
            changed: false,
        }
    }

    /// Puts the bytes of a text at the path that is its first word.
    pub(crate) fn put(&mut self, alloc: Global, text: &str) -> Result<(), Fail> {
        let (path, words) = text.split_once(' ').unwrap_or((text, ""));
        let bytes = bytes_of(alloc, words)?;
        self.disk.put(path, bytes.as_slice())?;
        Ok(())
    }

    /// A copy of the file at a path, empty where there is none.
    pub(crate) fn file(&self, alloc: Global, path: &str) -> Result<Vec<u8>, Fail> {
        Ok(Vec::from_slice(alloc, self.disk.bytes(path).unwrap_or(&[]))?)
    }

    /// Runs a command over copies of the files, and keeps what it put.
    pub(crate) fn run(&mut self, alloc: Global, line: &str) -> Result<(), Fail> {
        let mut store = copy_of(alloc, &self.disk, self.failing_call)?;
        let mut fails = Vec::new(alloc);
        fails.push(self.failing_write)?;
        let mut print = MemSink::new(alloc, fails, self.most);
        self.status = linkedit(alloc, &words(alloc, line)?, &mut store, &mut print);
        self.printed = Vec::from_slice(alloc, print.bytes())?;
        self.told = 0;
        self.changed = take_back(&mut self.disk, &store)?;
        self.failing_call = 0;
        self.failing_write = 0;
        self.most = 1 << 20;
        Ok(())
    }

    /// The next line of the printed text, if there is one that is ended.
    pub(crate) fn next_line(&mut self) -> Option<&[u8]> {
        let rest = self.printed.as_slice().get(self.told..)?;
        let length = rest.iter().position(|c| *c == b'\n')?;
        self.told = self.told.saturating_add(length).saturating_add(1);
        rest.get(..length)
    }

    /// What no line has told of the printed text.
    pub(crate) fn untold(&self) -> &[u8] {
        self.printed.as_slice().get(self.told..).unwrap_or(&[])
    }
}

/// The words of a command line.
fn words(alloc: Global, line: &str) -> Result<Vec<String>, Fail> {
    let mut words = Vec::new(alloc);
    for word in line.split_whitespace() {
        words.push(String::from_str(alloc, word)?)?;
    }
    Ok(words)
}

/// A store of the same files, whose call with this number fails.
fn copy_of(alloc: Global, disk: &MemStore, fail: u64) -> Result<MemStore, Fail> {
    let mut files = Vec::new(alloc);
    for path in PATHS {
        if let Some(bytes) = disk.bytes(path) {
            let path = String::from_str(alloc, path)?;
            files.push((path, Vec::from_slice(alloc, bytes)?))?;
        }
    }
    let mut fails = Vec::new(alloc);
    fails.push(fail)?;
    Ok(MemStore::new(alloc, files, fails))
}

/// Takes the files of a store that differ; whether there are any.
fn take_back(disk: &mut MemStore, store: &MemStore) -> Result<bool, Fail> {
    let mut changed = false;
    for path in PATHS {
        if let Some(bytes) = store.bytes(path) {
            if disk.bytes(path) != Some(bytes) {
                disk.put(path, bytes)?;
                changed = true;
            }
        }
    }
    Ok(changed)
}
