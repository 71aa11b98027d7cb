//! A sink in memory.
ghost use Rattle.std.specs.Prelude.{◌≡◌, ℕ, ◌≤◌, [], length, min, Some, IfOk, IsErr, Contains};
ghost use Rattle.le_io.specs.Counts.{CountsCall};
ghost use Rattle.le_io.specs.Writes.{WriteGains, WriteHasCause};
ghost use Rattle.le_io.specs.MemSunk.{held_by, sink_most, sink_faults, sink_fails, sink_calls};

use crate::failing::Calls;
use crate::sink::Sink;
use crate::store::Failed;
use std::alloc::Global;

/// Text in memory, for tests: it tells what it holds, takes at most so many bytes at once, and fails the writes that it
/// was told to.
#[derive(Drop)]
pub struct MemSink {
    bytes: Vec<u8>,
    most: usize,
    calls: Calls,
    faults: u64,
}

impl MemSink {
    /// An empty sink that takes at most `most` bytes at a write, and whose writes of these numbers, from 1, fail. It takes
    /// no memory.
    pub fn new(alloc: Global, fail: Vec<u64>, most: usize) -> MemSink
        ensures held { held_by result ≡ [] }
        ensures most { sink_most result ≡ most }
        ensures fails { sink_fails result ≡ fail.items }
        ensures calls { sink_calls result ≡ 0 }
    {
        MemSink {
            bytes: Vec::new(alloc),
            most,
            calls: Calls::new(fail),
            faults: 0,
        }
    }

    /// All that was written.
    pub fn bytes(&self) -> &[u8]
        ensures { result.now ≡ held_by self.now }
    {
        self.bytes.as_slice()
    }
}

impl Sink for MemSink {
    ghost held = { λ k. Some (held_by k) };

    ghost faults = { sink_faults };

    fn write(&mut self, b: &[u8]) -> Result<usize, Failed>
        ensures within { IfOk result (λ n. n ≤ length b.now) }
        ensures held { WriteGains (Some (held_by self.old)) (Some (held_by self.new)) b.now result }
        ensures counts { sink_faults self.old ≤ sink_faults self.new }
        ensures cause { WriteHasCause (sink_faults self.old) (sink_faults self.new) b.now result }
        ensures takes { IfOk result (λ n. n ≡ min (sink_most self.old) (length b.now)) }
        ensures most { sink_most self.new ≡ sink_most self.old }
        ensures numbered { CountsCall (sink_calls self.old) (sink_calls self.new) }
        ensures fails { Contains (sink_fails self.old) (sink_calls self.new) → IsErr result }
        ensures fails_stay { sink_fails self.new ≡ sink_fails self.old }
    {
        let fails = self.calls.next_fails();
        let n = b.len().min(self.most);
        if fails || self.bytes.extend_from_slice(&b[..n]).is_err() {
            self.faults = self.faults.saturating_add(1);
            return Err(Failed);
        }
        if n == 0 && !b.is_empty() {
            self.faults = self.faults.saturating_add(1);
        }
        Ok(n)
    }
}
