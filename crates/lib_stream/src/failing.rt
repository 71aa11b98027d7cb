//! Records of which one call fails.
ghost use Rattle.std.specs.Prelude.{◌≡◌, [], ◌+◌, ◌↔◌, length, Some, IfOk, IsErr};
ghost use Rattle.std.specs.Borrow.{sem};
ghost use Rattle.std.specs.Io.BufRead.{Rests};
ghost use Rattle.le_io.specs.Counts.{CountsCall};
ghost use mir.Syntax.{named};
ghost use Rattle.lib_stream.specs.contracts.failing.FailingRecords.{the_row};
ghost use Rattle.lib_stream.specs.Sources.{IsRecordNumber, IsRecord, CountsFault, length_of};
ghost use Rattle.lib_stream.specs.Failing.{records_in, calls_made, failing_call, calls_failed};

use crate::source::RecordSource;
use le_io::{Failed, Store};
use pds_lib::Records;

/// Records that a library lends, of which one call fails, for tests. They are told, they touch no store, and their faults
/// are the calls that failed.
#[derive(Drop)]
pub struct FailingRecords<'a> {
    records: Records<'a>,
    fails: u32,
    made: u64,
    failed: u64,
}

impl<'a> FailingRecords<'a> {
    /// The records `r`, of which the `k`-th call, from 1, fails; none where `k` is 0.
    pub fn new(r: Records<'a>, k: u32) -> FailingRecords<'a>
        ensures records { records_in result ≡ r.entry }
        ensures fails { failing_call result ≡ k }
        ensures made { calls_made result ≡ 0 }
        ensures failed { calls_failed result ≡ 0 }
    {
        FailingRecords {
            records: r,
            fails: k,
            made: 0,
            failed: 0,
        }
    }

    /// Record `n`, unless this is the call that fails. `record` gives the same, over any store.
    ///
    /// # Errors
    /// Failed: this is the call that fails.
    pub fn read(&mut self, n: u32) -> Result<&[u8], Failed>
        requires number { IsRecordNumber (length (records_in self.old)) n }
        ensures value { IfOk result (λ bytes. IsRecord (records_in self.old) n bytes.now) }
        ensures fails { IsErr result ↔ (calls_made self.old + 1 ≡ failing_call self.old) }
        ensures* after { sem 𝓛 (Rests (the_row (record { mir = named 1; lft = [] })) self.entry (λ new.
            (records_in new ≡ records_in self.old) × (failing_call new ≡ failing_call self.old)
            × CountsCall (calls_made self.old) (calls_made new) × CountsFault (calls_failed self.old) (calls_failed new) result)) }
    {
        self.made = self.made.saturating_add(1);
        if self.made == u64::from(self.fails) {
            self.failed = self.failed.saturating_add(1);
            return Err(Failed);
        }
        self.records.get(n).ok_or(Failed)
    }
}

impl<'a, S: Store> RecordSource<S> for FailingRecords<'a> {
    ghost use Rattle.lib_stream.specs.Agreed.{own_records, no_fewer};

    ghost list = { λ source _. Some (records_in source) };

    ghost faults = { λ source _. calls_failed source };

    ghost total = { λ source. length (records_in source) };

    ghost lengths = { λ source. length_of (records_in source) };

    ghost agrees = { λ source _. own_records (records_in source) };

    ghost stands = { λ source _ _ _. no_fewer (calls_failed source) };

    fn count(&self) -> u32 {
        self.records.count()
    }

    fn length(&self, n: u32) -> u32 {
        self.records.length(n).unwrap_or(0)
    }

    #[tactic(auto, using(crate::proofs::Calls::same_told, crate::proofs::Calls::counted_cause, crate::proofs::Calls::has_length))]
    fn record(&mut self, _s: &mut S, n: u32) -> Result<&[u8], Failed> {
        self.read(n)
    }

    fn stage(&mut self, _s: &mut S, _n: u32) -> Result<(), Failed> {
        Ok(())
    }

    fn release(&mut self, _n: u32) {}
}
