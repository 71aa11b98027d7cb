//! The counts of a store that keeps one number for all paths.
ghost use Rattle.std.specs.Prelude.{◌≡◌, ℕ, List, IsTrue, ◌↔◌, Contains};
ghost use Rattle.le_io.specs.Counts.{NoneFalls};
ghost use Rattle.le_io.specs.Reads.{ReadHasCause, PutHasCause};
ghost use Rattle.le_io.specs.Tallied.{counts_of};

use crate::store::{Failed, Got, SET_LIMIT};

#[derive(Debug, Drop)]
pub(crate) struct Tally {
    faults: u64,
    put_faults: u64,
    misses: u64,
    longs: u64,
}

impl Tally {
    pub(crate) fn new() -> Tally
        ensures { result ≡ record { faults = 0; put_faults = 0; misses = 0; longs = 0 } }
    {
        Tally {
            faults: 0,
            put_faults: 0,
            misses: 0,
            longs: 0,
        }
    }

    /// Raises the count that the answer of a read from the byte `at` asks for.
    pub(crate) fn note_read(&mut self, at: u64, got: Got)
        ensures counts { NoneFalls (counts_of self.old) (counts_of self.new) }
        ensures cause { (path : List ℕ) → ReadHasCause (counts_of self.old) (counts_of self.new) path at got }
    {
        match got {
            Got::Bytes(n) => {
                if n > 0 && at >= SET_LIMIT {
                    self.longs = self.longs.saturating_add(1);
                }
            }
            Got::Absent => self.misses = self.misses.saturating_add(1),
            Got::Failed => self.faults = self.faults.saturating_add(1),
        }
    }

    /// Raises the count that the answer of a put asks for.
    pub(crate) fn note_put(&mut self, answer: Result<(), Failed>)
        ensures counts { NoneFalls (counts_of self.old) (counts_of self.new) }
        ensures cause { (path : List ℕ) → PutHasCause (counts_of self.old) (counts_of self.new) path answer }
    {
        if answer.is_err() {
            self.put_faults = self.put_faults.saturating_add(1);
        }
    }
}
