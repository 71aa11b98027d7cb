//! Calls of which some are to fail.
ghost use Rattle.std.specs.Prelude.{◌≡◌, IsTrue, ◌↔◌, Contains};
ghost use Rattle.le_io.specs.Counts.{CountsCall};

/// A counter of calls, and the numbers, from 1, of the calls that are to fail.
#[derive(Debug, Drop)]
pub(crate) struct Calls {
    made: u64,
    fail: Vec<u64>,
}

impl Calls {
    pub(crate) fn new(fail: Vec<u64>) -> Calls
        ensures { result ≡ record { made = 0; fail = fail } }
    {
        Calls { made: 0, fail }
    }

    /// Counts one more call, and says whether it is to fail.
    pub(crate) fn next_fails(&mut self) -> bool
        ensures counted { CountsCall self.old.made self.new.made }
        ensures fail { self.new.fail ≡ self.old.fail }
        ensures listed { IsTrue result ↔ Contains self.old.fail.items self.new.made }
    {
        self.made = self.made.saturating_add(1);
        self.fail.contains(&self.made)
    }
}
