//! Where printed text goes.
ghost use Rattle.std.specs.Prelude.{◌≡◌, ℕ, ◌≤◌, List, Option, IfOk, length};
ghost use Rattle.le_io.specs.Writes.{WriteGains, WriteHasCause};

use crate::store::Failed;

/// Where printed text goes.
///
/// It may tell the bytes that it holds so far, and it counts the writes that failed. The count never falls, and may stay
/// at the greatest `u64`.
pub trait Sink {
    ghost held: { Self → Option (List ℕ) };

    ghost faults: { Self → ℕ };

    /// Appends some bytes from the front of `b`, and answers how many. None of a piece that is not empty is a fault.
    fn write(&mut self, b: &[u8]) -> Result<usize, Failed>
        ensures within { IfOk result (λ n. n ≤ length b.now) }
        ensures held { WriteGains (held self.old) (held self.new) b.now result }
        ensures counts { faults self.old ≤ faults self.new }
        ensures cause { WriteHasCause (faults self.old) (faults self.new) b.now result };
}
