//! Sets of bytes by path.
ghost use Rattle.std.specs.Prelude.{◌≡◌, ℕ, List, Option, IsSomeAnd, length};
ghost use Rattle.le_io.specs.Counts.{Files, Counts, NoneFalls, WhereTold};
ghost use Rattle.le_io.specs.Reads.{ReadsWithin, ReadsTold, ReadHasCause, PutsTold, PutHasCause};

/// The greatest number of bytes of a set: 64 MiB.
pub const SET_LIMIT: u64 = 67_108_864;

/// The answer of one read.
#[derive(Clone, Copy, Debug, PartialEq, Eq)]
pub enum Got {
    /// So many bytes, at the start of the buffer.
    Bytes(usize),
    /// Nothing stands at the path.
    Absent,
    /// The read failed.
    Failed,
}

/// A put or a write that failed.
#[derive(Clone, Copy, Debug, PartialEq, Eq)]
pub struct Failed;

/// Sets of bytes by path.
///
/// It may tell what stands at each path, and it counts for each path the reads that failed, the puts that failed,
/// the reads of a path that was not there, and the reads that found bytes past [`SET_LIMIT`]. No count ever falls,
/// and one that stands at the greatest `u64` may stay there.
pub trait Store {
    ghost told: { Self → Option Files };

    ghost counts: { Self → Counts };

    /// Reads bytes of the set at `path` from the byte `at` (from 0) into the start of `into`. `Bytes(0)` for a buffer
    /// that is not empty is the end of the set.
    fn read_at(&mut self, path: &str, at: u64, into: &mut [u8]) -> Got
        ensures within { ReadsWithin result (length into.new) }
        ensures bytes { WhereTold (told self.old) (λ files. ReadsTold files path.now at into.new result) }
        ensures told { told self.new ≡ told self.old }
        ensures counts { NoneFalls (counts self.old) (counts self.new) }
        ensures cause { ReadHasCause (counts self.old) (counts self.new) path.now at result };

    /// Makes `b` all that stands at `path`. After `Failed` anything may stand there.
    fn put(&mut self, path: &str, b: &[u8]) -> Result<(), Failed>
        ensures told { WhereTold (told self.old)
            (λ old. IsSomeAnd (told self.new) (λ new. PutsTold old new path.now b.now result)) }
        ensures counts { NoneFalls (counts self.old) (counts self.new) }
        ensures cause { PutHasCause (counts self.old) (counts self.new) path.now result };
}
