//! The chunks of a piece as they are kept until they are written.
ghost use Rattle.std.specs.Prelude.{◌≡◌, ◌↔◌, ◌++◌, ◌∷◌, [], IsTrue};
ghost use Rattle.mod_segments.specs.Records.{but_last, last_of};

use le_bytes::{Bytes, Items};
use std::alloc::Global;
use std::marker::Model;

/// Chunks of relocation items. The last stands apart, since it joins the next control record, and so
/// one chunk alone takes no memory for a list.
#[derive(Debug, Drop)]
pub struct ChunkList {
    ending: Option<Ending>,
}

/// The last chunk and those before it.
#[derive(Debug, Drop)]
pub(crate) struct Ending {
    before: Items<Bytes>,
    last: Bytes,
}

impl Model for ChunkList {
    ghost use Rattle.std.specs.Prelude.{List, ℕ};
    ghost use Rattle.mod_segments.specs.Listed.{listed};

    ghost Value = { List (List ℕ) };

    ghost view = { λ c. listed c.ending };
}

impl ChunkList {
    /// No chunks.
    pub(crate) fn new() -> ChunkList
        ensures { result ≡ [] }
    {
        ChunkList { ending: None }
    }

    /// These chunks and a last one.
    pub(crate) fn ending(before: Items<Bytes>, last: Bytes) -> ChunkList
        ensures { result ≡ before ++ last ∷ [] }
    {
        ChunkList {
            ending: Some(Ending { before, last }),
        }
    }

    pub(crate) fn is_empty(&self) -> bool
        ensures { IsTrue result ↔ (self.now ≡ []) }
    {
        self.ending.is_none()
    }

    /// The chunks before the last, and the last, which is empty where there is none.
    pub fn parted(self, alloc: Global) -> (Items<Bytes>, Bytes)
        ensures before { result.0 ≡ but_last self }
        ensures last { result.1 ≡ last_of self }
    {
        let ChunkList { ending } = self;
        match ending {
            Some(Ending { before, last }) => (before, last),
            None => (Items::new(alloc), Bytes::new(alloc)),
        }
    }
}
