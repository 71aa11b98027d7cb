//! Text that is kept whole: the bytes of all sections in one list.
ghost use Rattle.std.specs.Prelude.{◌≡◌, ◌+◌, ◌≤◌, map, replicate, length, get_or, IfOk};
ghost use Rattle.text_store.specs.Content.{LieInContent};

use crate::keeper::TextKeeper;
use le_bytes::Memory;
use std::alloc::Global;
use std::ops::Range;

/// The bytes of each section, all in storage, one section after the other.
#[derive(Debug, Drop)]
pub struct WholeText {
    bytes: Vec<u8>,
    starts: Vec<usize>,
}

impl WholeText {
    ghost use Rattle.text_store.specs.Whole.{content_of};

    /// Sections of these lengths, in bytes, all zero.
    ///
    /// # Errors
    /// Want of memory.
    pub fn new(alloc: Global, lengths: &[u32]) -> Result<WholeText, Memory>
        ensures { IfOk result (λ text. content_of text ≡ map (λ n. replicate n 0) lengths.now) }
    {
        let mut starts = Vec::with_capacity(alloc, lengths.len())?;
        let mut end = 0usize;
        for length in lengths {
            starts.push(end)?;
            end = end.checked_add(*length as usize).ok_or(Memory)?;
        }
        let bytes = vec![in alloc; 0u8; end]?;
        Ok(WholeText { bytes, starts })
    }

    /// Where `len` bytes of a section stand among those of all, from a place of the section on.
    fn places(&self, sec: u32, at: u32, len: usize) -> Range<usize>
        requires inside { LieInContent (content_of self.now) sec at len }
        ensures start { result.start ≡ get_or self.now.starts.items sec 0 + at }
        ensures end { result.end ≡ result.start + len }
        ensures within { result.end ≤ length self.now.bytes.items }
    {
        let from = self.starts[sec as usize] + at as usize;
        from..from + len
    }
}

impl TextKeeper for WholeText {
    ghost use Rattle.std.specs.Prelude.{true};
    ghost use Rattle.text_store.specs.Whole.{content_of, whole_with};
    ghost use Rattle.text_store.specs.Rewriting.{whole_rewrites};

    ghost content = { content_of };

    ghost writable = { λ _ _ _. true };

    ghost rewritten = { whole_with };

    ghost rewrites = { whole_rewrites };

    ghost keeps = { λ _ _ _ _ _ _ before. before };

    fn set(&mut self, _alloc: Global, sec: u32, at: u32, bytes: &[u8]) -> Result<(), Memory> {
        let places = self.places(sec, at, bytes.len());
        let places = self.bytes.slice_mut(places);
        places.copy_from_slice(bytes);
        Ok(())
    }

    fn reserve(&mut self, _alloc: Global, _sec: u32, _at: u32, _len: u32) -> Result<(), Memory> {
        Ok(())
    }

    fn read(&self, sec: u32, at: u32, out: &mut [u8]) {
        let places = self.places(sec, at, out.len());
        out.copy_from_slice(&self.bytes[places]);
    }

    fn part_mut(&mut self, sec: u32, at: u32, len: u32) -> &mut [u8] {
        let places = self.places(sec, at, len as usize);
        self.bytes.slice_mut(places)
    }
}
