//! What keeps the bytes of sections.
ghost use Rattle.std.specs.Prelude.{◌≡◌, ℕ, ◌+◌, ◌<◌, ◌≤◌, Bool, List, length, take, drop, OnOk, OnErr};
ghost use Rattle.std.specs.Borrow.{sem, Lends, Array, u8 as byte};
ghost use Rattle.text_store.specs.Content.{section_of, with_bytes, LieInContent, AreWritable, StayWritable};

use le_bytes::Memory;
use std::alloc::Global;

/// Keeps a list of bytes for each section. Sections count from 0 and places in bytes from a
/// section's first byte. A place is written only where it is writable, and stays writable.
pub trait TextKeeper {
    /// The bytes of each section.
    ghost content: { Self → List (List ℕ) };

    /// Which places of which section may be written.
    ghost writable: { Self → ℕ → ℕ → Bool };

    /// What is kept once the bytes of a loan from a place of a section are these.
    ghost rewritten: { Self → ℕ → ℕ → List ℕ → Self };

    /// Puts `bytes` into section `sec` from place `at` on and makes their places writable.
    ///
    /// # Errors
    /// Want of memory, after which all bytes are as before.
    fn set(&mut self, alloc: Global, sec: u32, at: u32, bytes: &[u8]) -> Result<(), Memory>
        requires inside { LieInContent (content self.old) sec at (length bytes.now) }
        ensures ok { OnOk result (content self.new ≡ with_bytes (content self.old) sec at bytes.now) }
        ensures made { OnOk result (AreWritable (writable self.new) sec at (length bytes.now)) }
        ensures err { OnErr result (content self.new ≡ content self.old) }
        ensures kept { StayWritable (writable self.old) (writable self.new) };

    /// Makes the `len` places of section `sec` from `at` on writable. No byte changes.
    ///
    /// # Errors
    /// Want of memory.
    fn reserve(&mut self, alloc: Global, sec: u32, at: u32, len: u32) -> Result<(), Memory>
        requires inside { LieInContent (content self.old) sec at len }
        ensures same { content self.new ≡ content self.old }
        ensures made { OnOk result (AreWritable (writable self.new) sec at len) }
        ensures kept { StayWritable (writable self.old) (writable self.new) };

    /// Copies the bytes of section `sec` from place `at` on, as many as `out` has.
    fn read(&self, sec: u32, at: u32, out: &mut [u8])
        requires inside { LieInContent (content self.now) sec at (length out.old) }
        ensures { out.new ≡ take (length out.old) (drop at (section_of (content self.now) sec)) };

    /// Lends one byte or more, and at most `len`, of section `sec` from place `at` on. What is
    /// written into them is kept.
    fn part_mut(&mut self, sec: u32, at: u32, len: u32) -> &mut [u8]
        requires some { 0 < len }
        requires inside { LieInContent (content self.old) sec at len }
        requires writable { AreWritable (writable self.old) sec at len }
        ensures some { 0 < length result.now }
        ensures most { length result.now ≤ len }
        ensures value { result.now ≡ take (length result.now) (drop at (section_of (content self.old) sec)) }
        ensures* writes_back { sem 𝓛 (Lends Self.row (Array byte 0) self.entry result (rewritten self.old sec at)) };

    ghost rewrites: { (kept : Self) (sec at : ℕ) (bytes : List ℕ) → LieInContent (content kept) sec at (length bytes)
        → content (rewritten kept sec at bytes) ≡ with_bytes (content kept) sec at bytes };

    ghost keeps: { (kept : Self) (sec at : ℕ) (bytes : List ℕ) → StayWritable (writable kept) (writable (rewritten kept sec at bytes)) };
}
