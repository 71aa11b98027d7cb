//! Where the text of a part comes from.
ghost use Rattle.std.specs.Prelude.{◌≡◌, ◌+◌, ◌<◌, ◌≤◌, List, ℕ, length, take, drop, IfOk};

use le_bytes::{Bytes, Memory};
use std::alloc::Global;
use text_store::TextKeeper;

/// Gives the text of a part in pieces.
pub(crate) trait PartText {
    /// All of it.
    ghost text: { Self → List ℕ };

    /// Copies the bytes from place `at` on, as many as `out` has.
    fn copy(&self, at: u32, out: &mut [u8])
        requires some { 0 < length out.old }
        requires inside { at + length out.old ≤ length (text self.now) }
        ensures { out.new ≡ take (length out.old) (drop at (text self.now)) };
}

/// The text of a section in a keeper of text.
#[derive(Clone, Copy)]
pub(crate) struct KeptText<'a, K: TextKeeper> {
    pub kept: &'a K,
    pub section: u32,
}

impl<'a, K: TextKeeper> PartText for KeptText<'a, K> {
    ghost use Rattle.text_store.specs.Content.{section_of};

    ghost text = { λ x. section_of (K.content x.kept.now) x.section };

    fn copy(&self, at: u32, out: &mut [u8]) {
        self.kept.read(self.section, at, out);
    }
}

/// Text that is there whole.
#[derive(Clone, Copy)]
pub(crate) struct WholePart<'a> {
    pub bytes: &'a [u8],
}

impl<'a> PartText for WholePart<'a> {
    ghost text = { λ x. x.bytes.now };

    fn copy(&self, at: u32, out: &mut [u8]) {
        let from = at as usize;
        out.copy_from_slice(&self.bytes[from..from + out.len()]);
    }
}

/// A copy of `size` bytes from place `at` on.
///
/// # Errors
/// Want of memory.
pub(crate) fn copied<T: PartText>(
    alloc: Global,
    text: &T,
    at: u32,
    size: u32,
) -> Result<Bytes, Memory>
    requires some { 0 < size }
    requires inside { at + size ≤ length (T.text text.now) }
    ensures { IfOk result (λ bytes. bytes ≡ take size (drop at (T.text text.now))) }
{
    let mut bytes = vec![in alloc; 0u8; size as usize]?;
    text.copy(at, &mut bytes);
    Ok(Bytes::from_vec(bytes))
}
