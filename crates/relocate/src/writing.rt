//! Bytes written through loans, each of which may lend only some of the places asked for.
ghost use Rattle.std.specs.Prelude.{◌≡◌, ◌+◌, ◌<◌, ◌≤◌, ◌^◌, length, take};
ghost use Rattle.text_store.specs.Content.{with_bytes, LieInContent, AreWritable, StayWritable};

use text_store::TextKeeper;

/// Puts `bytes` into section `sec` from place `at` on.
pub(crate) fn write<K: TextKeeper>(kept: &mut K, sec: u32, at: u32, bytes: &[u8])
    requires near { at + length bytes.now < 2 ^ 32 }
    requires inside { LieInContent (K.content kept.old) sec at (length bytes.now) }
    requires writable { AreWritable (K.writable kept.old) sec at (length bytes.now) }
    ensures content { K.content kept.new ≡ with_bytes (K.content kept.old) sec at bytes.now }
    ensures writable { StayWritable (K.writable kept.old) (K.writable kept.new) }
{
    let mut from = at;
    let mut rest = bytes;
    while !rest.is_empty() {
        let count = write_part(kept, sec, from, rest);
        from += count as u32;
        rest = &rest[count..];
    }
}

/// Puts the first of `bytes`, one or more, into section `sec` from place `at` on, and gives their number.
fn write_part<K: TextKeeper>(kept: &mut K, sec: u32, at: u32, bytes: &[u8]) -> usize
    requires some { 0 < length bytes.now }
    requires few { length bytes.now < 2 ^ 32 }
    requires inside { LieInContent (K.content kept.old) sec at (length bytes.now) }
    requires writable { AreWritable (K.writable kept.old) sec at (length bytes.now) }
    ensures some { 0 < result }
    ensures most { result ≤ length bytes.now }
    ensures content { K.content kept.new ≡ with_bytes (K.content kept.old) sec at (take result bytes.now) }
    ensures writable { StayWritable (K.writable kept.old) (K.writable kept.new) }
{
    let part = kept.part_mut(sec, at, bytes.len() as u32);
    let count = part.len();
    part.copy_from_slice(&bytes[..count]);
    count
}
