//! Numbers, names and parts of an image.
ghost use Rattle.std.specs.Prelude.{◌≡◌, ◌≤◌, ◌<◌, ◌^◌, ◌+◌, length};
ghost use Rattle.pds_directory.specs.Parts.{number, name_at, part, is_below};

use crate::entry::Span;
use le_bytes::{Name, num16, num24, num32};

#[tactic(auto, unfolding(crate::specs::Parts::number))]
pub(crate) fn number16(b: &[u8], at: usize) -> u32
    requires within { at + 2 ≤ length b.now }
    ensures number { result ≡ number 2 b.now at }
    ensures fits { result < 2 ^ 16 }
{
    num16(b, at)
}

#[tactic(auto, unfolding(crate::specs::Parts::number))]
pub(crate) fn number24(b: &[u8], at: usize) -> u32
    requires within { at + 3 ≤ length b.now }
    ensures number { result ≡ number 3 b.now at }
    ensures fits { result < 2 ^ 24 }
{
    num24(b, at)
}

#[tactic(auto, unfolding(crate::specs::Parts::number))]
pub(crate) fn number32(b: &[u8], at: usize) -> u32
    requires { at + 4 ≤ length b.now }
    ensures { result ≡ number 4 b.now at }
{
    num32(b, at)
}

pub(crate) fn name_at(b: &[u8], at: usize) -> Name
    requires { at + 8 ≤ length b.now }
    ensures { result ≡ name_at b.now at }
{
    let mut letters = [0; 8];
    letters.copy_from_slice(&b[at..at + 8]);
    Name(letters)
}

/// The bytes of a part of an image. What lies past its end is wanting.
pub fn part(image: &[u8], s: Span) -> &[u8]
    ensures { result.now ≡ part image.now s }
{
    let at = s.at.min(image.len());
    let len = s.len.min(image.len() - at);
    &image[at..at + len]
}

/// Whether `m` comes before `n` in the order of bytes.
pub fn is_below(m: &Name, n: &Name) -> bool
    ensures { result ≡ is_below m.now n.now }
{
    m.cmp(n).is_lt()
}
