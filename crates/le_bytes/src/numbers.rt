//! Big-endian numbers of 2, 3 and 4 bytes inside a slice.
ghost use Rattle.std.specs.Prelude.{◌≡◌, ◌+◌, ◌^◌, ◌<◌, ◌≤◌, ◌++◌, length, take, drop};
ghost use Rattle.byteorder.specs.Endian.{big_number, big_bytes};

use byteorder::{BigEndian, ByteOrder};

/// The number in the 2 bytes of `b` from `at`.
pub fn num16(b: &[u8], at: usize) -> u32
    requires within { at + 2 ≤ length b.now }
    ensures number { result ≡ big_number 2 (drop at b.now) }
    ensures fits { result < 2 ^ 16 }
{
    BigEndian::read_u16(&b[at..]) as u32
}

/// The number in the 3 bytes of `b` from `at`.
pub fn num24(b: &[u8], at: usize) -> u32
    requires within { at + 3 ≤ length b.now }
    ensures number { result ≡ big_number 3 (drop at b.now) }
    ensures fits { result < 2 ^ 24 }
{
    BigEndian::read_u24(&b[at..])
}

/// The number in the 4 bytes of `b` from `at`.
pub fn num32(b: &[u8], at: usize) -> u32
    requires within { at + 4 ≤ length b.now }
    ensures number { result ≡ big_number 4 (drop at b.now) }
{
    BigEndian::read_u32(&b[at..])
}

/// Writes `v` into the 2 bytes of `b` from `at`. All other bytes stay.
pub fn put16(b: &mut [u8], at: usize, v: u32)
    requires within { at + 2 ≤ length b.old }
    requires fits { v < 2 ^ 16 }
    ensures { b.new ≡ take at b.old ++ big_bytes 2 v ++ drop (at + 2) b.old }
{
    BigEndian::write_u16(&mut b[at..at + 2], v as u16);
}

/// Writes `v` into the 3 bytes of `b` from `at`. All other bytes stay.
pub fn put24(b: &mut [u8], at: usize, v: u32)
    requires within { at + 3 ≤ length b.old }
    requires fits { v < 2 ^ 24 }
    ensures { b.new ≡ take at b.old ++ big_bytes 3 v ++ drop (at + 3) b.old }
{
    BigEndian::write_u24(&mut b[at..at + 3], v);
}

/// Writes `v` into the 4 bytes of `b` from `at`. All other bytes stay.
pub fn put32(b: &mut [u8], at: usize, v: u32)
    requires within { at + 4 ≤ length b.old }
    ensures { b.new ≡ take at b.old ++ big_bytes 4 v ++ drop (at + 4) b.old }
{
    BigEndian::write_u32(&mut b[at..at + 4], v);
}
