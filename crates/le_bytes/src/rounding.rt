//! How many values a field has, and lengths as multiples of 8.
ghost use Rattle.std.specs.Prelude.{◌≡◌, ◌-◌, ◌^◌, ◌≤◌};
ghost use Rattle.le_bytes.specs.Numbers.{modulus, round8};

/// How many values a field of `length` bytes has: one more than the greatest number in it.
pub fn modulus(length: usize) -> u64
    requires some { 1 ≤ length }
    requires most { length ≤ 4 }
    ensures value { result ≡ modulus length }
    ensures few { result ≤ 2 ^ 32 }
    ensures some { 256 ≤ result }
{
    match length {
        1 => 0x100,
        2 => 0x1_0000,
        3 => 0x100_0000,
        _ => 0x1_0000_0000,
    }
}

/// The least multiple of 8 that is not below `n`.
pub fn round8(n: u64) -> u64
    requires { n ≤ 2 ^ 64 - 8 }
    ensures { result ≡ round8 n }
{
    (n + 7) / 8 * 8
}
