//! EBCDIC codes of the characters that statements, names and printed text have.
ghost use Rattle.std.specs.Prelude.{◌≡◌, ◌<◌, ◌^◌, IfSome, IfNone};
ghost use Rattle.le_bytes.specs.Codes.{ascii_of, ebcdic_of, sign_of, sign_code, mark_of, mark_code};

/// The ASCII character of an EBCDIC code, and `.` for a code that has none here.
pub fn to_ascii(b: u8) -> u8
    ensures { result ≡ ascii_of b }
{
    match b {
        0xC1..=0xC9 => b - 128,
        0xD1..=0xD9 => b - 135,
        0xE2..=0xE9 => b - 143,
        0xF0..=0xF9 => b - 192,
        _ => sign(b),
    }
}

/// The EBCDIC code of an ASCII character; None exactly where it has none here.
pub fn from_ascii(b: u8) -> Option<u8>
    ensures code { result ≡ ebcdic_of b }
    ensures back { IfSome result (λ code. ascii_of code ≡ b) }
{
    match b {
        b'A'..=b'I' => Some(b + 128),
        b'J'..=b'R' => Some(b + 135),
        b'S'..=b'Z' => Some(b + 143),
        b'0'..=b'9' => Some(b + 192),
        _ => code_of_sign(b),
    }
}

fn sign(b: u8) -> u8
    ensures { result ≡ sign_of b }
{
    match b {
        0x40 => b' ',
        0x61 => b'/',
        0x6B => b',',
        0x6D => b'_',
        0x7B => b'#',
        0x7C => b'@',
        0x7D => b'\'',
        0x7E => b'=',
        _ => mark(b),
    }
}

fn mark(b: u8) -> u8
    ensures { result ≡ mark_of b }
{
    match b {
        0x4D => b'(',
        0x4E => b'+',
        0x50 => b'&',
        0x5B => b'$',
        0x5C => b'*',
        0x5D => b')',
        0x60 => b'-',
        _ => b'.',
    }
}

fn code_of_sign(b: u8) -> Option<u8>
    ensures code { result ≡ sign_code b }
    ensures back { IfSome result (λ code. ascii_of code ≡ b) }
{
    match b {
        b' ' => Some(0x40),
        b'/' => Some(0x61),
        b',' => Some(0x6B),
        b'_' => Some(0x6D),
        b'#' => Some(0x7B),
        b'@' => Some(0x7C),
        b'\'' => Some(0x7D),
        b'=' => Some(0x7E),
        _ => code_of_mark(b),
    }
}

fn code_of_mark(b: u8) -> Option<u8>
    ensures code { result ≡ mark_code b }
    ensures back { IfSome result (λ code. ascii_of code ≡ b) }
{
    match b {
        b'.' => Some(0x4B),
        b'(' => Some(0x4D),
        b'+' => Some(0x4E),
        b'&' => Some(0x50),
        b'$' => Some(0x5B),
        b'*' => Some(0x5C),
        b')' => Some(0x5D),
        b'-' => Some(0x60),
        _ => None,
    }
}
