//! Names, addresses and numbers as text.
ghost use Rattle.std.specs.Prelude.{◌≡◌, ◌≤◌, ◌<◌, ◌^◌, ◌++◌, length, take, map, OnOk};
ghost use Rattle.hex.specs.Hex.{encode_lower};
ghost use Rattle.le_bytes.specs.Codes.{ascii_of};
ghost use Rattle.byteorder.specs.Endian.{big_bytes};
ghost use Rattle.map_list.specs.Printed.{printed_name, a6, decimal, trimmed};

use itoa::Buffer;
use le_bytes::{Memory, Name, put24, put32, to_ascii};

/// The least number that six hexadecimal digits do not hold.
const SEVEN_DIGITS: u32 = 0x0100_0000;

/// A name in ASCII: the characters, and how many of them come before the blanks at the end. A name of
/// eight blanks has none.
#[tactic(auto, unfolding(crate::specs::Printed::printed_name))]
pub fn name_text(name: &Name) -> ([u8; 8], usize)
    ensures text { take result.1 result.0 ≡ printed_name name.now }
    ensures within { result.1 ≤ 8 }
{
    let text = ascii(name);
    let written = written_length(&text);
    (text, written)
}

fn ascii(name: &Name) -> [u8; 8]
    ensures { result ≡ map ascii_of name.now.0 }
{
    let [a, b, c, d, e, f, g, h] = name.0;
    [
        to_ascii(a),
        to_ascii(b),
        to_ascii(c),
        to_ascii(d),
        to_ascii(e),
        to_ascii(f),
        to_ascii(g),
        to_ascii(h),
    ]
}

/// How many characters come before the blanks at the end.
fn written_length(text: &[u8]) -> usize
    ensures text { take result text.now ≡ trimmed text.now }
    ensures within { result ≤ length text.now }
{
    let mut written = 0;
    for (i, c) in text.iter().enumerate() {
        if *c != b' ' {
            written = i + 1;
        }
    }
    written
}

/// An address of at most 16,777,215 as six hexadecimal digits.
#[tactic(auto, unfolding(crate::specs::Printed::a6))]
pub fn address_digits(address: u32) -> [u8; 6]
    requires { address < 2 ^ 24 }
    ensures { result ≡ a6 address }
{
    let mut bytes = [0; 3];
    put24(&mut bytes, 0, address);
    let mut six = [0; 6];
    hex::encode_to_slice(&bytes, &mut six).unwrap();
    six
}

fn eight_digits(address: u32) -> [u8; 8]
    ensures { result ≡ encode_lower (big_bytes 4 address) }
{
    let mut bytes = [0; 4];
    put32(&mut bytes, 0, address);
    let mut eight = [0; 8];
    hex::encode_to_slice(&bytes, &mut eight).unwrap();
    eight
}

/// Puts a name at the end of `out`. After want of memory `out` is as before.
///
/// # Errors
/// Want of memory.
pub fn push_name(out: &mut Vec<u8>, name: &Name) -> Result<(), Memory>
    ensures { OnOk result (out.new.items ≡ out.old.items ++ printed_name name.now) }
{
    let (text, written) = name_text(name);
    out.extend_from_slice(&text[..written])?;
    Ok(())
}

/// Puts an address at the end of `out`, in six hexadecimal digits, or in eight where it is above
/// 16,777,215. After want of memory `out` is as before.
///
/// # Errors
/// Want of memory.
#[tactic(auto, unfolding(crate::specs::Printed::a6))]
pub fn push_address(out: &mut Vec<u8>, address: u32) -> Result<(), Memory>
    ensures { OnOk result (out.new.items ≡ out.old.items ++ a6 address) }
{
    if address < SEVEN_DIGITS {
        out.extend_from_slice(&address_digits(address))?;
    } else {
        out.extend_from_slice(&eight_digits(address))?;
    }
    Ok(())
}

/// Puts a number at the end of `out`, in decimal. After want of memory `out` is as before.
///
/// # Errors
/// Want of memory.
pub fn push_number(out: &mut Vec<u8>, n: u64) -> Result<(), Memory>
    ensures { OnOk result (out.new.items ≡ out.old.items ++ decimal n) }
{
    let mut digits = Buffer::new();
    out.extend_from_slice(digits.format(n).as_bytes())?;
    Ok(())
}
