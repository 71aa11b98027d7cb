//! A line that is put together piece by piece in a buffer of its own, without taking memory.
ghost use Rattle.std.specs.Prelude.{◌≡◌, ◌+◌, ◌*◌, ◌≤◌, ◌<◌, ℕ, ◌++◌, ◌∷◌, length, take, drop};
ghost use Rattle.hex.specs.Hex.{encode_lower};
ghost use Rattle.map_list.specs.Printed.{printed_name, a6, decimal};
ghost use Rattle.list_text.specs.References.{place_text};
ghost use Rattle.list_text.specs.Pieces.{Puts};

use itoa::Buffer;
use le_bytes::{Name, Place, put32};
use map_list::{address_digits, name_text};

/// The most segments that are resident: all that a member may have.
pub const MOST_RESIDENT: usize = 255;

/// The most bytes of one store.
pub const MOST_STORED: usize = 256;

/// The most bytes of the line of an event: WHERE, a blank and at most three digits for each segment, and the
/// line feed.
pub const LONGEST_EVENT_LINE: usize = 5 + 4 * MOST_RESIDENT + 1;

/// A buffer for the line of an event.
pub(crate) type LineBuffer = [u8; LONGEST_EVENT_LINE];

/// The least number that six hexadecimal digits do not hold.
const SEVEN_DIGITS: u32 = 0x0100_0000;

/// Puts a text at place `at`; the answer is the place after it.
pub(crate) fn put(line: &mut LineBuffer, at: usize, text: &[u8]) -> usize
    requires { at + length text.now ≤ LONGEST_EVENT_LINE }
    ensures { Puts line.old at text.now line.new result }
{
    let end = at + text.len();
    line[at..end].copy_from_slice(text);
    end
}

/// Puts a name at place `at`; the answer is the place after it.
pub(crate) fn put_name(line: &mut LineBuffer, at: usize, name: &Name) -> usize
    requires { at + 8 ≤ LONGEST_EVENT_LINE }
    ensures puts { Puts line.old at (printed_name name.now) line.new result }
    ensures short { result ≤ at + 8 }
{
    let (text, written) = name_text(name);
    put(line, at, &text[..written])
}

/// Puts an address at place `at`; the answer is the place after it.
#[tactic(auto, unfolding(map_list::specs::Printed::a6))]
pub(crate) fn put_address(line: &mut LineBuffer, at: usize, address: u32) -> usize
    requires { at + 8 ≤ LONGEST_EVENT_LINE }
    ensures puts { Puts line.old at (a6 address) line.new result }
    ensures short { result ≤ at + 8 }
{
    if address < SEVEN_DIGITS {
        put(line, at, &address_digits(address))
    } else {
        let mut bytes = [0; 4];
        put32(&mut bytes, 0, address);
        put_bytes(line, at, &bytes)
    }
}

/// Puts a number at place `at`; the answer is the place after it.
pub(crate) fn put_number(line: &mut LineBuffer, at: usize, n: u8) -> usize
    requires { at + 3 ≤ LONGEST_EVENT_LINE }
    ensures puts { Puts line.old at (decimal n) line.new result }
    ensures short { result ≤ at + 3 }
{
    let mut digits = Buffer::new();
    put(line, at, digits.format(n).as_bytes())
}

/// Puts bytes, two hexadecimal digits each, at place `at`; the answer is the place after them.
pub(crate) fn put_bytes(line: &mut LineBuffer, at: usize, b: &[u8]) -> usize
    requires { at + 2 * length b.now ≤ LONGEST_EVENT_LINE }
    ensures puts { Puts line.old at (encode_lower b.now) line.new result }
    ensures size { result ≡ at + 2 * length b.now }
{
    let end = at + 2 * b.len();
    hex::encode_to_slice(b, &mut line[at..end]).unwrap();
    end
}

/// Puts a place in a section at place `at`; the answer is the place after it.
pub(crate) fn put_place(line: &mut LineBuffer, at: usize, place: &Place) -> usize
    requires { at + 17 ≤ LONGEST_EVENT_LINE }
    ensures puts { Puts line.old at (place_text place.now.section place.now.offset) line.new result }
    ensures short { result ≤ at + 17 }
{
    let at = put_name(line, at, &place.section);
    let at = put(line, at, b"+");
    put_address(line, at, place.offset)
}
