//! The lines of events, written without taking memory.
ghost use Rattle.std.specs.Prelude.{◌≡◌, ◌+◌, ◌*◌, ◌≤◌, ◌++◌, ℕ, length, map, take, drop, codes};
ghost use Rattle.map_list.specs.Printed.{decimal, fields};
ghost use Rattle.list_text.specs.Pieces.{Puts};
ghost use Rattle.list_text.specs.Events.{call_line, store_line, where_line, dump_head, Writes};

pub use crate::pieces::{LONGEST_EVENT_LINE, MOST_RESIDENT, MOST_STORED};
use crate::pieces::{put, put_address, put_bytes, put_name, put_number, put_place};
use le_bytes::{Name, Place};

/// Writes the line of a call through the constant at `place` to the front of `line`; `address` is what the
/// call reaches. The answer is the length of the line in bytes; the rest of `line` stays.
#[tactic(auto, unfolding(crate::specs::Events::call_line))]
pub fn call_line(place: &Place, address: u32, line: &mut [u8; LONGEST_EVENT_LINE]) -> usize
    ensures writes { Writes line.old (call_line place.now address) line.new result }
    ensures within { result ≤ LONGEST_EVENT_LINE }
{
    let at = put(line, 0, b"CALL ");
    let at = put_place(line, at, place);
    let at = put(line, at, b" = ");
    let at = put_address(line, at, address);
    put(line, at, b"\n")
}

/// Writes the line of a store of at most 256 bytes from `place` on to the front of `line`. The answer is the
/// length of the line in bytes; the rest of `line` stays.
#[tactic(auto, unfolding(crate::specs::Events::store_line))]
pub fn store_line(place: &Place, b: &[u8], line: &mut [u8; LONGEST_EVENT_LINE]) -> usize
    requires { length b.now ≤ MOST_STORED }
    ensures writes { Writes line.old (store_line place.now b.now) line.new result }
    ensures within { result ≤ LONGEST_EVENT_LINE }
{
    let at = put(line, 0, b"STORE ");
    let at = put_place(line, at, place);
    let at = put(line, at, b" ");
    let at = put_bytes(line, at, b);
    put(line, at, b"\n")
}

/// Writes the line of the resident segments, at most 255 of them, to the front of `line`, in the order
/// given. The answer is the length of the line in bytes; the rest of `line` stays.
#[tactic(auto, unfolding(crate::specs::Events::where_line))]
pub fn where_line(resident: &[u8], line: &mut [u8; LONGEST_EVENT_LINE]) -> usize
    requires { length resident.now ≤ MOST_RESIDENT }
    ensures writes { Writes line.old (where_line resident.now) line.new result }
    ensures within { result ≤ LONGEST_EVENT_LINE }
{
    let at = put(line, 0, b"WHERE");
    let at = put_numbers(line, at, resident);
    put(line, at, b"\n")
}

/// Puts numbers, a blank before each, at place `at`; the answer is the place after them.
fn put_numbers(line: &mut [u8; LONGEST_EVENT_LINE], at: usize, numbers: &[u8]) -> usize
    requires { at + 4 * length numbers.now ≤ LONGEST_EVENT_LINE }
    ensures puts { Puts line.old at (fields (map decimal numbers.now)) line.new result }
    ensures short { result ≤ at + 4 * length numbers.now }
{
    let mut end = at;
    for n in numbers {
        end = put(line, end, b" ");
        end = put_number(line, end, *n);
    }
    end
}

/// Writes the line before the dump of a section to the front of `line`. The answer is the length of the line
/// in bytes; the rest of `line` stays.
#[tactic(auto, unfolding(crate::specs::Events::dump_head))]
pub fn dump_head(section: &Name, line: &mut [u8; LONGEST_EVENT_LINE]) -> usize
    ensures writes { Writes line.old (dump_head section.now) line.new result }
    ensures within { result ≤ LONGEST_EVENT_LINE }
{
    let at = put(line, 0, b"DUMP ");
    let at = put_name(line, at, section);
    put(line, at, b"\n")
}
