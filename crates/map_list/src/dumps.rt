//! Dumps of storage.
ghost use Rattle.std.specs.Prelude.{◌≡◌, ◌+◌, ◌*◌, ◌^◌, ◌<◌, ◌≤◌, ◌++◌, length, take, drop, OnOk};
ghost use Rattle.map_list.specs.Dumps.{dump_line, dump_text};

use crate::printed::address_digits;
use le_bytes::Memory;

/// The line of 1 to 16 bytes, the first of which stands at `address`, which is at most 16,777,215: the
/// address in six hexadecimal digits, a blank, the bytes in two digits each, and a line feed. The answer
/// is the length of the line, which `out` begins with; the rest of `out` stays.
#[tactic(auto, unfolding(crate::specs::Dumps::dump_line))]
pub fn dump_line(address: u32, b: &[u8], out: &mut [u8; 40]) -> usize
    requires low { address < 2 ^ 24 }
    requires some { 0 < length b.now }
    requires few { length b.now ≤ 16 }
    ensures text { take result out.new ≡ dump_line address b.now }
    ensures rest { drop result out.new ≡ drop result out.old }
    ensures size { result ≡ 8 + 2 * length b.now }
{
    let end = 7 + 2 * b.len();
    out[..6].copy_from_slice(&address_digits(address));
    out[6] = b' ';
    hex::encode_to_slice(b, &mut out[7..end]).unwrap();
    out[end] = b'\n';
    end + 1
}

/// Puts the dump of a range at the end of `out`: a line for each 16 bytes from its start, and a shorter
/// last one; nothing where the range is empty. The first byte stands at `address`, and the last one at no
/// more than 16,777,215. After want of memory a part of the dump may stand there.
///
/// # Errors
/// Want of memory.
#[tactic(auto, unfolding(crate::specs::Dumps::dump_text))]
pub fn push_dump(out: &mut Vec<u8>, address: u32, b: &[u8]) -> Result<(), Memory>
    requires { address + length b.now ≤ 2 ^ 24 }
    ensures { OnOk result (out.new.items ≡ out.old.items ++ dump_text address b.now) }
{
    for k in 0..b.len().div_ceil(16) {
        let at = 16 * k;
        let end = b.len().min(at + 16);
        push_dump_line(out, address + at as u32, &b[at..end])?;
    }
    Ok(())
}

fn push_dump_line(out: &mut Vec<u8>, address: u32, b: &[u8]) -> Result<(), Memory>
    requires low { address < 2 ^ 24 }
    requires some { 0 < length b.now }
    requires few { length b.now ≤ 16 }
    ensures { OnOk result (out.new.items ≡ out.old.items ++ dump_line address b.now) }
{
    let mut line = [0; 40];
    let written = dump_line(address, b, &mut line);
    out.extend_from_slice(&line[..written])?;
    Ok(())
}
