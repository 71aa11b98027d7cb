//! The bytes of the overlay tables (this project's profile).
ghost use Rattle.std.specs.Prelude.{◌≡◌, ◌≤◌, [], ◌∷◌, ◌++◌, length, replicate};
ghost use Rattle.byteorder.specs.Endian.{big_bytes};
ghost use Rattle.linking_model.specs.Tree.{Tree, parent_of, region_of};
ghost use Rattle.linking_model.specs.Places.{segtab_length, entab_length};
ghost use Rattle.linking_model.specs.Linked.{address_of};
ghost use Rattle.linking_model.specs.Tables.{segment_of};
ghost use Rattle.linking_model.specs.TableBytes.{status_of, segtab_bytes, entry_bytes, entab_bytes};
ghost use Rattle.relocate.specs.Listed.{table_of};
ghost use Rattle.relocate.specs.Ready.{AreSmall};
ghost use Rattle.relocate.specs.Relocated.{placed_at};

use crate::addresses::{address_of, segment_of};
use crate::branches::entries_of;
use le_bytes::{put16, put32};
use seg_tree::SegTree;
use sym_mod::{Places, Program, Tables, Target};

/// The number of bytes before the rows of either table.
const HEAD: usize = 8;
/// The number of bytes that tell of a segment.
const ROW: usize = 4;
/// The number of bytes of an entry.
const ENTRY: usize = 12;
/// The status of a resident segment.
const RESIDENT: u8 = 0xFF;
/// Supervisor call 45, to which every entry branches.
const CALL: [u8; 4] = [0x0A, 0x2D, 0, 0];

/// Makes `out` the table of segments, of which segment 1 alone is resident. Each segment is looked up
/// in the tree, so the work grows as the square of their number, which is at most 255.
pub fn segtab_bytes(t: &SegTree, out: &mut [u8])
    requires { length out.old ≡ segtab_length t.now.tree }
    ensures { out.new ≡ segtab_bytes t.now.tree (1 ∷ []) }
{
    let count = t.count();
    out[..HEAD].copy_from_slice(&[count, t.regions(), 0, 0, 0, 0, 0, 0]);
    for i in 0..count {
        let at = HEAD + ROW * i as usize;
        out[at..at + ROW].copy_from_slice(&segment_row(t, i + 1));
    }
}

/// What the table of segments tells of a segment: its parent, its region and its status.
fn segment_row(t: &SegTree, s: u8) -> [u8; 4]
    ensures { result ≡ parent_of t.now.tree s ∷ region_of t.now.tree s ∷ status_of (1 ∷ []) s ∷ 0 ∷ [] }
{
    [t.parent(s).unwrap_or(0), t.region(s), status(s), 0]
}

fn status(s: u8) -> u8
    ensures { result ≡ status_of (1 ∷ []) s }
{
    if s == 1 { RESIDENT } else { 0 }
}

/// Makes `out` the table of entries of a segment, with the addresses of `a`. Linear in the entries.
pub fn entab_bytes(p: &Program, a: &Places, t: &Tables, seg: u8, out: &mut [u8])
    requires small { AreSmall p.now a.now }
    requires few { length (table_of t.now.entries seg) ≤ 340 }
    requires size { length out.old ≡ entab_length (length (table_of t.now.entries seg)) }

    // The bytes are the same whatever the tree.
    ensures { (tree : Tree) → out.new ≡ entab_bytes (record { program = p.now; tree = tree; entries = t.now.entries })
        (address_of p.now (placed_at a.now)) seg }
{
    let entries = entries_of(t, seg);
    let count = entries.len();
    put_head(&mut out[..HEAD], count);
    for i in 0..count {
        let at = HEAD + ENTRY * i;
        out[at..at + ENTRY].copy_from_slice(&target_entry(p, a, entries[i], count - i, seg));
    }
    let end = HEAD + ENTRY * count;
    out[end..].copy_from_slice(&CALL);
}

/// Writes the number of entries and six zeros.
fn put_head(head: &mut [u8], count: usize)
    requires size { length head.old ≡ 8 }
    requires few { count ≤ 340 }
    ensures { head.new ≡ big_bytes 2 count ++ replicate 6 0 }
{
    let mut bytes = [0; HEAD];
    put16(&mut bytes, 0, count as u32);
    head.copy_from_slice(&bytes);
}

/// The entry of a target in the table of a segment; `left` is the number of entries from it on.
fn target_entry(p: &Program, a: &Places, target: Target, left: usize, seg: u8) -> [u8; 12]
    requires small { AreSmall p.now a.now }
    requires few { left ≤ 340 }
    ensures { result ≡ entry_bytes left 0 (address_of p.now (placed_at a.now) target) (segment_of p.now target) seg }
{
    entry_bytes(left, address_of(p, a, target), segment_of(p, target), seg)
}

/// A branch to the end of the table, the address, both segments and two zeros.
fn entry_bytes(left: usize, address: u32, to: u8, from: u8) -> [u8; 12]
    requires { left ≤ 340 }
    ensures { result ≡ entry_bytes left 0 address to from }
{
    let mut entry = [0x47, 0xF0, 0, 0, 0, 0, 0, 0, to, from, 0, 0];
    put16(&mut entry, 2, 0xF000 + (ENTRY * left) as u32);
    put32(&mut entry, 4, address);
    entry
}
