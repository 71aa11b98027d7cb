//! The sizes of segments.
ghost use Rattle.std.specs.Prelude.{◌≡◌, ◌+◌, ◌*◌, ◌-◌, ◌≤◌, ◌==◌, ◌&&◌, nat_lt, if◌then◌else◌, [], length, map, slice_set, slice_index_or, All, IfOk, IsTrue, None};
ghost use Rattle.std.specs.List.{list_all, range_with_len};
ghost use Rattle.sym_mod.specs.Sound.{IsSoundProgram, IsSoundSection};
ghost use Rattle.linking_model.specs.Numbers.{round8};
ghost use Rattle.linking_model.specs.Places.{size};
ghost use Rattle.linking_model.specs.Tables.{crowd_in};
ghost use Rattle.addr_assign.specs.Laid.{is_in_tree, are_in_tree};
ghost use Rattle.addr_assign.specs.Reach.{laid, reach, with_table, entries_at};

use le_bytes::{Memory, round8};
use seg_tree::SegTree;
use std::alloc::Global;
use sym_mod::{Program, Section, Tables};

/// The size of each segment in bytes, segment 1 first.
///
/// # Errors
/// Want of memory.
pub(crate) fn sizes(
    alloc: Global,
    p: &Program,
    t: &SegTree,
    tables: &Tables,
) -> Result<Vec<u64>, Memory>
    requires sound { IsSoundProgram p.now }
    requires in_tree { IsTrue (are_in_tree t.now.tree p.now) }
    requires few { crowd_in tables.now.entries 1 ≡ None }
    ensures value { IfOk result (λ sizes. sizes.items ≡ map (size (laid p.now t.now.tree tables.now.entries)) (range_with_len 1 (length t.now.tree))) }
    ensures bounded { IfOk result (λ sizes. All (λ n. n ≤ 2199023255552) sizes.items) }
{
    let count = t.count();
    let reaches = reaches(alloc, p.sections.as_slice(), t)?;
    let mut sizes = Vec::new(alloc);
    for i in 0..count as usize {
        sizes.push(with_table(reaches[i], entries_at(tables, i)))?;
    }
    Ok(sizes)
}

/// How far a segment reaches with its table.
#[tactic(auto, unfolding(crate::specs::Reach::with_table))]
fn with_table(reach: u64, entries: u64) -> u64
    requires reach { reach ≤ 1099511627776 }
    requires entries { entries ≤ 340 }
    ensures { result ≡ with_table reach entries }
{
    if entries == 0 {
        reach
    } else {
        round8(reach) + (12 * entries + 12)
    }
}

/// The number of entries in a table, and 0 past the last table.
#[tactic(auto, unfolding(crate::specs::Reach::entries_at))]
fn entries_at(tables: &Tables, i: usize) -> u64
    ensures { result ≡ entries_at tables.now.entries i }
{
    match tables.entries.get(i) {
        Some(table) => table.len() as u64,
        None => 0,
    }
}

/// How far each segment reaches without its table.
fn reaches(alloc: Global, sections: &[Section], t: &SegTree) -> Result<Vec<u64>, Memory>
    requires few { length sections.now ≤ 32511 }
    requires sound { All IsSoundSection sections.now }
    requires in_tree { IsTrue (list_all (is_in_tree t.now.tree) sections.now) }
    ensures { IfOk result (λ reaches. reaches.items ≡ map (reach t.now.tree sections.now) (range_with_len 1 (length t.now.tree))) }
{
    let count = t.count();
    let mut reaches = heads(alloc, t, count)?;
    for x in sections {
        put(&mut reaches, x);
    }
    Ok(reaches)
}

/// Puts a section behind what stands in its segment.
fn put(reaches: &mut Vec<u64>, x: &Section)
    requires low { 1 ≤ x.now.segment }
    requires high { x.now.segment ≤ length reaches.old.items }
    requires size { x.now.length ≤ 16777215 }
    requires bounded { slice_index_or reaches.old.items (x.now.segment - 1) 0 ≤ 1099511627776 }
    ensures { reaches.new.items ≡ slice_set reaches.old.items (x.now.segment - 1) (round8 (slice_index_or reaches.old.items (x.now.segment - 1) 0) + x.now.length) }
{
    let at = x.segment as usize - 1;
    reaches[at] = round8(reaches[at]) + x.length as u64;
}

/// How far each segment reaches before any section is put.
fn heads(alloc: Global, t: &SegTree, count: u8) -> Result<Vec<u64>, Memory>
    requires { count ≡ length t.now.tree }
    ensures { IfOk result (λ heads. heads.items ≡ map (reach t.now.tree []) (range_with_len 1 (length t.now.tree))) }
{
    let mut heads = Vec::new(alloc);
    for i in 0..count {
        heads.push(head_length(count, i + 1))?;
    }
    Ok(heads)
}

/// The length of `$SEGTAB`, which stands in the root of an overlay program.
pub(crate) fn head_length(count: u8, s: u8) -> u64
    ensures value { result ≡ (if nat_lt 1 count && s == 1 then 8 + 4 * count else 0) }
    ensures bounded { result ≤ 1028 }
{
    if count > 1 && s == 1 {
        8 + 4 * count as u64
    } else {
        0
    }
}
