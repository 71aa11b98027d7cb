//! The parts of each segment, in the order of their addresses.
ghost use Rattle.std.specs.Prelude.{◌≡◌, ◌+◌, ◌<◌, ◌≤◌, [], ◌∷◌, ◌++◌, All, IfOk, length, map, replicate, get_or, slice_set};
ghost use Rattle.std.specs.List.{range_with_len};
ghost use Rattle.linking_model.specs.Run.{sections_in};
ghost use Rattle.relocate.specs.Ready.{StandsInTree, laid};
ghost use Rattle.member_model.specs.Parts.{parts_in};
ghost use Rattle.mod_parts.specs.Seen.{seen};
ghost use Rattle.mod_parts.specs.Gathered.{head_parts, table_parts, segment_parts, has_entries, IsSegmentTo};

use crate::part::Part;
use le_bytes::{Items, Memory};
use seg_tree::SegTree;
use std::alloc::{AllocError, Global};
use sym_mod::{Program, Section, Tables};

/// The parts of each segment, segment 1 first. Linear in sections and segments.
///
/// # Errors
/// Want of memory.
pub(crate) fn parts_by_segment(
    alloc: Global,
    p: &Program,
    tree: &SegTree,
    t: &Tables,
) -> Result<Items<Items<Part>>, Memory>
    requires few { length p.now.sections ≤ 32511 }
    requires in_tree { All (StandsInTree tree.now.tree) p.now.sections }
    ensures { IfOk result (λ segments. map (map seen) segments ≡ map (parts_in (laid p.now tree.now t.now)) (range_with_len 1 (length tree.now.tree))) }
{
    let count = tree.count();
    let sections = sections_by_segment(alloc, p, count)?;
    let mut segments = Items::new(alloc);
    for i in 0..count {
        let parts = segment_parts(
            alloc,
            i + 1,
            count,
            sections[i as usize].as_slice(),
            has_entries(t, i),
        )?;
        segments.push(Items::from_vec(parts))?;
    }
    Ok(segments)
}

/// Whether the table of the segment after `i` of them has entries.
fn has_entries(t: &Tables, i: u8) -> bool
    ensures { result ≡ has_entries t.now.entries (i + 1) }
{
    match t.entries.get(i as usize) {
        Some(entries) => !entries.is_empty(),
        None => false,
    }
}

/// The numbers of the sections of each segment, segment 1 first.
fn sections_by_segment(alloc: Global, p: &Program, count: u8) -> Result<Vec<Vec<u32>>, Memory>
    requires few { length p.now.sections ≤ 32511 }
    requires in_tree { All (IsSegmentTo count) p.now.sections }
    ensures { IfOk result (λ lists. map (λ v. v.items) lists.items ≡ map (sections_in p.now) (range_with_len 1 count)) }
{
    let mut lists = empty_lists(alloc, count)?;
    for (i, x) in p.sections.as_slice().iter().enumerate() {
        put(&mut lists, x.segment as usize - 1, i as u32)?;
    }
    Ok(lists)
}

fn empty_lists(alloc: Global, count: u8) -> Result<Vec<Vec<u32>>, AllocError>
    ensures { IfOk result (λ lists. map (λ v. v.items) lists.items ≡ replicate count []) }
{
    let mut lists = Vec::with_capacity(alloc, count as usize)?;
    for _ in 0..count {
        lists.push(Vec::new(alloc))?;
    }
    Ok(lists)
}

/// Puts a number at the end of a list.
fn put(lists: &mut Vec<Vec<u32>>, at: usize, number: u32) -> Result<(), AllocError>
    requires { at < length lists.old.items }
    ensures { IfOk result (λ _. map (λ v. v.items) lists.new.items
        ≡ slice_set (map (λ v. v.items) lists.old.items) at (get_or (map (λ v. v.items) lists.old.items) at [] ++ number ∷ [])) }
{
    lists[at].push(number)?;
    Ok(())
}

/// The parts of a segment: its table of segments, its sections and its table of entries.
fn segment_parts(
    alloc: Global,
    segment: u8,
    count: u8,
    sections: &[u32],
    has_entries: bool,
) -> Result<Vec<Part>, AllocError>
    requires { length sections.now ≤ 32511 }
    ensures { IfOk result (λ parts. map seen parts.items ≡ segment_parts segment count sections.now has_entries) }
{
    let mut parts = head_parts(alloc, segment, count, sections.len())?;
    for section in sections {
        parts.push(Part::Section(*section))?;
    }
    with_table(parts, segment, has_entries)
}

fn head_parts(
    alloc: Global,
    segment: u8,
    count: u8,
    sections: usize,
) -> Result<Vec<Part>, AllocError>
    requires { sections ≤ 32511 }
    ensures { IfOk result (λ parts. map seen parts.items ≡ head_parts segment count) }
{
    let mut parts = Vec::with_capacity(alloc, sections + 2)?;
    if count > 1 && segment == 1 {
        parts.push(Part::SegmentTable)?;
    }
    Ok(parts)
}

fn with_table(mut parts: Vec<Part>, segment: u8, has_entries: bool) -> Result<Vec<Part>, AllocError>
    ensures { IfOk result (λ all. map seen all.items ≡ map seen parts.items ++ table_parts segment has_entries) }
{
    if has_entries {
        parts.push(Part::EntryTable(segment))?;
    }
    Ok(parts)
}
