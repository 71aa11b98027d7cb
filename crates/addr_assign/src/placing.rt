//! The places of sections and tables, by the origins of segments.
ghost use Rattle.std.specs.Prelude.{◌≡◌, ◌+◌, ◌-◌, ◌≤◌, [], length, map, take, slice_set, slice_index_or, All, IfOk, IsTrue};
ghost use Rattle.std.specs.List.{list_all, range_with_len};
ghost use Rattle.sym_mod.specs.Sound.{IsSoundSection};
ghost use Rattle.linking_model.specs.Numbers.{round8, greatest};
ghost use Rattle.addr_assign.specs.Laid.{is_in_tree};
ghost use Rattle.addr_assign.specs.Sizes.{sizes_of};
ghost use Rattle.addr_assign.specs.Reach.{next_place, segment_at};

use crate::measuring::head_length;
use le_bytes::{Items, Memory, round8};
use seg_tree::SegTree;
use std::alloc::Global;
use std::cmp::max;
use sym_mod::Section;

/// The addresses of sections, and of the tables of segments.
#[derive(Drop)]
pub(crate) struct Placed {
    pub(crate) sections: Vec<u64>,
    pub(crate) tables: Vec<u64>,
}

/// The addresses of all sections, and of the table of each segment, segment 1 first.
///
/// # Errors
/// Want of memory.
pub(crate) fn addresses(
    alloc: Global,
    sections: &[Section],
    t: &SegTree,
    origins: &[u64],
) -> Result<Placed, Memory>
    requires few { length sections.now ≤ 32511 }
    requires sound { All IsSoundSection sections.now }
    requires in_tree { IsTrue (list_all (is_in_tree t.now.tree) sections.now) }
    requires each { length origins.now ≡ length t.now.tree }
    requires bounded { All (λ n. n ≤ 4503599627370496) origins.now }
    ensures sections { IfOk result (λ a. a.sections.items ≡ map (λ i. next_place t.now.tree origins.now (take i sections.now) (segment_at sections.now i)) (range_with_len 0 (length sections.now))) }
    ensures tables { IfOk result (λ a. a.tables.items ≡ map (next_place t.now.tree origins.now sections.now) (range_with_len 1 (length t.now.tree))) }
{
    let count = t.count();
    let mut next = starts(alloc, t, count, origins)?;
    let mut places = Vec::with_capacity(alloc, sections.len())?;
    for x in sections {
        places.push(take_room(&mut next, x))?;
    }
    Ok(Placed {
        sections: places,
        tables: next,
    })
}

/// Gives a section the next place in its segment.
fn take_room(next: &mut Vec<u64>, x: &Section) -> u64
    requires low { 1 ≤ x.now.segment }
    requires high { x.now.segment ≤ length next.old.items }
    requires size { x.now.length ≤ 16777215 }
    requires bounded { slice_index_or next.old.items (x.now.segment - 1) 0 ≤ 9007199254740992 }
    ensures place { result ≡ slice_index_or next.old.items (x.now.segment - 1) 0 }
    ensures next { next.new.items ≡ slice_set next.old.items (x.now.segment - 1) (slice_index_or next.old.items (x.now.segment - 1) 0 + round8 x.now.length) }
{
    let at = x.segment as usize - 1;
    let place = next[at];
    next[at] = place + round8(x.length as u64);
    place
}

/// Where the first section of each segment begins.
fn starts(alloc: Global, t: &SegTree, count: u8, origins: &[u64]) -> Result<Vec<u64>, Memory>
    requires count { count ≡ length t.now.tree }
    requires each { length origins.now ≡ length t.now.tree }
    requires bounded { All (λ n. n ≤ 4503599627370496) origins.now }
    ensures { IfOk result (λ starts. starts.items ≡ map (next_place t.now.tree origins.now []) (range_with_len 1 (length t.now.tree))) }
{
    let mut starts = Vec::with_capacity(alloc, count as usize)?;
    for i in 0..count {
        starts.push(origins[i as usize] + round8(head_length(count, i + 1)))?;
    }
    Ok(starts)
}

/// The end of each segment, segment 1 first.
///
/// # Errors
/// Want of memory.
pub(crate) fn ends(alloc: Global, origins: &[u64], sizes: &[u64]) -> Result<Vec<u64>, Memory>
    requires each { length sizes.now ≡ length origins.now }
    requires origins { All (λ n. n ≤ 4503599627370496) origins.now }
    requires sizes { All (λ n. n ≤ 2199023255552) sizes.now }
    ensures { IfOk result (λ ends. ends.items ≡ map (λ s. sizes_of origins.now s + sizes_of sizes.now s) (range_with_len 1 (length origins.now))) }
{
    let mut ends = Vec::with_capacity(alloc, origins.len())?;
    for i in 0..origins.len() {
        ends.push(origins[i] + sizes[i])?;
    }
    Ok(ends)
}

/// The greatest of the numbers, 0 where there is none.
pub(crate) fn greatest(numbers: &[u64]) -> u64
    ensures { result ≡ greatest numbers.now }
{
    let mut most = 0;
    for n in numbers {
        most = max(most, *n);
    }
    most
}

/// The numbers in four bytes each.
///
/// # Errors
/// Want of memory.
pub(crate) fn narrowed(alloc: Global, numbers: &[u64]) -> Result<Items<u32>, Memory>
    requires { All (λ n. n ≤ 4194311) numbers.now }
    ensures { IfOk result (λ narrow. narrow ≡ numbers.now) }
{
    let mut narrow = Vec::with_capacity(alloc, numbers.len())?;
    for n in numbers {
        narrow.push(*n as u32)?;
    }
    Ok(Items::from_vec(narrow))
}
