//! Where segments begin, by their sizes.
ghost use Rattle.std.specs.Prelude.{◌≡◌, ◌≤◌, ◌<◌, ◌+◌, ◌*◌, ◌-◌, length, map, All, IfOk, max};
ghost use Rattle.std.specs.List.{range_with_len};
ghost use Rattle.linking_model.specs.Numbers.{round8, greatest};
ghost use Rattle.linking_model.specs.Tree.{IsTree, IsSmall, region_of};
ghost use Rattle.linking_model.specs.Places.{depth, ends_from, region_start, origin_by};
ghost use Rattle.addr_assign.specs.Sizes.{sizes_of, end_among};

use le_bytes::{Memory, round8};
use seg_tree::SegTree;
use std::alloc::Global;
use std::cmp::max;

/// One more than the greatest number of a region.
const REGIONS: u8 = 5;

/// The origin of each segment, in bytes from the module's, segment 1 first; `sizes` has their sizes.
/// Each segment is looked up in the tree, so the work grows as the square of their number, which is
/// at most 255.
///
/// # Errors
/// Want of memory.
pub(crate) fn origins(alloc: Global, t: &SegTree, sizes: &[u64]) -> Result<Vec<u64>, Memory>
    requires few { length sizes.now ≡ length t.now.tree }
    requires bounded { All (λ n. n ≤ 2199023255552) sizes.now }
    ensures value { IfOk result (λ origins. origins.items ≡ map (origin_by t.now.tree (sizes_of sizes.now)) (range_with_len 1 (length t.now.tree))) }
    ensures bounded { IfOk result (λ origins. All (λ n. n ≤ 4503599627370496) origins.items) }
{
    let count = t.count();
    let depths = depths(alloc, t, sizes, count)?;
    let starts = region_starts(alloc, t, sizes, depths.as_slice(), count)?;
    let mut origins = Vec::new(alloc);
    for i in 0..count {
        origins.push(origin(t, starts.as_slice(), depths.as_slice(), sizes, i + 1))?;
    }
    Ok(origins)
}

fn origin(t: &SegTree, starts: &[u64], depths: &[u64], sizes: &[u64], s: u8) -> u64
    requires tree { IsTree t.now.tree }
    requires small { IsSmall t.now.tree }
    requires low { 1 ≤ s }
    requires high { s ≤ length t.now.tree }
    requires bounded { All (λ n. n ≤ 2199023255552) sizes.now }
    requires starts { starts.now ≡ map (region_start t.now.tree (sizes_of sizes.now)) (range_with_len 0 5) }
    requires depths { depths.now ≡ map (depth t.now.tree (sizes_of sizes.now)) (range_with_len 1 (length t.now.tree)) }
    ensures { result ≡ origin_by t.now.tree (sizes_of sizes.now) s }
{
    starts[t.region(s) as usize] + of_segment(depths, s)
}

/// How far the origin of each segment is from where its region starts.
fn depths(alloc: Global, t: &SegTree, sizes: &[u64], count: u8) -> Result<Vec<u64>, Memory>
    requires tree { IsTree t.now.tree }
    requires few { length sizes.now ≡ length t.now.tree }
    requires count { count ≡ length t.now.tree }
    requires bounded { All (λ n. n ≤ 2199023255552) sizes.now }
    ensures { IfOk result (λ depths. depths.items ≡ map (depth t.now.tree (sizes_of sizes.now)) (range_with_len 1 (length t.now.tree))) }
{
    let mut depths = Vec::new(alloc);
    for i in 0..count {
        let depth = depth(t, sizes, depths.as_slice(), i + 1);
        depths.push(depth)?;
    }
    Ok(depths)
}

/// The depth of a segment after those before it: past its parent, if that is in its region.
fn depth(t: &SegTree, sizes: &[u64], depths: &[u64], s: u8) -> u64
    requires tree { IsTree t.now.tree }
    requires few { length sizes.now ≡ length t.now.tree }
    requires short { length t.now.tree ≤ 255 }
    requires low { 1 ≤ s }
    requires high { s ≤ length t.now.tree }
    requires bounded { All (λ n. n ≤ 2199023255552) sizes.now }
    requires before { depths.now ≡ map (depth t.now.tree (sizes_of sizes.now)) (range_with_len 1 (s - 1)) }
    ensures { result ≡ depth t.now.tree (sizes_of sizes.now) s }
{
    let Some(parent) = t.parent(s) else {
        return 0;
    };
    if t.region(parent) == t.region(s) {
        round8(of_segment(sizes, parent)) + of_segment(depths, parent)
    } else {
        0
    }
}

/// Where each region starts, from region 0, that no segment is in.
fn region_starts(
    alloc: Global,
    t: &SegTree,
    sizes: &[u64],
    depths: &[u64],
    count: u8,
) -> Result<Vec<u64>, Memory>
    requires few { length sizes.now ≡ length t.now.tree }
    requires count { count ≡ length t.now.tree }
    requires short { length t.now.tree ≤ 255 }
    requires bounded { All (λ n. n ≤ 2199023255552) sizes.now }
    requires depths { depths.now ≡ map (depth t.now.tree (sizes_of sizes.now)) (range_with_len 1 (length t.now.tree)) }
    ensures { IfOk result (λ starts. starts.items ≡ map (region_start t.now.tree (sizes_of sizes.now)) (range_with_len 0 5)) }
{
    let mut starts = Vec::new(alloc);
    let mut start = 0;
    for region in 0..REGIONS {
        starts.push(start)?;
        start = greater(
            start,
            round8(greatest_end(t, sizes, depths, count, start, region)),
        );
    }
    Ok(starts)
}

/// The greatest end of the segments of a region that starts there.
fn greatest_end(
    t: &SegTree,
    sizes: &[u64],
    depths: &[u64],
    count: u8,
    start: u64,
    region: u8,
) -> u64
    requires few { length sizes.now ≡ length t.now.tree }
    requires count { count ≡ length t.now.tree }
    requires short { length t.now.tree ≤ 255 }
    requires bounded { All (λ n. n ≤ 2199023255552) sizes.now }
    requires depths { depths.now ≡ map (depth t.now.tree (sizes_of sizes.now)) (range_with_len 1 (length t.now.tree)) }
    requires start { start ≤ 4503599627370496 }
    ensures { result ≡ greatest (ends_from t.now.tree (sizes_of sizes.now) start region) }
{
    let mut end = 0;
    for i in 0..count {
        end = later_end(t, sizes, depths, start, region, i + 1, end);
    }
    end
}

/// The greatest end with that of segment `s`, if this is in the region.
fn later_end(
    t: &SegTree,
    sizes: &[u64],
    depths: &[u64],
    start: u64,
    region: u8,
    s: u8,
    end: u64,
) -> u64
    requires few { length sizes.now ≡ length t.now.tree }
    requires short { length t.now.tree ≤ 255 }
    requires low { 1 ≤ s }
    requires high { s ≤ length t.now.tree }
    requires bounded { All (λ n. n ≤ 2199023255552) sizes.now }
    requires depths { depths.now ≡ map (depth t.now.tree (sizes_of sizes.now)) (range_with_len 1 (length t.now.tree)) }
    requires start { start ≤ 4503599627370496 }
    requires before { end ≡ end_among t.now.tree (sizes_of sizes.now) start region (s - 1) }
    ensures { result ≡ end_among t.now.tree (sizes_of sizes.now) start region s }
{
    if t.region(s) == region {
        greater(end, start + of_segment(depths, s) + of_segment(sizes, s))
    } else {
        end
    }
}

/// What the list has for segment `s`, segment 1 first.
#[tactic(auto, unfolding(crate::specs::Sizes::sizes_of))]
fn of_segment(list: &[u64], s: u8) -> u64
    requires low { 1 ≤ s }
    requires high { s ≤ length list.now }
    ensures { result ≡ sizes_of list.now s }
{
    list[s as usize - 1]
}

fn greater(a: u64, b: u64) -> u64
    ensures { result ≡ max a b }
{
    max(a, b)
}
