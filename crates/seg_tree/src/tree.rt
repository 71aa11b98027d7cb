//! The tree of segments and the symbols at which they begin.
ghost use Rattle.std.specs.Prelude.{◌≡◌, ◌+◌, max, ◌++◌, ◌∷◌, [], length, IfOk, OnOk, OnErr, position, option_map, ◌==◌, if◌then◌else◌, Some, None};
ghost use Rattle.linking_model.specs.Tree.{plain, overlay_fault, first_of, next_segment, overlaid, IsTree, IsSmall, is_on_path, lowest_common, parent_of, region_of, regions};
ghost use Rattle.le_bytes.specs.Names.{name_eq};
ghost use Rattle.seg_tree.specs.Answers.{OverlayAnswer, told};

use crate::node::{Node, hang, parent_in, path_has, region_in};
use le_bytes::{Memory, Name};
use linking_model::Segment;
use std::alloc::{AllocError, Global};
use std::cmp::max;
use std::marker::Model;

/// The greatest number of segments of a program.
const MOST_SEGMENTS: u8 = 255;
/// The greatest number of regions of a program.
const MOST_REGIONS: u8 = 4;

/// Why OVERLAY begins no segment. The limits are this project's profile.
#[derive(Clone, Copy, Debug, PartialEq, Eq)]
pub enum TreeFault {
    /// REGION at a symbol that was used before.
    RegionNameUsed(Name),
    /// This many regions; there are at most 4.
    TooManyRegions(u64),
    /// This many segments; there are at most 255.
    TooManySegments(u64),
    Memory,
}

/// The segments of a program, numbered from 1, the root, in the order in which they begin, and the
/// symbols at which they begin. Contracts see the list of segments, the last begun first, and the
/// symbols.
#[derive(Drop)]
pub struct SegTree {
    root: Box<Node>,
    symbols: Vec<Name>,
    count: u8,
    regions: u8,
}

impl Model for SegTree {
    ghost use Rattle.std.specs.Prelude.{◌≡◌, ◌≤◌, ◌<◌, ◌+◌, ℕ, length, None};
    ghost use Rattle.linking_model.specs.Tree.{Overlays, IsTree, IsSmall, path};
    ghost use Rattle.seg_tree.specs.Nodes.{begun, Holds};

    ghost Value = { Overlays };

    ghost view = { λ t. record { tree = begun t.root.value t.count; symbols = t.symbols.items } };

    ghost invariant = { λ t. Holds t.root.value t.count t.regions (begun t.root.value t.count) t.symbols.items };
}

impl SegTree {
    /// The root alone.
    ///
    /// # Errors
    /// Want of memory.
    #[tactic(auto, using(crate::proofs::Growing::root_holds))]
    pub fn root(alloc: Global) -> Result<SegTree, Memory>
        ensures { IfOk result (λ tree. tree ≡ plain) }
    {
        let root = Box::new(
            alloc,
            Node {
                number: 1,
                region: 1,
                first: None,
                next: None,
            },
        )?;
        Ok(SegTree {
            root,
            symbols: Vec::new(alloc),
            count: 1,
            regions: 1,
        })
    }

    /// The number of segments, which is that of the segment begun last.
    pub fn count(&self) -> u8
        ensures count { result ≡ length self.now.tree }
        ensures symbols { length self.now.tree ≡ length self.now.symbols + 1 }
        ensures tree { IsTree self.now.tree }
        ensures small { IsSmall self.now.tree }
    {
        self.count
    }

    /// The segment begun last.
    pub fn current(&self) -> u8
        ensures count { result ≡ length self.now.tree }
        ensures symbols { length self.now.tree ≡ length self.now.symbols + 1 }
        ensures tree { IsTree self.now.tree }
        ensures small { IsSmall self.now.tree }
    {
        self.count
    }

    /// The number of regions.
    pub fn regions(&self) -> u8
        ensures { result ≡ regions self.now.tree }
    {
        self.regions
    }

    /// Whether segment `a` is segment `b` or above it. Of numbers that no segment has it is not.
    #[tactic(auto, using(crate::proofs::Growing::on_path_found))]
    pub fn on_path(&self, a: u8, b: u8) -> bool
        ensures { result ≡ is_on_path self.now.tree a b }
    {
        path_has(&self.root, a, b, false).unwrap_or(false)
    }

    /// The parent of a segment. None exactly for the root and for a number that no segment has.
    pub fn parent(&self, a: u8) -> Option<u8>
        ensures { result ≡ (if parent_of self.now.tree a == 0 then None else Some (parent_of self.now.tree a)) }
    {
        match self.above(a) {
            0 => None,
            parent => Some(parent),
        }
    }

    /// The region of a segment, and 0 for a number that no segment has.
    #[tactic(auto, using(crate::proofs::Growing::region_found))]
    pub fn region(&self, a: u8) -> u8
        ensures { result ≡ region_of self.now.tree a }
    {
        region_in(&self.root, a).unwrap_or(0)
    }

    /// The parent of a segment; 0 for the root and for a number that no segment has.
    #[tactic(auto, using(crate::proofs::Growing::parent_found))]
    fn above(&self, a: u8) -> u8
        ensures { result ≡ parent_of self.now.tree a }
    {
        parent_in(&self.root, 0, a).unwrap_or(0)
    }

    /// The lowest segment that is on the paths of `a` and of `b`; the root, where there is none.
    #[tactic(auto, using(crate::proofs::Lowest::common_out, crate::proofs::Lowest::common_up, crate::proofs::Lowest::common_here, crate::proofs::Lowest::common_root, crate::proofs::Lowest::parent_below))]
    pub fn common(&self, a: u8, b: u8) -> u8
        ensures { result ≡ lowest_common self.now.tree (a ∷ b ∷ []) }
    {
        if a > self.count() {
            return 1;
        }
        let mut on = a;
        while on > 1 {
            if self.on_path(on, b) {
                return on;
            }
            on = self.above(on);
        }
        1
    }

    /// Begins a segment at a symbol: beside the first one of that symbol if it was used, with `region`
    /// below the root in the next region, and else below the current segment. The answer is its number.
    ///
    /// # Errors
    /// The first of the faults that there is, in the order of `TreeFault`, and want of memory; the tree
    /// is then as before.
    #[tactic(auto, using(crate::proofs::Growing::fault_answer, crate::proofs::Growing::no_fault))]
    pub fn overlay(&mut self, alloc: Global, point: &Name, region: bool) -> Result<u8, TreeFault>
        ensures { OverlayAnswer self.old point.now region result self.new }
    {
        match self.fault(point, region) {
            Some(fault) => Err(fault),
            None => self.begin_at(alloc, point, region),
        }
    }

    /// Begins the segment of an OVERLAY statement that has no fault.
    #[tactic(auto, unfolding(linking_model::specs::Tree::overlaid))]
    fn begin_at(&mut self, alloc: Global, point: &Name, region: bool) -> Result<u8, TreeFault>
        requires { overlay_fault self.old point.now region ≡ None }
        ensures { OverlayAnswer self.old point.now region result self.new }
    {
        let next = self.next(point, region);
        if self.begin(alloc, point, next).is_err() {
            return Err(TreeFault::Memory);
        }
        Ok(self.count())
    }

    fn next(&self, point: &Name, region: bool) -> Segment
        requires { overlay_fault self.now point.now region ≡ None }
        ensures next { result ≡ next_segment self.now.tree region (first_of self.now.symbols point.now) }
        ensures tree { IsTree (result ∷ self.now.tree) }
        ensures small { IsSmall (result ∷ self.now.tree) }
    {
        let current = self.count();
        self.next_segment(self.first_of(point), region, current)
    }

    #[tactic(auto, unfolding(linking_model::specs::Tree::overlay_fault))]
    fn fault(&self, point: &Name, region: bool) -> Option<TreeFault>
        ensures { result ≡ option_map told (overlay_fault self.now point.now region) }
    {
        if region && self.first_of(point).is_some() {
            return Some(TreeFault::RegionNameUsed(*point));
        }
        if region && self.regions >= MOST_REGIONS {
            return Some(TreeFault::TooManyRegions(self.regions as u64 + 1));
        }
        if self.count >= MOST_SEGMENTS {
            return Some(TreeFault::TooManySegments(self.count as u64 + 1));
        }
        None
    }

    /// The first segment that began at the symbol.
    #[tactic(auto, using(crate::proofs::Growing::place_within))]
    fn first_of(&self, point: &Name) -> Option<u8>
        ensures { result ≡ first_of self.now.symbols point.now }
    {
        match place_of(self.symbols.as_slice(), point) {
            Some(at) => Some(at as u8 + 2),
            None => None,
        }
    }

    fn next_segment(&self, first: Option<u8>, region: bool, current: u8) -> Segment
        requires { current ≡ length self.now.tree }
        ensures { result ≡ next_segment self.now.tree region first }
    {
        match first {
            Some(first) => Segment {
                parent: self.above(first),
                region: self.region(first),
            },
            None => self.segment_below(region, current),
        }
    }

    fn segment_below(&self, region: bool, current: u8) -> Segment
        requires { current ≡ length self.now.tree }
        ensures { result ≡ next_segment self.now.tree region None }
    {
        if region {
            Segment {
                parent: 1,
                region: self.regions + 1,
            }
        } else {
            Segment {
                parent: current,
                region: self.region(current),
            }
        }
    }

    /// Begins a segment. After want of memory the tree is as before.
    fn begin(&mut self, alloc: Global, point: &Name, next: Segment) -> Result<(), AllocError>
        requires tree { IsTree (next ∷ self.old.tree) }
        requires small { IsSmall (next ∷ self.old.tree) }
        ensures ok { OnOk result (self.new ≡ record { tree = next ∷ self.old.tree; symbols = self.old.symbols ++ point.now ∷ [] }) }
        ensures err { OnErr result (self.new ≡ self.old) }
    {
        let number = self.count + 1;
        self.symbols.push(*point)?;
        match hang(alloc, &mut self.root, next.parent, number, next.region) {
            Ok(_) => {
                self.count = number;
                self.regions = higher(self.regions, next.region);
                Ok(())
            }
            Err(refused) => {
                self.symbols.pop();
                Err(refused)
            }
        }
    }
}

fn place_of(symbols: &[Name], point: &Name) -> Option<usize>
    ensures { result ≡ position (λ x. name_eq x point.now) symbols.now }
{
    symbols.iter().position(|x| x == point)
}

fn higher(a: u8, b: u8) -> u8
    ensures { result ≡ max a b }
{
    max(a, b)
}
