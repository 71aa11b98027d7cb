//! The addresses by which calls go.
ghost use Rattle.std.specs.Prelude.{◌≡◌, ◌≤◌, length, position, if◌then◌else◌};
ghost use Rattle.sym_mod.specs.Sound.{IsSymbolOf};
ghost use Rattle.linking_model.specs.Linked.{address_of, branch_address, entry_address};
ghost use Rattle.linking_model.specs.Tables.{target_eq, is_direct};
ghost use Rattle.linking_model.specs.Tree.{IsTree};
ghost use Rattle.relocate.specs.Listed.{table_of, listing, if_listed};
ghost use Rattle.relocate.specs.Ready.{AreSmall, FitTogether, IsDefinedIn, laid};
ghost use Rattle.relocate.specs.Relocated.{placed_at};

use crate::addresses::{address_of, segment_of, table_at};
use seg_tree::SegTree;
use sym_mod::{Places, Program, Tables, Target};

/// What a branch constant in a segment becomes: the address of its symbol where that stands in the
/// segment or above it, else the address of the symbol's entry, and 0 where it is unresolved.
/// As many steps as the path has segments.
pub(crate) fn branch_address(
    p: &Program,
    a: &Places,
    tree: &SegTree,
    t: &Tables,
    segment: u8,
    target: Target,
) -> u32
    requires small { AreSmall p.now a.now }
    requires fit { FitTogether (laid p.now tree.now t.now) a.now }
    requires first { 1 ≤ segment }
    requires last { segment ≤ length tree.now.tree }
    requires symbol { IsSymbolOf p.now target }
    ensures { result ≡ branch_address (laid p.now tree.now t.now) (placed_at a.now) segment target }
{
    match target {
        Target::Unresolved(_) => 0,
        Target::Section(_) | Target::Label(_) => called_address(p, a, tree, t, segment, target),
        Target::Register(_) | Target::Total => 0,
    }
}

fn called_address(
    p: &Program,
    a: &Places,
    tree: &SegTree,
    t: &Tables,
    segment: u8,
    target: Target,
) -> u32
    requires small { AreSmall p.now a.now }
    requires fit { FitTogether (laid p.now tree.now t.now) a.now }
    requires first { 1 ≤ segment }
    requires last { segment ≤ length tree.now.tree }
    requires symbol { IsDefinedIn p.now target }
    ensures { result ≡ (if is_direct p.now tree.now.tree segment target
        then address_of p.now (placed_at a.now) target
        else entry_address (laid p.now tree.now t.now) (placed_at a.now) segment target) }
{
    if tree.on_path(segment_of(p, target), segment) {
        address_of(p, a, target)
    } else {
        entry_address(p, a, tree, t, segment, target)
    }
}

/// The address of the entry by which a branch constant in a segment goes.
fn entry_address(
    p: &Program,
    a: &Places,
    tree: &SegTree,
    t: &Tables,
    segment: u8,
    target: Target,
) -> u32
    requires fit { FitTogether (laid p.now tree.now t.now) a.now }
    requires first { 1 ≤ segment }
    requires last { segment ≤ length tree.now.tree }
    requires symbol { IsDefinedIn p.now target }
    ensures { result ≡ entry_address (laid p.now tree.now t.now) (placed_at a.now) segment target }
{
    let holder = holder(tree, t, segment, target).unwrap_or(0);
    let entry = place_in(entries_of(t, holder), target).unwrap_or(0);
    table_at(a, holder) + 8 + 12 * entry as u32
}

/// The segment nearest the root, of those on the path of a segment, whose table has the target.
fn holder(tree: &SegTree, t: &Tables, segment: u8, target: Target) -> Option<u8>
    requires tree { IsTree tree.now.tree }
    requires first { 1 ≤ segment }
    requires last { segment ≤ length tree.now.tree }
    ensures { result ≡ listing tree.now.tree t.now.entries segment target }
{
    match tree.parent(segment) {
        Some(parent) => match holder(tree, t, parent, target) {
            Some(above) => Some(above),
            None => listed(t, segment, target),
        },
        None => listed(t, segment, target),
    }
}

/// The segment, where its table has the target.
fn listed(t: &Tables, segment: u8, target: Target) -> Option<u8>
    ensures { result ≡ if_listed t.now.entries target segment }
{
    match place_in(entries_of(t, segment), target) {
        Some(_) => Some(segment),
        None => None,
    }
}

/// The targets in the table of a segment.
pub(crate) fn entries_of(t: &Tables, segment: u8) -> &[Target]
    ensures { result.now ≡ table_of t.now.entries segment }
{
    match t.entries.get(segment.saturating_sub(1) as usize) {
        Some(entries) => entries.as_slice(),
        None => &[],
    }
}

/// The place of a target in a table.
fn place_in(entries: &[Target], target: Target) -> Option<usize>
    ensures { result ≡ position (target_eq target) entries.now }
{
    entries.iter().position(|x| is_same(target, *x))
}

fn is_same(x: Target, y: Target) -> bool
    ensures { result ≡ target_eq x y }
{
    match (x, y) {
        (Target::Section(i), Target::Section(j)) => i == j,
        (Target::Label(i), Target::Label(j)) => i == j,
        (Target::Unresolved(i), Target::Unresolved(j)) => i == j,
        (Target::Register(i), Target::Register(j)) => i == j,
        (Target::Total, Target::Total) => true,
        _ => false,
    }
}
