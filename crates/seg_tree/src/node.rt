//! A segment with what stands below it and beside it.
ghost use Rattle.std.specs.Prelude.{◌≡◌, ◌≢◌, ◌==◌, ◌||◌, option_map, None, OnOk, OnErr};
ghost use Rattle.seg_tree.specs.Nodes.{found, parent_under, passes, found_in, BelowAnswer, HangAnswer, Hangs};
ghost use Rattle.seg_tree.specs.declared.node.Node.{out-Node};

use std::alloc::{AllocError, Global};

/// A segment: its number and region, the one below it that was begun last, and the one beside it
/// that was begun before it.
#[derive(Drop)]
pub(crate) struct Node {
    pub(crate) number: u8,
    pub(crate) region: u8,
    pub(crate) first: Option<Box<Node>>,
    pub(crate) next: Option<Box<Node>>,
}

/// The region of segment `s`, where it is found.
pub(crate) fn region_in(node: &Node, s: u8) -> Option<u8>
    ensures { result ≡ option_map (λ f. f.region) (found node.now s) }
{
    if node.number == s {
        return Some(node.region);
    }
    if let Some(first) = &node.first {
        if let Some(region) = region_in(first, s) {
            return Some(region);
        }
    }
    match &node.next {
        Some(next) => region_in(next, s),
        None => None,
    }
}

#[tactic(auto, using(crate::proofs::Finding::parent_beneath))]
/// The parent of segment `s`, where it is found: `above` for a segment beside this one.
pub(crate) fn parent_in(node: &Node, above: u8, s: u8) -> Option<u8>
    ensures { result ≡ option_map (parent_under above) (found node.now s) }
{
    if node.number == s {
        return Some(above);
    }
    if let Some(first) = &node.first {
        if let Some(parent) = parent_in(first, node.number, s) {
            return Some(parent);
        }
    }
    match &node.next {
        Some(next) => parent_in(next, above, s),
        None => None,
    }
}

#[tactic(auto, using(crate::proofs::Finding::passes_beneath, crate::proofs::Finding::passes_own, crate::proofs::Finding::row))]
/// Whether segment `a` is on the path of segment `s`, where that is found, or `passed` above this node.
pub(crate) fn path_has(node: &Node, a: u8, s: u8, passed: bool) -> Option<bool>
    ensures { result ≡ option_map (passes a s passed) (found node.now s) }
{
    if node.number == s {
        return Some(is_or(s, a, passed));
    }
    if let Some(first) = &node.first {
        if let Some(answer) = path_has(first, a, s, is_or(node.number, a, passed)) {
            return Some(answer);
        }
    }
    match &node.next {
        Some(next) => path_has(next, a, s, passed),
        None => None,
    }
}

fn is_or(number: u8, a: u8, passed: bool) -> bool
    ensures { result ≡ (number == a || passed) }
{
    number == a || passed
}

/// Puts a new segment below segment `parent`, first of those there. The answer is whether that was found.
///
/// # Errors
/// Want of memory.
#[cycle(hang)]
pub(crate) fn hang(
    alloc: Global,
    node: &mut Node,
    parent: u8,
    number: u8,
    region: u8,
) -> Result<bool, AllocError>
    ensures { HangAnswer node.old parent number region result node.new }
{
    if node.number == parent {
        hang_first(alloc, node, number, region)?;
        return Ok(true);
    }
    if hang_below(alloc, node, parent, number, region)? {
        return Ok(true);
    }
    hang_beside(alloc, node, parent, number, region)
}

#[cycle(hang)]
#[tactic(auto, using(crate::proofs::Finding::below_answer))]
fn hang_below(
    alloc: Global,
    node: &mut Node,
    parent: u8,
    number: u8,
    region: u8,
) -> Result<bool, AllocError>
    requires apart { (out-Node node.old).number ≢ parent }
    ensures { BelowAnswer node.old parent number region result node.new }
{
    match &mut node.first {
        Some(first) => hang(alloc, first, parent, number, region),
        None => Ok(false),
    }
}

#[cycle(hang)]
#[tactic(auto, using(crate::proofs::Finding::beside_answer))]
fn hang_beside(
    alloc: Global,
    node: &mut Node,
    parent: u8,
    number: u8,
    region: u8,
) -> Result<bool, AllocError>
    requires apart { (out-Node node.old).number ≢ parent }
    requires absent { found_in (out-Node node.old).first parent ≡ None }
    ensures { HangAnswer node.old parent number region result node.new }
{
    match &mut node.next {
        Some(next) => hang(alloc, next, parent, number, region),
        None => Ok(false),
    }
}

fn hang_first(alloc: Global, node: &mut Node, number: u8, region: u8) -> Result<(), AllocError>
    ensures ok { OnOk result (Hangs (found node.old) (found node.new) (out-Node node.old).number number region) }
    ensures err { OnErr result (node.new ≡ node.old) }
{
    let mut fresh = Box::new(
        alloc,
        Node {
            number,
            region,
            first: None,
            next: None,
        },
    )?;
    *fresh = Node {
        number,
        region,
        first: None,
        next: node.first.take(),
    };
    node.first = Some(fresh);
    Ok(())
}
