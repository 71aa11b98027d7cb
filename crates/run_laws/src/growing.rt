//! Trees of OVERLAY statements: each function's contract is a law.
ghost use Rattle.run_laws.specs.Grown.{GrownTreesAreTrees, StatementsGrowTrees, StatementsKeepTreesGrown};

/// One more OVERLAY statement keeps a tree grown: it begins a segment below the newest, below the
/// root in the next region, or beside an earlier one.
#[tactic(auto, using(crate::proofs::GrownTrees::statements_keep_trees_grown))]
pub fn statements_keep_trees_grown()
    ensures { StatementsKeepTreesGrown }
{}

/// OVERLAY statements, whatever their symbols, give a grown tree.
#[tactic(auto, using(crate::proofs::GrownTrees::statements_grow_trees))]
pub fn statements_grow_trees()
    ensures { StatementsGrowTrees }
{}

/// A grown tree is a tree: each segment has an earlier one as its parent, in its own region unless
/// that is the root.
#[tactic(auto, using(crate::proofs::GrownTrees::grown_trees_are_trees))]
pub fn grown_trees_are_trees()
    ensures { GrownTreesAreTrees }
{}
