//! Written members that start: each function's contract is a law, or a row.
ghost use Rattle.std.specs.Prelude.{◌≡◌, true};
ghost use Rattle.linking_model.specs.Tree.{IsTree, parent_of, region_of};
ghost use Rattle.member_model.specs.Starting.{is_wrong_order};
ghost use Rattle.run_laws.specs.Grown.{IsGrown};
ghost use Rattle.run_laws.specs.Starts.{GrownMembersStart, NotesAreExact, SegmentsReadAlone, out_of_order};

/// A written member of at most 16,777,214 records, of a program over a tree that OVERLAY statements
/// give, starts wherever it is placed, by its own name and by each alias.
pub fn grown_members_start()
    ensures { GrownMembersStart }
{}

/// The note of a segment tells its first record and its range exactly, in a member of at most
/// 16,777,214 records.
pub fn notes_are_exact()
    ensures { NotesAreExact }
{}

/// A segment of a written member that is read alone, from the record that its note tells, has no bad
/// record and is loaded as it is linked.
pub fn segments_read_alone()
    ensures { SegmentsReadAlone }
{}

/// Segments below 1, 1 and 2 in one region are a tree that no statements give, and a start refuses it
/// at segment 4.
#[tactic(auto, using(crate::proofs::OutOfOrder::is_tree, crate::proofs::OutOfOrder::is_not_grown, crate::proofs::OutOfOrder::is_refused))]
pub fn a_tree_that_is_not_grown()
    ensures tree { IsTree out_of_order }
    ensures not_grown { IsGrown out_of_order → ⊥ }
    ensures refused { is_wrong_order (parent_of out_of_order) (region_of out_of_order) 4 ≡ true }
{}
