//! What any reader expects of the definitions: each function's contract is a law, for all programs.
ghost use Rattle.linking_model.specs.Laws.{PathsBeginAtRoot, SegmentsAreOnTheirPaths, SegmentsHaveParents, StatementsMakeTrees, StatementsKeepTreesSmall, SectionsAreApart, SectionsLieInSegments, TablesEndSegments, OriginsFollowParents, OriginsFollowRegions, AncestorsEndBefore, LowerRegionsEndBefore, HoldersAreOnPaths, HoldersHoldForThemselves, CallsHaveHolders, OtherRegionsAreNotExclusive, PlainBytesStay, RefusedEventsChangeNothing};

/// The path of a segment begins at the root.
#[tactic(auto, using(crate::proofs::Trees::paths_begin_at_root))]
pub fn paths_begin_at_root()
    ensures { PathsBeginAtRoot }
{}

/// Each segment is on its own path.
#[tactic(auto, using(crate::proofs::Trees::segments_are_on_their_paths))]
pub fn segments_are_on_their_paths()
    ensures { SegmentsAreOnTheirPaths }
{}

/// A segment below the root has an earlier one as its parent, in its own region unless that is
/// the root.
#[tactic(auto, using(crate::proofs::Trees::segments_have_parents))]
pub fn segments_have_parents()
    ensures { SegmentsHaveParents }
{}

/// OVERLAY statements make a tree.
#[tactic(auto, using(crate::proofs::Trees::statements_make_trees))]
pub fn statements_make_trees()
    ensures { StatementsMakeTrees }
{}

/// OVERLAY statements that are not refused keep the tree small: at most 255 segments in at most
/// four regions.
#[tactic(auto, using(crate::proofs::Trees::statements_keep_trees_small))]
pub fn statements_keep_trees_small()
    ensures { StatementsKeepTreesSmall }
{}

/// Sections of one segment do not overlap.
#[tactic(auto, using(crate::proofs::Sums::sections_are_apart))]
pub fn sections_are_apart()
    ensures { SectionsAreApart }
{}

/// A section stands between the origin and the end of its segment.
#[tactic(auto, using(crate::proofs::Extents::sections_lie_in_segments))]
pub fn sections_lie_in_segments()
    ensures { SectionsLieInSegments }
{}

/// A table of entries ends its segment.
#[tactic(auto, using(crate::proofs::Extents::tables_end_segments))]
pub fn tables_end_segments()
    ensures { TablesEndSegments }
{}

/// A segment in its parent's region begins where its parent ends, at the next multiple of 8.
#[tactic(auto, using(crate::proofs::Origins::origins_follow_parents))]
pub fn origins_follow_parents()
    ensures { OriginsFollowParents }
{}

/// A segment in another region than its parent begins where all segments of lower regions have
/// ended.
#[tactic(auto, using(crate::proofs::Origins::origins_follow_regions))]
pub fn origins_follow_regions()
    ensures { OriginsFollowRegions }
{}

/// What is above a segment ends before it begins.
#[tactic(auto, using(crate::proofs::Origins::ancestors_end_before))]
pub fn ancestors_end_before()
    ensures { AncestorsEndBefore }
{}

/// What is in a lower region ends before a segment begins.
#[tactic(auto, using(crate::proofs::Origins::lower_regions_end_before))]
pub fn lower_regions_end_before()
    ensures { LowerRegionsEndBefore }
{}

/// A holder is on the path of every segment that uses it.
#[tactic(auto, using(crate::proofs::Bytes::holders_are_on_paths))]
pub fn holders_are_on_paths()
    ensures { HoldersAreOnPaths }
{}

/// What a holder holds for another segment it holds for itself, so its table has that entry.
#[tactic(auto, using(crate::proofs::Holders::holders_hold_for_themselves))]
pub fn holders_hold_for_themselves()
    ensures { HoldersHoldForThemselves }
{}

/// A call that is neither direct nor exclusive has a holder.
#[tactic(auto, using(crate::proofs::Holders::calls_have_holders))]
pub fn calls_have_holders()
    ensures { CallsHaveHolders }
{}

/// What stands in another region is never exclusive.
#[tactic(auto, using(crate::proofs::Bytes::other_regions_are_not_exclusive))]
pub fn other_regions_are_not_exclusive()
    ensures { OtherRegionsAreNotExclusive }
{}

/// Outside constants, linked bytes are the same wherever the program stands.
#[tactic(auto, using(crate::proofs::Bytes::plain_bytes_stay))]
pub fn plain_bytes_stay()
    ensures { PlainBytesStay }
{}

/// A run ends at the first refused event, with the state before it.
#[tactic(auto, using(crate::proofs::Bytes::refused_events_change_nothing))]
pub fn refused_events_change_nothing()
    ensures { RefusedEventsChangeNothing }
{}
