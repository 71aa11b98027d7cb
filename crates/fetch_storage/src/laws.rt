//! What parts hold: each function's contract is a law, for all members and placements.
ghost use Rattle.fetch_storage.specs.Laws.{NewPartsAreZero, TextStands, FieldsAreLoaded, PartsAreExtents};

/// New parts are zero.
#[tactic(auto, using(crate::proofs::Laying::empty_holds))]
pub fn new_parts_are_zero()
    ensures { NewPartsAreZero }
{}

/// Text of a section stands where the section has moved to.
#[tactic(auto, using(crate::proofs::Laying::text_holds))]
pub fn text_stands()
    ensures { TextStands }
{}

/// With all text laid and all fields shifted, the parts hold what is loaded: a later text has won, and
/// each field has the signed shifts of all its items.
#[tactic(auto, using(crate::proofs::Loading::loaded_holds))]
pub fn fields_are_loaded()
    ensures { FieldsAreLoaded }
{}

/// The parts are the bytes that stand in the extents of the placement.
#[tactic(auto, using(crate::proofs::Laying::parts_are))]
pub fn parts_are_extents()
    ensures { PartsAreExtents }
{}
