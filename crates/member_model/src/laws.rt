//! What any reader expects of the definitions: each function's contract is a law, for all members.
ghost use Rattle.member_model.specs.Laws.{ChunksHoldAllItems, FaultsComeInTurn, GoodMembersAreFetched, PiecesHoldAllText, RecordsAddFacts, RefusedEventsChangeNothing};

/// A run ends at the first refused event, with the state before it.
#[tactic(auto, using(crate::proofs::Runs::refused_events_change_nothing))]
pub fn refused_events_change_nothing()
    ensures { RefusedEventsChangeNothing }
{}

/// The chunks of relocation items are these items, in their order.
#[tactic(auto, using(crate::proofs::Cutting::chunks_hold_all_items))]
pub fn chunks_hold_all_items()
    ensures { ChunksHoldAllItems }
{}

/// The pieces of a text are this text.
#[tactic(auto, using(crate::proofs::Cutting::pieces_hold_all_text))]
pub fn pieces_hold_all_text()
    ensures { PiecesHoldAllText }
{}

/// One more record adds what it holds to what the records before it held.
#[tactic(auto, using(crate::proofs::Gathered::records_add_facts))]
pub fn records_add_facts()
    ensures { RecordsAddFacts }
{}

/// One more record has the first fault where the records before it have none.
#[tactic(auto, using(crate::proofs::Gathered::faults_come_in_turn))]
pub fn faults_come_in_turn()
    ensures { FaultsComeInTurn }
{}

/// A good member is fetched: its head records and segment 1 have no fault where the whole member
/// has none.
#[tactic(auto, using(crate::proofs::Fetching::good_members_are_fetched))]
pub fn good_members_are_fetched()
    ensures { GoodMembersAreFetched }
{}
