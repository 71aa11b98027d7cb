//! What a user of walks expects of them: each function's contract is a law, for all members.
ghost use Rattle.member_walk.specs.Laws.{TextsAreTold, WholeMembersEnd, FetchReads, FetchMeetsFaults, FetchRunsOut, FetchEnds};

/// A record adds the text that is told of it, and no other record adds text.
#[tactic(auto, using(crate::proofs::Fetching::texts_are_told))]
pub fn texts_are_told()
    ensures { TextsAreTold }
{}

/// A member that was walked whole is judged by whether its module has ended.
#[tactic(auto, using(crate::proofs::Fetching::whole_members_end))]
pub fn whole_members_end()
    ensures { WholeMembersEnd }
{}

/// A fetch reads the records for as long as the walk says.
#[tactic(auto, using(crate::proofs::Fetching::fetch_reads))]
pub fn fetch_reads()
    ensures { FetchReads }
{}

/// A fault that the walk meets while a fetch reads on is the first that the fetch meets.
pub fn fetch_meets_faults()
    ensures { FetchMeetsFaults }
{}

/// The records run out while a fetch reads on.
#[tactic(auto, using(crate::proofs::Fetching::fetch_runs_out))]
pub fn fetch_runs_out()
    ensures { FetchRunsOut }
{}

/// A record ends segment 1 of an overlay member: a fetch reads no further.
pub fn fetch_ends()
    ensures { FetchEnds }
{}
