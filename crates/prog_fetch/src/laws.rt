//! What placements have to do with fetches: the contract is a law, for all members.
ghost use Rattle.prog_fetch.specs.Laws.{PlacedMembersFit};

/// Where `place_scatter` has placed a member, `fetch` finds that its sections fit.
#[tactic(auto, using(crate::proofs::Agreeing::placed_fits))]
pub fn placed_members_fit()
    ensures { PlacedMembersFit }
{}
