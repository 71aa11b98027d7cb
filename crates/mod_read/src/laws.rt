//! What a user of modules that were read expects: the contract is a law, for all members.
ghost use Rattle.mod_read.specs.Judged.{GoodMembersAreSound};

/// The module of a good member is sound.
#[tactic(auto, using(crate::proofs::Sound::good_members_are_sound))]
pub fn good_members_are_sound()
    ensures { GoodMembersAreSound }
{}
