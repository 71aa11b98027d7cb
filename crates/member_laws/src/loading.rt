//! What a written member has in storage: each function's contract is a law, for all programs that can
//! be linked, wherever they may stand.
ghost use Rattle.member_laws.specs.Storing.{EntriesArePlaced, ScatteredLoadLinked, SegmentsLoadLinked, SegmentsReadLoadLinked, WrittenMembersLoad};

/// In one block, from any address on, each segment of a written member is loaded as it is linked
/// there, and 0 stands elsewhere. Its texts and relocation items may be those of text in pieces of
/// any length.
#[tactic(auto, using(crate::proofs::LoadingBlock::segments_load_linked))]
pub fn segments_load_linked()
    ensures { SegmentsLoadLinked }
{}

/// A segment of a written member that is read alone, from its first record on, is loaded in one block
/// as it is linked there, whatever facts it is read with.
#[tactic(auto, using(crate::proofs::LoadingMembers::segments_read_load_linked))]
pub fn segments_read_load_linked()
    ensures { SegmentsReadLoadLinked }
{}

/// Over areas of storage, a written member without overlay is loaded as it is linked there.
pub fn scattered_load_linked()
    ensures { ScatteredLoadLinked }
{}

/// Each entry point of a written member has the address that the program has there, in one block and
/// scattered.
#[tactic(auto, using(crate::proofs::LoadingMembers::entries_are_placed))]
pub fn entries_are_placed()
    ensures { EntriesArePlaced }
{}

/// A written member whose records hold what the program has leaves in storage what the program has at
/// the start, and is entered where the program is, by its own name and by each alias.
#[tactic(auto, using(crate::proofs::LoadingMembers::written_members_load))]
pub fn written_members_load()
    ensures { WrittenMembersLoad }
{}
