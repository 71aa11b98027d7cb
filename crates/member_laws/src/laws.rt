//! What any reader may expect of written members: each function's contract is a law, for all programs
//! that can be linked.
ghost use Rattle.member_laws.specs.Laws.{WrittenMembersAreGood, WrittenRecordsGather};
ghost use Rattle.member_laws.specs.Stands.{WrittenMembersStand};

/// The records of a written member hold what the program has: its symbol, scatter, translation and
/// note items, and of each segment the text and the relocation items, read from its first record on.
pub fn written_records_gather()
    ensures { WrittenRecordsGather }
{}

/// A written member is good: by its own entry and by each alias, none of its records has a fault,
/// and the entry point lies in a section of the root or at its end.
pub fn written_members_are_good()
    ensures { WrittenMembersAreGood }
{}

/// A written member keeps what its program has: it is good, its names, length and attribute are those of
/// the program, and wherever it is placed, in one block or over areas, it has in storage the bytes that
/// the program has there linked, and is entered where the program is.
pub fn written_members_stand()
    ensures { WrittenMembersStand }
{}
