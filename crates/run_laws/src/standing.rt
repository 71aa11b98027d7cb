//! Members that stand for their programs: the function's contract is a law.
ghost use Rattle.run_laws.specs.Standing.{WrittenMembersStandForPrograms};

/// A written member of at most 16,777,214 records, of a program that can be linked and run over a tree
/// of OVERLAY statements, stands for its program. It is good by its own entry and by each alias, and
/// wherever it may be placed, in one block or over areas, it has in storage what the program has there
/// linked, is entered where the program is, starts, and goes through all events as the program does.
pub fn written_members_stand_for_programs()
    ensures { WrittenMembersStandForPrograms }
{}
