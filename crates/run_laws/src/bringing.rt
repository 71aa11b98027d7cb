//! Segments that calls bring in: each function's contract is a law.
ghost use Rattle.run_laws.specs.Bringing.{CallsBringAlike, CallsBringFields, CallsChangeNothingElse, NewSegmentsAreLinked, RunsBeginAlike, StoresPutAlike};

/// After a call the relocation items of each resident segment are those that are written: the items of
/// a segment that was brought in come anew, and those of a segment that stayed are as they were.
pub fn calls_bring_fields()
    ensures { CallsBringFields }
{}

/// At the start the byte run of a written member agrees with the symbolic run of its program: the same
/// segment is resident, and the same bytes stand in storage.
pub fn runs_begin_alike()
    ensures { RunsBeginAlike }
{}

/// Both runs agree again where both bring in the path of a segment: each segment that is new stands as
/// it is linked, the status bytes tell of it, and no other byte has changed.
pub fn calls_bring_alike()
    ensures { CallsBringAlike }
{}

/// A segment that a call brings in stands on its whole range, tables included, as it is linked.
pub fn new_segments_are_linked()
    ensures { NewSegmentsAreLinked }
{}

/// Beside the ranges of the segments that it brings in and the status bytes of the segment table, a
/// call changes nothing in storage.
pub fn calls_change_nothing_else()
    ensures { CallsChangeNothingElse }
{}

/// Both runs agree again where both put bytes into a section of a resident segment that touch no
/// constant: constants and tables of resident segments stay as they are linked.
pub fn stores_put_alike()
    ensures { StoresPutAlike }
{}
