//! The law of runs: each function's contract is a law.
ghost use Rattle.run_laws.specs.Running.{CallsReachSymbols, RunsGoAlike, RunsStayAlike, ScatteredRunsGoAlike};

/// In the states that any list of events leaves, the byte run of a written member in one block agrees
/// with the symbolic run of its program: the resident segments are paths, the segment table tells of
/// them, and their constants, entry tables and relocation items stand as they are linked and written.
pub fn runs_stay_alike()
    ensures { RunsStayAlike }
{}

/// Whatever is called, stored, asked and dumped, a written member in one block goes through it as its
/// program does by its symbols: the same outcomes, the same refusal, the same resident segments, and
/// the same bytes in storage.
pub fn runs_go_alike()
    ensures { RunsGoAlike }
{}

/// After any list of events, a call of a written member that is not refused reaches the address of the
/// symbol to which the branch constant at its place refers.
pub fn calls_reach_symbols()
    ensures { CallsReachSymbols }
{}

/// A written member without overlay runs as its program does also where its sections are scattered over
/// areas of storage.
pub fn scattered_runs_go_alike()
    ensures { ScatteredRunsGoAlike }
{}
