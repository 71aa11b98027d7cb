//! Segments that are resident at once: each function's contract is a law.
ghost use Rattle.run_laws.specs.Residents.{CallsKeepPaths, ResidentsAreApart, RootIsResident};

/// The root alone may be resident.
pub fn root_is_resident()
    ensures { RootIsResident }
{}

/// After a call into any segment the resident segments of each region are again, with segment 1, the
/// path of a segment.
pub fn calls_keep_paths()
    ensures { CallsKeepPaths }
{}

/// The ranges of resident segments are apart.
pub fn residents_are_apart()
    ensures { ResidentsAreApart }
{}
