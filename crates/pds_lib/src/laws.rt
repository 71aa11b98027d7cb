//! The laws: each function's contract is one, for all libraries.
ghost use Rattle.pds_lib.specs.Laws.{EmptyLibrariesAreSound, ReadLibrariesAreSound, StowsKeepLibrariesSound};

/// A library of no members is sound.
pub fn empty_libraries_are_sound()
    ensures { EmptyLibrariesAreSound }
{}

/// The library that an image holds is sound.
pub fn read_libraries_are_sound()
    ensures { ReadLibrariesAreSound }
{}

/// A stow keeps a library sound.
pub fn stows_keep_libraries_sound()
    ensures { StowsKeepLibrariesSound }
{}
