//! The laws of what is linked, put and printed: each function's contract is one, for all load modules, words
//! and files.
ghost use Rattle.linkedit_top.specs.ByProgram.{StowedModulesPrintPrograms};
ghost use Rattle.linkedit_top.specs.Headline.{OutcomesAreAsPromised};

/// A load module in which its program stands, which is what linking gives, prints as the program once it
/// was stowed and is fetched from that library: its entry point and, byte for byte, its linked storage, at
/// any origin where the module may stand. So it is never refused but for the origin.
#[tactic(auto, using(crate::proofs::PrintedPrograms::stowed_modules_print_programs))]
pub fn stowed_modules_print_programs()
    ensures { StowedModulesPrintPrograms }
{}

/// Whatever the words and the files are, what `link` and `go` put is the library with a member in which the
/// program of the cards stands; and where all is done, they print the listing of that program, `go` then
/// its entry point and its linked bytes too, and end as its unresolved names say.
#[tactic(auto, using(crate::proofs::Headline::outcomes_are_as_promised))]
pub fn outcomes_are_as_promised()
    ensures { OutcomesAreAsPromised }
{}
