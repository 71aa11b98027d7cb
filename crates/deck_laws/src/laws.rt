//! The laws: each function's contract is one, for all modules and all decks.
ghost use Rattle.deck_laws.specs.Laws.{DeckProgramsAreLinkable, DeckProgramsStand, DecksGiveSoundModules, DecksGiveWholeModules, DefaultPointsLieInRoot, RootProgramsAreLinkable, RootProgramsStand, SettledProgramsAreLinkable, SoundLabelsLieInText};

/// Each label of a sound module stands in an item that has text.
#[tactic(auto, using(crate::proofs::Standing::sound_labels))]
pub fn sound_labels_lie_in_text()
    ensures { SoundLabelsLieInText }
{}

/// The modules of a primary input of decks have names of eight bytes and labels in text, and all came in
/// the root.
pub fn decks_give_whole_modules()
    ensures { DecksGiveWholeModules }
{}

/// The modules of a primary input of decks are sound, and merge without a fault.
pub fn decks_give_sound_modules()
    ensures { DecksGiveSoundModules }
{}

/// A sound program of whole modules that is within the limits of a load module may be written as a
/// member, whatever its tree of segments: each label lies in a section that has text, and each name has
/// eight bytes.
#[tactic(auto, using(crate::proofs::Linkable::settled_linkable))]
pub fn settled_programs_are_linkable()
    ensures { SettledProgramsAreLinkable }
{}

/// So may the program of whole modules in one segment, where all of them came.
#[tactic(auto, using(crate::proofs::Linkable::root_linkable))]
pub fn root_programs_are_linkable()
    ensures { RootProgramsAreLinkable }
{}

/// So may the program of a primary input of decks.
pub fn deck_programs_are_linkable()
    ensures { DeckProgramsAreLinkable }
{}

/// Without an ENTRY statement, a program with a section in the root is entered in the root.
#[tactic(auto, using(crate::proofs::Standing::points_in_root))]
pub fn default_points_lie_in_root()
    ensures { DefaultPointsLieInRoot }
{}

/// The member that is written for the program of whole modules in one segment stands for it: it is good,
/// has the names, the length and the attribute of the program, and loads as the program is linked.
pub fn root_programs_stand()
    ensures { RootProgramsStand }
{}

/// So does the member that is written for the program of a primary input of decks.
pub fn deck_programs_stand()
    ensures { DeckProgramsStand }
{}
