//! Which linked programs can be written as members: those of sound modules with names of eight bytes,
//! and so those of all object decks. Laws over definitions alone: nothing here runs, and each function's
//! contract is a law.
#![tactic(auto)]

mod laws;

pub use laws::{
    deck_programs_are_linkable, deck_programs_stand, decks_give_sound_modules,
    decks_give_whole_modules, default_points_lie_in_root, root_programs_are_linkable,
    root_programs_stand, settled_programs_are_linkable, sound_labels_lie_in_text,
};
