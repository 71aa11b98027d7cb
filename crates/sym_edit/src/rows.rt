//! Worked cases of edits, which the gate computes.
#![tactic(auto, unfolding(crate::specs::Without::new_number, crate::specs::Without::item_without, crate::specs::Without::fragment_without, crate::specs::Without::target_without, crate::specs::Without::constant_without, crate::specs::Without::entry_without, crate::specs::Without::without, crate::specs::Renamed::new_name, crate::specs::Renamed::item_renamed, crate::specs::Renamed::target_renamed, crate::specs::Renamed::constant_renamed, crate::specs::Renamed::entry_renamed, crate::specs::Renamed::renamed, crate::specs::Edited::clashes, crate::specs::Edited::fault_of, crate::specs::Edited::replaced, crate::specs::Edited::after_edit, crate::specs::Edited::edited_from))]

ghost use Rattle.std.specs.Prelude.{◌≡◌, ◌∷◌, []};
ghost use Rattle.sym_mod.specs.Reserved.{entry_table};
ghost use Rattle.sym_edit.specs.Edited.{edited};
ghost use Rattle.sym_edit.specs.Cases.{main_name, sub_name, new_name, e_name, x_name, module_at, without_sub, with_sub_as, label_at, without_label, two_of_a_name};

use crate::fault::EditFault;
use sym_mod::{Edit, SymEntry};

/// With a section go its label, its text and its constant. The difference of label and section is
/// one of two names then, with the bases that it had; what stays has new numbers, and a register of
/// the name stays.
pub fn section_goes()
    ensures removed { edited (module_at (SymEntry.At 2 0)) (Edit.Remove sub_name ∷ [])
        ≡ Ok (without_sub sub_name (SymEntry.At 0 0)) }
    ensures replaced { edited (module_at (SymEntry.At 2 0)) (Edit.Replace sub_name new_name ∷ [])
        ≡ Ok (without_sub new_name (SymEntry.At 0 0)) }
    ensures changed { edited (module_at (SymEntry.At 2 0)) (Edit.Change sub_name new_name ∷ [])
        ≡ Ok (with_sub_as new_name (SymEntry.At 2 0)) }
{}

/// An entry at a place goes with its section. An entry at a name is a reference to it, but where a
/// section of the name is replaced it stays.
pub fn entries_edited()
    ensures place { edited (module_at (SymEntry.At 0 4)) (Edit.Remove sub_name ∷ [])
        ≡ Ok (without_sub sub_name SymEntry.None) }
    ensures section { edited (module_at (SymEntry.Named sub_name)) (Edit.Replace sub_name new_name ∷ [])
        ≡ Ok (without_sub new_name (SymEntry.Named sub_name)) }
    ensures label { edited (label_at (SymEntry.Named sub_name)) (Edit.Replace sub_name new_name ∷ [])
        ≡ Ok (without_label new_name (SymEntry.Named new_name)) }
    ensures label_only_removed { edited (label_at (SymEntry.Named sub_name)) (Edit.Remove sub_name ∷ [])
        ≡ Ok (without_label sub_name (SymEntry.Named sub_name)) }
    ensures changed { edited (module_at (SymEntry.Named sub_name)) (Edit.Change sub_name new_name ∷ [])
        ≡ Ok (with_sub_as new_name (SymEntry.Named new_name)) }
{}

/// An edit that finds nothing is told before one whose new name clashes, and the first that does not
/// apply ends it. Each sees what the one before made.
pub fn faulty_edits()
    ensures nothing { edited two_of_a_name (Edit.Remove new_name ∷ [])
        ≡ Err (EditFault.NotThere 0 new_name) }
    ensures twice { edited (module_at SymEntry.None) (Edit.Remove sub_name ∷ Edit.Remove sub_name ∷ [])
        ≡ Err (EditFault.NotThere 1 sub_name) }
    ensures order { edited (module_at SymEntry.None) (Edit.Change new_name entry_table ∷ [])
        ≡ Err (EditFault.NotThere 0 new_name) }
    ensures table { edited (module_at SymEntry.None) (Edit.Replace sub_name entry_table ∷ [])
        ≡ Err (EditFault.Clash 0 entry_table) }
    ensures taken { edited (module_at SymEntry.None) (Edit.Change sub_name main_name ∷ [])
        ≡ Err (EditFault.Clash 0 main_name) }
    ensures reference { edited (module_at SymEntry.None) (Edit.Replace x_name new_name ∷ [])
        ≡ Err (EditFault.NotThere 0 x_name) }
{}

/// A change of a name to itself applies where one item has it, and clashes where two have. Two of a
/// name may get another one. A name that is only referred to may become that of a section.
pub fn names_changed()
    ensures itself { edited (module_at SymEntry.None) (Edit.Change sub_name sub_name ∷ [])
        ≡ Ok (module_at SymEntry.None) }
    ensures two { edited two_of_a_name (Edit.Change sub_name sub_name ∷ [])
        ≡ Err (EditFault.Clash 0 sub_name) }
    ensures back { edited two_of_a_name (Edit.Change sub_name new_name ∷ Edit.Change new_name sub_name ∷ [])
        ≡ Ok two_of_a_name }
    ensures reference { edited (without_label sub_name SymEntry.None) (Edit.Change sub_name main_name ∷ [])
        ≡ Ok (without_label main_name SymEntry.None) }
{}
