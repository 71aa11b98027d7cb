//! Worked cases of one segment: what is kept, where it stands and which bytes it has.
#![tactic(auto, unfolding(crate::specs::Kept::kept_in, crate::specs::Kept::appearance, crate::specs::Linked::stored_byte, crate::specs::Linked::number_in, crate::specs::Linked::constant_at, crate::specs::Linked::linked_byte, crate::specs::Merged::definition, crate::specs::Merged::double_definition, crate::specs::Merged::unresolved, crate::specs::Merged::program_of, crate::specs::Merged::symbol_count, crate::specs::Places::size, crate::specs::Places::depth, crate::specs::Places::region_start, crate::specs::Places::origin_by, crate::specs::Places::place_after, crate::specs::Places::place, crate::specs::Places::table_place, crate::specs::Points::displacements, crate::specs::Points::registers_end, crate::specs::Points::entry_point, crate::specs::Points::alias_point, crate::specs::Run::segment_piece, crate::specs::Run::step, crate::specs::Run::run_from, crate::specs::Scattered::scattered, crate::specs::Settled::settled, crate::specs::TableBytes::segtab_bytes, crate::specs::TableBytes::entab_bytes, crate::specs::Tables::holder, crate::specs::Tables::refused_reference, crate::specs::Tables::entries, crate::specs::Tree::parent_of, crate::specs::Tree::region_of, crate::specs::Tree::path, crate::specs::Tree::segments, crate::specs::Tree::regions, crate::specs::Tree::lowest_common, crate::specs::Tree::overlaid, crate::specs::Tree::overlay_fault))]

ghost use Rattle.std.specs.Prelude.{◌≡◌, ◌∷◌, [], replicate, map, true, false};
ghost use Rattle.linking_model.specs.Merged.{program_of, double_definition, symbol_count};
ghost use Rattle.linking_model.specs.Places.{module_length, place};
ghost use Rattle.linking_model.specs.Points.{registers_end};
ghost use Rattle.linking_model.specs.Scattered.{scattered};
ghost use Rattle.linking_model.specs.Linked.{linked_section, scatter, spread};
ghost use Rattle.linking_model.specs.Cases.{assembled, bytes_at, difference, twice, commons, registering, scattering, fortran};
ghost use Rattle.linking_model.specs.Decks.{twice_modules, two_labels_modules, fortran_modules, plus, minus};
ghost use Rattle.linking_model.specs.Decks.{b_name, blank_name, main_name, q_name, sub_name, sub2_name, w_name};

use sym_mod::{Kind, SecKind, Target};

/// A section that is assembled at X'100' and whose text holds X'104': at X'1000' its constant is
/// X'1004', since the assembled address is taken off. A label stands behind its section's first
/// byte, wherever that was assembled.
pub fn section_assembled_elsewhere()
    ensures bytes { bytes_at assembled 0x1000 0 ≡ 0 ∷ 0 ∷ 0 ∷ 0 ∷ 0 ∷ 0 ∷ 0x10 ∷ 4 ∷ [] }
    ensures labels { assembled.program.labels ≡ record { name = b_name; rank = 1; section = 0; offset = 6 } ∷ [] }
{}

/// The difference of two symbols is the same at every origin: X stands at 8 and Y at 24.
pub fn difference_of_symbols()
    ensures targets { map (λ c. map (λ t. t.target) c.terms) difference.program.constants
        ≡ (Target.Section 1 ∷ Target.Section 2 ∷ []) ∷ [] }
    ensures x { place difference 1 ≡ 8 }
    ensures y { place difference 2 ≡ 24 }
    ensures low { bytes_at difference 0 0 ≡ 0 ∷ 0 ∷ 0 ∷ 0 ∷ 255 ∷ 255 ∷ 255 ∷ 240 ∷ [] }
    ensures high { bytes_at difference 0x2000 0 ≡ 0 ∷ 0 ∷ 0 ∷ 0 ∷ 255 ∷ 255 ∷ 255 ∷ 240 ∷ [] }
{}

/// Of two sections of one name the first is kept. A label of the second defines nothing, and its
/// name is unresolved.
pub fn second_section_dropped()
    ensures sections { map (λ x. x.name) twice.program.sections ≡ main_name ∷ sub_name ∷ [] }
    ensures labels { twice.program.labels ≡ [] }
    ensures unresolved { twice.program.unresolved ≡ record { name = sub2_name; weak = false } ∷ [] }
    ensures no_clash { double_definition twice_modules ≡ None }
    ensures size { module_length twice ≡ 16 }
    ensures main { bytes_at twice 0 0 ≡ replicate 4 0 }
    ensures first_sub { bytes_at twice 0 1 ≡ replicate 8 0xC1 }
{}

/// Blank common is one area of the greatest length, where it first came. A name with weak
/// references alone is unresolved and weak.
pub fn blank_common_and_weak_name()
    ensures names { map (λ x. x.name) commons.program.sections ≡ main_name ∷ blank_name ∷ sub_name ∷ [] }
    ensures kinds { map (λ x. x.kind) commons.program.sections ≡ SecKind.Sd ∷ SecKind.Cm ∷ SecKind.Sd ∷ [] }
    ensures sizes { map (λ x. x.length) commons.program.sections ≡ 4 ∷ 100 ∷ 4 ∷ [] }
    ensures unresolved { commons.program.unresolved ≡ record { name = w_name; weak = true } ∷ [] }
    ensures area { place commons 1 ≡ 8 }
    ensures behind { place commons 2 ≡ 0x70 }
    ensures size { module_length commons ≡ 0x74 }
{}

/// Registers stand one after another, each at its alignment; their constants hold the
/// displacements and the total, whatever stood there.
pub fn registers_and_total()
    ensures total { registers_end 0 registering.program.registers ≡ 8 }
    ensures main { bytes_at registering 0x3000 0 ≡ 0 ∷ 0 ∷ 0 ∷ 0 ∷ 0 ∷ 0 ∷ 0 ∷ 4 ∷ 0 ∷ 0 ∷ 0 ∷ 8 ∷ [] }
{}

/// Two kept sections may not have a label of one name.
pub fn two_labels_of_one_name()
    ensures { double_definition two_labels_modules ≡ Some q_name }
{}

/// Scattered over two areas, S2 stands in the second and S3 again in the first. Where S2 fits
/// nowhere there is no placement.
pub fn scattered_over_two_areas()
    ensures placed { scattered
        (record { mark = 0x1000; end = 0x1010 } ∷ record { mark = 0x4000; end = 0x4800 } ∷ [])
        (8 ∷ 256 ∷ 8 ∷ [])
        ≡ Some (0x1000 ∷ 0x4000 ∷ 0x1008 ∷ []) }
    ensures address_of_second { linked_section scattering (spread (0x1000 ∷ 0x4000 ∷ 0x1008 ∷ [])) 0
        ≡ 0 ∷ 0 ∷ 0x40 ∷ 0 ∷ 0 ∷ 0 ∷ 0 ∷ 0 ∷ [] }
    ensures no_room { scatter scattering.program (record { mark = 0x1000; end = 0x1010 } ∷ []) ≡ None }
{}

/// A FORTRAN program: the common area has the greatest length and stands where it first came, and
/// a label of a library routine defines what the first module refers to.
pub fn fortran_program()
    ensures names { symbol_count fortran_modules ≡ 6 }
    ensures all_defined { fortran.program.unresolved ≡ [] }
    ensures label { fortran.program.labels ≡ record { name = q_name; rank = 4; section = 4; offset = 0 } ∷ [] }
    ensures area { place fortran 1 ≡ 0x1A8 }
    ensures first_routine { place fortran 2 ≡ 0x200 }
    ensures second_routine { place fortran 3 ≡ 0x2C8 }
    ensures library_routine { place fortran 4 ≡ 0x348 }
    ensures size { module_length fortran ≡ 0x368 }
{}
