//! The rows of worked cases, computed from the definitions.
#![tactic(auto, unfolding(linking_model::specs::Kept::kept_in, linking_model::specs::Kept::appearance, linking_model::specs::Linked::stored_byte, linking_model::specs::Linked::number_in, linking_model::specs::Linked::constant_at, linking_model::specs::Linked::linked_byte, linking_model::specs::Merged::definition, linking_model::specs::Merged::double_definition, linking_model::specs::Merged::unresolved, linking_model::specs::Merged::program_of, linking_model::specs::Merged::symbol_count, linking_model::specs::Places::size, linking_model::specs::Places::depth, linking_model::specs::Places::region_start, linking_model::specs::Places::origin_by, linking_model::specs::Places::place_after, linking_model::specs::Places::place, linking_model::specs::Places::table_place, linking_model::specs::Points::displacements, linking_model::specs::Points::registers_end, linking_model::specs::Points::entry_point, linking_model::specs::Points::alias_point, linking_model::specs::Settled::settled, linking_model::specs::TableBytes::segtab_bytes, linking_model::specs::TableBytes::entab_bytes, linking_model::specs::Tables::holder, linking_model::specs::Tables::refused_reference, linking_model::specs::Tables::entries, linking_model::specs::Tree::parent_of, linking_model::specs::Tree::region_of, linking_model::specs::Tree::path, linking_model::specs::Tree::segments, linking_model::specs::Tree::regions, linking_model::specs::Tree::lowest_common, linking_model::specs::Tree::overlaid, linking_model::specs::Tree::overlay_fault, member_model::specs::Chunks::part_items, member_model::specs::Chunks::chunks_after, member_model::specs::Parts::target_number, member_model::specs::SymbolList::symbols_written, member_model::specs::SymbolList::first_records, crate::specs::Maps::map_rows, crate::specs::References::reference_rows))]

ghost use Rattle.std.specs.Prelude.{◌≡◌, [], ◌∷◌, true, false, Some};
ghost use Rattle.le_bytes.specs.Names.{private_code_name, blank_common_name};
ghost use Rattle.sym_mod.specs.Reserved.{segment_table, entry_table};
ghost use Rattle.linking_model.specs.Decks.{a_name, b_name, c_name, main_name, p1_name, p2_name, q_name, root_name, sub2_name, sub_name, x_name};
ghost use Rattle.linking_model.specs.Cases.{commons, fortran, registering, sharing};
ghost use Rattle.member_model.specs.Cases.{private};
ghost use Rattle.list_text.specs.declared.rows.RowKind.TheVariants.{Sd, Pc, Cm};
ghost use Rattle.list_text.specs.declared.rows.MapRow.TheVariants.{Section, Label, Register};
ghost use Rattle.item_list.specs.Worked.{map_of, references_of, refers};

/// Blank common stands in the map by its printed name.
pub fn map_with_blank_common()
    ensures { map_of commons
        ≡ Section main_name Sd 0 4 1 ∷ Section blank_common_name Cm 8 0x64 1 ∷ Section sub_name Sd 0x70 4 1 ∷ [] }
{}

/// A common area of the greatest length, and a label after the section of a library routine.
pub fn map_with_a_label()
    ensures { map_of fortran
        ≡ Section main_name Sd 0 0x1A4 1 ∷ Section c_name Cm 0x1A8 0x58 1 ∷ Section sub_name Sd 0x200 0xC8 1
        ∷ Section sub2_name Sd 0x2C8 0x7C 1 ∷ Section x_name Sd 0x348 0x20 1 ∷ Label q_name 0x348 ∷ [] }
{}

/// Two segments that share storage, and the tables of overlay; the items of an entry table are no references.
pub fn lists_of_an_overlay_member()
    ensures map { map_of sharing
        ≡ Section segment_table Sd 0 0x14 1 ∷ Section root_name Sd 0x18 0x10 1 ∷ Section entry_table Sd 0x28 0x24 1
        ∷ Section a_name Sd 0x50 8 2 ∷ Section b_name Sd 0x50 0x10 3 ∷ [] }
    ensures references { references_of sharing
        ≡ refers root_name 0 true a_name (Some 0x50) ∷ refers root_name 4 true b_name (Some 0x50) ∷ [] }
{}

/// Private code has a printed name in both lists.
pub fn lists_with_private_code()
    ensures map { map_of private
        ≡ Section private_code_name Pc 0 8 1 ∷ Section a_name Sd 8 6 1 ∷ Label b_name 10 ∷ [] }
    ensures references { references_of private
        ≡ refers private_code_name 0 false private_code_name (Some 0)
        ∷ refers private_code_name 4 true b_name (Some 10)
        ∷ refers a_name 3 false private_code_name (Some 0) ∷ [] }
{}

/// Registers stand after all sections.
pub fn map_with_registers()
    ensures { map_of registering ≡ Section main_name Sd 0 12 1 ∷ Register p1_name 0 1 ∷ Register p2_name 4 4 ∷ [] }
{}
