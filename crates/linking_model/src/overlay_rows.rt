//! Worked cases of overlay programs: segments, tables, calls and stores.
#![tactic(auto, unfolding(crate::specs::Kept::kept_in, crate::specs::Kept::appearance, crate::specs::Linked::stored_byte, crate::specs::Linked::number_in, crate::specs::Linked::constant_at, crate::specs::Linked::linked_byte, crate::specs::Merged::definition, crate::specs::Merged::double_definition, crate::specs::Merged::unresolved, crate::specs::Merged::program_of, crate::specs::Merged::symbol_count, crate::specs::Places::size, crate::specs::Places::depth, crate::specs::Places::region_start, crate::specs::Places::origin_by, crate::specs::Places::place_after, crate::specs::Places::place, crate::specs::Places::table_place, crate::specs::Points::displacements, crate::specs::Points::registers_end, crate::specs::Points::entry_point, crate::specs::Points::alias_point, crate::specs::Run::segment_piece, crate::specs::Run::step, crate::specs::Run::run_from, crate::specs::Scattered::scattered, crate::specs::Settled::settled, crate::specs::TableBytes::segtab_bytes, crate::specs::TableBytes::entab_bytes, crate::specs::Tables::holder, crate::specs::Tables::refused_reference, crate::specs::Tables::entries, crate::specs::Tree::parent_of, crate::specs::Tree::region_of, crate::specs::Tree::path, crate::specs::Tree::segments, crate::specs::Tree::regions, crate::specs::Tree::lowest_common, crate::specs::Tree::overlaid, crate::specs::Tree::overlay_fault))]

ghost use Rattle.std.specs.Prelude.{◌≡◌, ◌∷◌, [], replicate, map, true, false};
ghost use Rattle.linking_model.specs.Tree.{RegionNameUsed, TooManyRegions, overlay_fault, segments, path, parent_of, region_of};
ghost use Rattle.linking_model.specs.Places.{module_length, origin, entries_of};
ghost use Rattle.linking_model.specs.Points.{alias_point, default_point, entry_point};
ghost use Rattle.linking_model.specs.Settled.{has_root_section, unknown_insert};
ghost use Rattle.linking_model.specs.Tables.{crowded, holder, refused_reference};
ghost use Rattle.linking_model.specs.Linked.{block, point_address};
ghost use Rattle.linking_model.specs.Run.{Call, Store, Dump, Reached, Stored, Residents, Dumped};
ghost use Rattle.linking_model.specs.Cases.{entering, laid_over, sharing, crossing, unheld, regional, calls_and_stores, second_call, calls_in_turn, outcomes, refusal, storage};
ghost use Rattle.linking_model.specs.Decks.{shared, shared_modules, apart, nested, promoted_modules, four_regions};
ghost use Rattle.linking_model.specs.Decks.{a_name, b_name, c_name, q_name, sub_name, x_name, root_name};
ghost use Rattle.linking_model.specs.Dumps.{shared_before, shared_after, apart_after};

use le_bytes::EventWhat;
use sym_mod::Target;

/// OVERLAY at a used symbol begins a segment beside the first of that symbol, and at a new one
/// below the current segment or, with REGION, below the root in a region of its own.
pub fn overlay_statements()
    ensures beside { map (parent_of shared.tree) (segments shared.tree) ≡ 0 ∷ 1 ∷ 1 ∷ [] }
    ensures below { path nested.tree 3 ≡ 3 ∷ 2 ∷ 1 ∷ [] }
    ensures next_region { map (region_of apart.tree) (segments apart.tree) ≡ 1 ∷ 1 ∷ 2 ∷ [] }
    ensures name_used { overlay_fault shared x_name true ≡ Some (RegionNameUsed x_name) }
    ensures fifth_region { overlay_fault four_regions x_name true ≡ Some (TooManyRegions 5) }
    ensures accepted { overlay_fault apart x_name false ≡ None }
{}

/// A common area stands in the lowest segment above all that bring it, or where INSERT puts it.
pub fn common_promoted()
    ensures to_root { map (λ x. x.segment) (laid_over shared [] promoted_modules).program.sections
        ≡ 1 ∷ 2 ∷ 1 ∷ 3 ∷ [] }
    ensures to_parent { map (λ x. x.segment) (laid_over nested [] promoted_modules).program.sections
        ≡ 1 ∷ 2 ∷ 2 ∷ 3 ∷ [] }
    ensures inserted { map (λ x. x.segment)
        (laid_over nested ((c_name, 3) ∷ (b_name, 2) ∷ []) promoted_modules).program.sections
        ≡ 1 ∷ 2 ∷ 3 ∷ 2 ∷ [] }
{}

/// A name in an INSERT that no section has is unknown; the first one counts. A root from which
/// INSERT moves its only section has none.
pub fn inserts_judged()
    ensures all_known { unknown_insert sharing.program ((a_name, 2) ∷ (b_name, 3) ∷ []) ≡ None }
    ensures first_unknown { unknown_insert sharing.program ((a_name, 2) ∷ (x_name, 2) ∷ (c_name, 3) ∷ []) ≡ Some x_name }
    ensures root_has_section { has_root_section sharing.program ≡ true }
    ensures root_is_empty { has_root_section (laid_over shared ((root_name, 2) ∷ []) shared_modules).program ≡ false }
{}

/// The root calls two segments that share storage: each call brings in its target's segment and
/// drops the other, and what was stored is gone once its segment was dropped.
pub fn calls_between_segments()
    ensures size { module_length sharing ≡ 0x60 }
    ensures entry { point_address (block sharing 0x1000) (default_point sharing.program) ≡ 0x1018 }
    ensures entries { entries_of sharing 1 ≡ Target.Section 1 ∷ Target.Section 2 ∷ [] }
    ensures before { storage sharing [] ≡ shared_before }
    ensures answers { outcomes sharing calls_and_stores
        ≡ Reached 0x1050 ∷ Stored ∷ Residents (1 ∷ 2 ∷ []) ∷ Reached 0x1050 ∷ Reached 0x1050
        ∷ Dumped 0x1050 (replicate 8 0xC1) ∷ [] }
    ensures after { storage sharing calls_and_stores ≡ shared_after }
{}

/// The entry point is where ENTRY says, if that is in the root. Without ENTRY it is the first entry
/// that a module gives and that is kept and in the root, and without any the root's first byte.
/// An alias enters where its name is defined in the root, and else where the program does.
pub fn entry_points()
    ensures by_section { entry_point entering.program (Some sub_name) ≡ Some (record { section = 1; offset = 0 }) }
    ensures by_label { entry_point entering.program (Some q_name) ≡ Some (record { section = 3; offset = 4 }) }
    ensures not_in_root { entry_point entering.program (Some a_name) ≡ None }
    ensures label_not_in_root { entry_point entering.program (Some b_name) ≡ None }
    ensures not_defined { entry_point entering.program (Some c_name) ≡ None }
    ensures first_given { entry_point entering.program None ≡ Some (record { section = 3; offset = 4 }) }
    ensures none_given { entry_point sharing.program None ≡ Some (record { section = 0; offset = 0 }) }
    ensures alias { alias_point entering.program (record { section = 3; offset = 4 }) sub_name
        ≡ record { section = 1; offset = 0 } }
    ensures other_alias { alias_point entering.program (record { section = 3; offset = 4 }) a_name
        ≡ record { section = 3; offset = 4 } }
{}

/// A table has at most 340 entries; the first that would have more counts.
pub fn crowded_tables()
    ensures few { crowded sharing ≡ None }
    ensures full { crowded (record sharing { entries = replicate 340 (Target.Section 1) ∷ [] }) ≡ None }
    ensures crowd { crowded (record sharing {
      entries = [] ∷ replicate 341 (Target.Section 1) ∷ replicate 400 (Target.Section 1) ∷ [];
    }) ≡ Some (record { segment = 2; entries = 341 }) }
{}

/// A call of a segment that is resident loads nothing, so what was stored there stays.
pub fn store_kept_by_second_call()
    ensures { outcomes sharing second_call
        ≡ Reached 0x1050 ∷ Stored ∷ Reached 0x1050
        ∷ Dumped 0x1050 (0xC1 ∷ 0xC1 ∷ 0xC1 ∷ 0xC1 ∷ 1 ∷ 2 ∷ 0xC1 ∷ 0xC1 ∷ []) ∷ [] }
{}

/// Events that are refused, and a store of no bytes, which touches nothing.
pub fn refused_events()
    ensures constant { refusal sharing (Store root_name 0 (0 ∷ []) ∷ []) ≡ Some EventWhat.TouchesConstant }
    ensures not_resident { refusal sharing (Store a_name 0 (0 ∷ []) ∷ []) ≡ Some (EventWhat.NotResident 2) }
    ensures no_constant { refusal sharing (Call root_name 8 ∷ []) ≡ Some EventWhat.NotVcon }
    ensures no_section { refusal sharing (Dump x_name ∷ []) ≡ Some EventWhat.NoSuchPlace }
    ensures outside { refusal sharing (Store root_name 15 (0 ∷ 0 ∷ []) ∷ []) ≡ Some EventWhat.OutOfSection }
    ensures nothing_stored { refusal sharing (Store root_name 1 [] ∷ []) ≡ None }
{}

/// A call between segments that share storage is refused, but with XCAL where its entry has a
/// holder above both.
pub fn exclusive_call()
    ensures valid { holder crossing.program shared.tree 2 (Target.Section 2) ≡ Some 1 }
    ensures refused { refused_reference crossing.program shared.tree false
        ≡ Some (record { segment = 2; section = 1; offset = 0; target = Target.Section 2 }) }
    ensures accepted { refused_reference crossing.program shared.tree true ≡ None }
    ensures answers { outcomes crossing calls_in_turn
        ≡ Reached 0x1050 ∷ Reached 0x1050 ∷ Residents (1 ∷ 3 ∷ []) ∷ [] }
    ensures no_holder { holder unheld.program shared.tree 2 (Target.Section 2) ≡ None }
    ensures invalid { refused_reference unheld.program shared.tree true
        ≡ Some (record { segment = 2; section = 1; offset = 0; target = Target.Section 2 }) }
{}

/// Two regions: a call into the second leaves the first as it was, and goes by the root's entry.
pub fn calls_between_regions()
    ensures size { module_length regional ≡ 0x60 }
    ensures second_region { origin regional 3 ≡ 0x58 }
    ensures not_exclusive { refused_reference regional.program apart.tree false ≡ None }
    ensures answers { outcomes regional calls_in_turn
        ≡ Reached 0x1050 ∷ Reached 0x1058 ∷ Residents (1 ∷ 2 ∷ 3 ∷ []) ∷ [] }
    ensures after { storage regional calls_in_turn ≡ apart_after }
{}
