//! What the law of runs asks for: a law, and rows where the two runs part.
#![tactic(auto, unfolding(linking_model::specs::Kept::kept_in, linking_model::specs::Kept::appearance, linking_model::specs::Linked::stored_byte, linking_model::specs::Linked::number_in, linking_model::specs::Linked::constant_at, linking_model::specs::Linked::linked_byte, linking_model::specs::Merged::definition, linking_model::specs::Merged::double_definition, linking_model::specs::Merged::unresolved, linking_model::specs::Merged::program_of, linking_model::specs::Merged::symbol_count, linking_model::specs::Places::size, linking_model::specs::Places::depth, linking_model::specs::Places::region_start, linking_model::specs::Places::origin_by, linking_model::specs::Places::place_after, linking_model::specs::Places::place, linking_model::specs::Places::table_place, linking_model::specs::Points::displacements, linking_model::specs::Points::registers_end, linking_model::specs::Points::entry_point, linking_model::specs::Points::alias_point, linking_model::specs::Run::segment_piece, linking_model::specs::Run::step, linking_model::specs::Run::run_from, linking_model::specs::Scattered::scattered, linking_model::specs::Settled::settled, linking_model::specs::TableBytes::segtab_bytes, linking_model::specs::TableBytes::entab_bytes, linking_model::specs::Tables::holder, linking_model::specs::Tables::refused_reference, linking_model::specs::Tables::entries, linking_model::specs::Tree::parent_of, linking_model::specs::Tree::region_of, linking_model::specs::Tree::path, linking_model::specs::Tree::segments, linking_model::specs::Tree::regions, linking_model::specs::Tree::lowest_common, linking_model::specs::Tree::overlaid, linking_model::specs::Tree::overlay_fault, load_recs::specs::Items::values_of, member_model::specs::ByteRun::step, member_model::specs::ByteRun::run_from, member_model::specs::Calling::segment_facts, member_model::specs::Calling::bad_from, member_model::specs::Calling::call_down_to, member_model::specs::Chunks::part_items, member_model::specs::Chunks::chunks_after, member_model::specs::Facts::seen, member_model::specs::Facts::facts, member_model::specs::Facts::walked, member_model::specs::Faults::fault, member_model::specs::FirstBad::faults_from, member_model::specs::FirstBad::first_bad_of, member_model::specs::FirstBad::first_bad, member_model::specs::FirstBad::root_part, member_model::specs::FirstBad::fetch_bad, member_model::specs::Loaded::text_storage, member_model::specs::Loaded::loaded, member_model::specs::Parts::target_number, member_model::specs::Pieces::pieces, member_model::specs::Pieces::piece_records, member_model::specs::ReadBack::module_of, member_model::specs::Reblocked::reblocked, member_model::specs::Relink::relink, member_model::specs::Starting::start_fault, member_model::specs::SymbolList::symbols_written, member_model::specs::SymbolList::first_records, member_model::specs::Written::segment_records, member_model::specs::Written::written))]

ghost use Rattle.std.specs.Prelude.{◌≡◌, ℕ, true, [], ◌∷◌, Some, None, is_some};
ghost use Rattle.linking_model.specs.Cases.{unheld, calls_in_turn};
ghost use Rattle.linking_model.specs.Decks.{blank_name};
ghost use Rattle.linking_model.specs.Run.{Reached, Residents, section_named};
ghost use Rattle.linking_model.specs.Tables.{refused_reference};
ghost use Rattle.member_model.specs.ByteRun.{spot_of};
ghost use Rattle.member_model.specs.Cases.{plain_fetched, seen_by_bytes, seen_by_symbols};
ghost use Rattle.run_laws.specs.Needed.{AcceptedReferencesHaveHolders, nameless};

/// Where linking refuses no reference, with or without the option for exclusive ones, each exclusive
/// reference has a holder.
pub fn accepted_references_have_holders()
    ensures { AcceptedReferencesHaveHolders }
{}

/// A calls B, which drops A, and the root does not: the call has no entry, and by the bytes it reaches
/// another address than by the symbols.
pub fn a_reference_without_holder()
    ensures refused { is_some (refused_reference unheld.program unheld.tree true) ≡ true }
    ensures by_symbols { (seen_by_symbols unheld calls_in_turn).outcomes ≡ Reached 0x1040 ∷ Reached 0x1040 ∷ Residents (1 ∷ 3 ∷ []) ∷ [] }
    ensures by_bytes { (seen_by_bytes unheld calls_in_turn).outcomes ≡ Reached 0x1040 ∷ Reached 0x1008 ∷ Residents (1 ∷ 2 ∷ []) ∷ [] }
{}

/// A section of kind SD with a blank name is a place by its symbol, and none by its item.
pub fn a_section_without_name()
    ensures by_symbol { section_named nameless.program blank_name ≡ Some 0 }
    ensures by_item { spot_of (plain_fetched nameless) blank_name ≡ None }
{}
