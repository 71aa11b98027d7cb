//! Worked cases of overlay members.
#![tactic(auto, unfolding(linking_model::specs::Kept::kept_in, linking_model::specs::Kept::appearance, linking_model::specs::Linked::stored_byte, linking_model::specs::Linked::number_in, linking_model::specs::Linked::constant_at, linking_model::specs::Linked::linked_byte, linking_model::specs::Merged::definition, linking_model::specs::Merged::double_definition, linking_model::specs::Merged::unresolved, linking_model::specs::Merged::program_of, linking_model::specs::Merged::symbol_count, linking_model::specs::Places::size, linking_model::specs::Places::depth, linking_model::specs::Places::region_start, linking_model::specs::Places::origin_by, linking_model::specs::Places::place_after, linking_model::specs::Places::place, linking_model::specs::Places::table_place, linking_model::specs::Points::displacements, linking_model::specs::Points::registers_end, linking_model::specs::Points::entry_point, linking_model::specs::Points::alias_point, linking_model::specs::Run::segment_piece, linking_model::specs::Run::step, linking_model::specs::Run::run_from, linking_model::specs::Scattered::scattered, linking_model::specs::Settled::settled, linking_model::specs::TableBytes::segtab_bytes, linking_model::specs::TableBytes::entab_bytes, linking_model::specs::Tables::holder, linking_model::specs::Tables::refused_reference, linking_model::specs::Tables::entries, linking_model::specs::Tree::parent_of, linking_model::specs::Tree::region_of, linking_model::specs::Tree::path, linking_model::specs::Tree::segments, linking_model::specs::Tree::regions, linking_model::specs::Tree::lowest_common, linking_model::specs::Tree::overlaid, linking_model::specs::Tree::overlay_fault, load_recs::specs::Items::values_of, crate::specs::ByteRun::step, crate::specs::ByteRun::run_from, crate::specs::Calling::segment_facts, crate::specs::Calling::bad_from, crate::specs::Calling::call_down_to, crate::specs::Chunks::part_items, crate::specs::Chunks::chunks_after, crate::specs::Facts::seen, crate::specs::Facts::facts, crate::specs::Facts::walked, crate::specs::Faults::fault, crate::specs::FirstBad::faults_from, crate::specs::FirstBad::first_bad_of, crate::specs::FirstBad::first_bad, crate::specs::FirstBad::root_part, crate::specs::FirstBad::fetch_bad, crate::specs::Loaded::text_storage, crate::specs::Loaded::loaded, crate::specs::Parts::target_number, crate::specs::Pieces::pieces, crate::specs::Pieces::piece_records, crate::specs::ReadBack::module_of, crate::specs::Reblocked::reblocked, crate::specs::Relink::relink, crate::specs::Starting::start_fault, crate::specs::SymbolList::symbols_written, crate::specs::SymbolList::first_records, crate::specs::Written::segment_records, crate::specs::Written::written))]

ghost use Rattle.std.specs.Prelude.{◌≡◌, ◌∷◌, [], ◌++◌, None, Some, true, false, length, map, take, replicate};
ghost use Rattle.linking_model.specs.Run.{Call, Store, Where, Dump, Reached, Stored, Residents, Dumped};
ghost use Rattle.linking_model.specs.Decks.{shared, apart, nested, a_name, b_name, c_name, x_name, root_name};
ghost use Rattle.linking_model.specs.Dumps.{shared_before, shared_after, apart_after};
ghost use Rattle.linking_model.specs.Cases.{dump, sharing, regional, calls_and_stores, second_call, calls_in_turn};
ghost use Rattle.member_model.specs.Cases.{deep, call_below, store_above, temporary_name, plain_member, plain_entry, plain_fetched, altered, seen_of, seen_by_bytes, seen_by_symbols, relinked};
ghost use Rattle.member_model.specs.Spelled.{sharing_records};
ghost use Rattle.member_model.specs.FirstBad.{first_bad, fetch_bad};
ghost use Rattle.member_model.specs.Fetched.{entry_address, first_storage, fetched};
ghost use Rattle.member_model.specs.Starting.{start_fault};
ghost use Rattle.member_model.specs.Segments.{residents};
ghost use Rattle.member_model.specs.ByteRun.{byte_run};
ghost use Rattle.member_model.specs.AfterFailure.{IsReached, called_as_far_as, resident_fields};
ghost use Rattle.member_model.specs.Relink.{relink, Include, OverlayBelow, OverlayRegion, Insert, Alias, Replace};
ghost use Rattle.member_model.specs.Reblocked.{reblocked_bytes};
ghost use Rattle.member_model.specs.Written.{written_bytes};

use le_bytes::{EventWhat, RecWhat, StartWhat};

/// The member of a root that calls two segments which share storage: it is good and starts, and
/// its root stands in storage as linked.
pub fn overlay_member()
    ensures records { (plain_member sharing).records ≡ sharing_records }
    ensures good { first_bad (plain_entry sharing) sharing_records ≡ None }
    ensures fetched { fetch_bad (plain_entry sharing) (take 9 sharing_records) ≡ None }
    ensures starts { start_fault (plain_fetched sharing) ≡ None }
    ensures entry { entry_address (plain_fetched sharing) ≡ 0x1018 }
    ensures storage { dump (first_storage (plain_fetched sharing)) 0x1000 0x60 ≡ shared_before }
{}

/// By its bytes the member goes through calls and stores as the program does by its symbols.
pub fn calls_by_bytes()
    ensures answers { (seen_by_bytes sharing calls_and_stores).outcomes
        ≡ Reached 0x1050 ∷ Stored ∷ Residents (1 ∷ 2 ∷ []) ∷ Reached 0x1050 ∷ Reached 0x1050
        ∷ Dumped 0x1050 (replicate 8 0xC1) ∷ [] }
    ensures after { (seen_by_bytes sharing calls_and_stores).storage ≡ shared_after }
    ensures by_symbols { seen_by_bytes sharing calls_and_stores ≡ seen_by_symbols sharing calls_and_stores }
    ensures store_kept { seen_by_bytes sharing second_call ≡ seen_by_symbols sharing second_call }
{}

/// Events that are refused, by bytes as by symbols.
pub fn refused_by_bytes()
    ensures constant { seen_by_bytes sharing (Store root_name 0 (0 ∷ []) ∷ [])
        ≡ seen_by_symbols sharing (Store root_name 0 (0 ∷ []) ∷ []) }
    ensures not_resident { seen_by_bytes sharing (Where ∷ Dump a_name ∷ []) ≡ seen_by_symbols sharing (Where ∷ Dump a_name ∷ []) }
    ensures no_constant { seen_by_bytes sharing (Call root_name 8 ∷ []) ≡ seen_by_symbols sharing (Call root_name 8 ∷ []) }
    ensures no_section { seen_by_bytes sharing (Dump x_name ∷ []) ≡ seen_by_symbols sharing (Dump x_name ∷ []) }
    ensures outside { seen_by_bytes sharing (Store root_name 15 (0 ∷ 0 ∷ []) ∷ [])
        ≡ seen_by_symbols sharing (Store root_name 15 (0 ∷ 0 ∷ []) ∷ []) }
    ensures nothing_stored { seen_by_bytes sharing (Store root_name 1 [] ∷ []) ≡ seen_by_symbols sharing (Store root_name 1 [] ∷ []) }
{}

/// A damaged member is fetched and starts all the same. A supervisor call of another number is no
/// entry, and a record of a segment is looked at only when the segment is called.
pub fn damaged_calls()
    ensures other_number { (seen_of (fetched (plain_entry sharing) (altered 7 33 0x2E sharing_records) 0x1000)
        (Call root_name 0 ∷ [])).refusal ≡ Some (EventWhat.BadEntab 0x1030) }
    ensures no_text { (seen_of (fetched (plain_entry sharing) (take 12 sharing_records) 0x1000)
        (Call root_name 0 ∷ Call root_name 4 ∷ [])).refusal ≡ Some (EventWhat.BadRecord 13) }
    ensures unknown_record { (seen_of (fetched (plain_entry sharing) (altered 11 0 0x0C sharing_records) 0x1000)
        (Call root_name 0 ∷ Call root_name 4 ∷ [])).refusal ≡ Some (EventWhat.BadRecord 12) }
{}

/// Members that do not start.
pub fn damaged_starts()
    ensures count { start_fault (fetched (plain_entry sharing) (altered 3 0 4 sharing_records) 0x1000) ≡ Some StartWhat.BadSegtab }
    ensures resident { start_fault (fetched (plain_entry sharing) (altered 3 14 0xFF sharing_records) 0x1000) ≡ Some StartWhat.BadSegtab }
    ensures region { start_fault (fetched (plain_entry sharing) (altered 3 13 2 sharing_records) 0x1000) ≡ Some StartWhat.BadSegtab }
    ensures origin { start_fault (fetched (plain_entry sharing) (altered 1 30 0x48 sharing_records) 0x1000)
        ≡ Some (StartWhat.BadNoteList 2) }
    ensures number { start_fault (fetched (plain_entry sharing) (altered 1 34 14 sharing_records) 0x1000)
        ≡ Some (StartWhat.BadNoteList 3) }
{}

/// Where B is resident and the read fails that a call brings A in with, B may have left and the
/// range of A be zero.
pub fn failed_call()
    ensures reached { IsReached (plain_fetched sharing) (byte_run (plain_fetched sharing) (Call root_name 4 ∷ [])).state 2 1 }
    ensures gone { residents (plain_fetched sharing)
        (called_as_far_as (plain_fetched sharing) (byte_run (plain_fetched sharing) (Call root_name 4 ∷ [])).state 2 1).storage
        ≡ 1 ∷ [] }
    ensures storage { dump
        (called_as_far_as (plain_fetched sharing) (byte_run (plain_fetched sharing) (Call root_name 4 ∷ [])).state 2 1).storage
        0x1000 0x60 ≡ take 0x58 shared_before ++ replicate 8 0xC2 }
    ensures fields { length (resident_fields (plain_fetched sharing) (byte_run (plain_fetched sharing) (Call root_name 4 ∷ [])).state) ≡ 4 }
{}

/// Linked alone with its statements, the member is the same member again.
pub fn overlay_relinked()
    ensures statements { relink temporary_name [] (plain_fetched sharing)
        ≡ Include temporary_name ∷ OverlayBelow 1 ∷ Insert a_name ∷ OverlayBelow 1 ∷ Insert b_name ∷ Replace temporary_name ∷ [] }
    ensures member { plain_member (relinked shared ((a_name, 2) ∷ (b_name, 3) ∷ []) sharing) ≡ plain_member sharing }
{}

/// Re-blocked, a member has the records that the writer gives for its program with text in pieces
/// of that length.
pub fn overlay_reblocked()
    ensures same { reblocked_bytes (plain_entry sharing) sharing_records 1024 ≡ sharing_records }
    ensures parted { reblocked_bytes (plain_entry sharing) sharing_records 8 ≡ written_bytes sharing false 8 }
    ensures joined { reblocked_bytes (plain_entry sharing) (written_bytes sharing false 8) 1024 ≡ sharing_records }
{}

/// A call of C, which is below A, brings in A as well, and where A is resident leaves it as it is.
pub fn calls_below()
    ensures both { (seen_by_bytes deep call_below).outcomes
        ≡ Reached 0x1058 ∷ Residents (1 ∷ 2 ∷ 3 ∷ [])
        ∷ Dumped 0x1050 (0 ∷ 0 ∷ 0x10 ∷ 0x3C ∷ 0xC1 ∷ 0xC1 ∷ 0xC1 ∷ 0xC1 ∷ []) ∷ Dumped 0x1058 (replicate 8 0xC3) ∷ [] }
    ensures by_symbols { seen_by_bytes deep call_below ≡ seen_by_symbols deep call_below }
    ensures store_kept { (seen_by_bytes deep store_above).outcomes
        ≡ Reached 0x1050 ∷ Stored ∷ Reached 0x1058 ∷ Residents (1 ∷ 2 ∷ 3 ∷ [])
        ∷ Dumped 0x1050 (0 ∷ 0 ∷ 0x10 ∷ 0x3C ∷ 1 ∷ 2 ∷ 0xC1 ∷ 0xC1 ∷ []) ∷ [] }
    ensures kept_by_symbols { seen_by_bytes deep store_above ≡ seen_by_symbols deep store_above }
{}

/// Two regions: a call into the second leaves the first as it was.
pub fn two_regions()
    ensures good { first_bad (plain_entry regional) (plain_member regional).records ≡ None }
    ensures starts { start_fault (plain_fetched regional) ≡ None }
    ensures answers { (seen_by_bytes regional calls_in_turn).outcomes
        ≡ Reached 0x1050 ∷ Reached 0x1058 ∷ Residents (1 ∷ 2 ∷ 3 ∷ []) ∷ [] }
    ensures after { (seen_by_bytes regional calls_in_turn).storage ≡ apart_after }
    ensures by_symbols { seen_by_bytes regional calls_in_turn ≡ seen_by_symbols regional calls_in_turn }
    ensures statements { relink temporary_name (c_name ∷ []) (plain_fetched regional)
        ≡ Include temporary_name ∷ OverlayBelow 1 ∷ Insert a_name ∷ OverlayRegion 2 true ∷ Insert c_name
        ∷ Alias c_name ∷ Replace temporary_name ∷ [] }
    ensures relinked { plain_member (relinked apart ((a_name, 2) ∷ (c_name, 3) ∷ []) regional) ≡ plain_member regional }
{}
