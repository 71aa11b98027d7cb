//! Worked cases of members of one segment.
#![tactic(auto, unfolding(linking_model::specs::Kept::kept_in, linking_model::specs::Kept::appearance, linking_model::specs::Linked::stored_byte, linking_model::specs::Linked::number_in, linking_model::specs::Linked::constant_at, linking_model::specs::Linked::linked_byte, linking_model::specs::Merged::definition, linking_model::specs::Merged::double_definition, linking_model::specs::Merged::unresolved, linking_model::specs::Merged::program_of, linking_model::specs::Merged::symbol_count, linking_model::specs::Places::size, linking_model::specs::Places::depth, linking_model::specs::Places::region_start, linking_model::specs::Places::origin_by, linking_model::specs::Places::place_after, linking_model::specs::Places::place, linking_model::specs::Places::table_place, linking_model::specs::Points::displacements, linking_model::specs::Points::registers_end, linking_model::specs::Points::entry_point, linking_model::specs::Points::alias_point, linking_model::specs::Run::segment_piece, linking_model::specs::Run::step, linking_model::specs::Run::run_from, linking_model::specs::Scattered::scattered, linking_model::specs::Settled::settled, linking_model::specs::TableBytes::segtab_bytes, linking_model::specs::TableBytes::entab_bytes, linking_model::specs::Tables::holder, linking_model::specs::Tables::refused_reference, linking_model::specs::Tables::entries, linking_model::specs::Tree::parent_of, linking_model::specs::Tree::region_of, linking_model::specs::Tree::path, linking_model::specs::Tree::segments, linking_model::specs::Tree::regions, linking_model::specs::Tree::lowest_common, linking_model::specs::Tree::overlaid, linking_model::specs::Tree::overlay_fault, load_recs::specs::Items::values_of, crate::specs::ByteRun::step, crate::specs::ByteRun::run_from, crate::specs::Calling::segment_facts, crate::specs::Calling::bad_from, crate::specs::Calling::call_down_to, crate::specs::Chunks::part_items, crate::specs::Chunks::chunks_after, crate::specs::Facts::seen, crate::specs::Facts::facts, crate::specs::Facts::walked, crate::specs::Faults::fault, crate::specs::FirstBad::faults_from, crate::specs::FirstBad::first_bad_of, crate::specs::FirstBad::first_bad, crate::specs::FirstBad::root_part, crate::specs::FirstBad::fetch_bad, crate::specs::Loaded::text_storage, crate::specs::Loaded::loaded, crate::specs::Parts::target_number, crate::specs::Pieces::pieces, crate::specs::Pieces::piece_records, crate::specs::Placing::homeless, crate::specs::Placing::placing_bad, crate::specs::ReadBack::module_of, crate::specs::Reblocked::reblocked, crate::specs::Relink::relink, crate::specs::Starting::start_fault, crate::specs::SymbolList::symbols_written, crate::specs::SymbolList::first_records, crate::specs::Written::segment_records, crate::specs::Written::written))]

ghost use Rattle.std.specs.Prelude.{◌≡◌, ◌∷◌, [], ◌++◌, None, Some, true, false, length, map, take, replicate};
ghost use Rattle.linking_model.specs.Decks.{section, constant, text, plus, a_name, s1_name, s2_name, s3_name};
ghost use Rattle.linking_model.specs.Cases.{dump, scattering, difference, registering, commons, twice, fortran};
ghost use Rattle.load_recs.specs.Records.{RldRecord};
ghost use Rattle.member_model.specs.Cases.{own, long, private, temporary_name, relinked_plain, plain_naming, plain_member, plain_entry, plain_fetched, altered, loaded_bytes, linked_bytes};
ghost use Rattle.member_model.specs.Spelled.{own_records};
ghost use Rattle.member_model.specs.FirstBad.{first_bad, fetch_bad};
ghost use Rattle.member_model.specs.Fetched.{entry_address, first_storage, fetched_over};
ghost use Rattle.member_model.specs.ReadBack.{module_of};
ghost use Rattle.member_model.specs.Relink.{relink, Include, Alias, Replace};
ghost use Rattle.member_model.specs.Written.{written_bytes, member_written};
ghost use Rattle.member_model.specs.Reblocked.{reblocked_bytes};
ghost use Rattle.member_model.specs.Placing.{addresses_over, homeless, is_origin, may_scatter, placing_bad};
ghost use Rattle.member_model.specs.SymbolList.{symbols_written};
ghost use Rattle.pds_lib.specs.Stow.{main_entry};

use le_bytes::RecWhat;
use sym_mod::{Kind, SymEntry, SymTarget};

/// The first program that has to run: its member has four records, is good, and in storage from
/// X'1000' on its constant has moved with it.
pub fn one_section()
    ensures records { (plain_member own).records ≡ own_records }
    ensures good { first_bad (plain_entry own) own_records ≡ None }
    ensures fetched { fetch_bad (plain_entry own) own_records ≡ None }
    ensures entry { entry_address (plain_fetched own) ≡ 0x1000 }
    ensures storage { dump (first_storage (plain_fetched own)) 0x1000 8 ≡ 0 ∷ 0 ∷ 0 ∷ 0 ∷ 0 ∷ 0 ∷ 0x10 ∷ 0x04 ∷ [] }
{}

/// Read back, the member is the module that it was linked from, entered at its first byte.
pub fn one_section_read_back()
    ensures { module_of (plain_entry own) own_records ≡ record {
      items = section a_name 8 ∷ [];
      fragments = text (0 ∷ 0 ∷ 0 ∷ 0 ∷ 0 ∷ 0 ∷ 0 ∷ 4 ∷ []) ∷ [];
      constants = constant 4 Kind.Address (plus (SymTarget.Own 0) ∷ []) ∷ [];
      entry = SymEntry.At 0 0;
    } }
{}

/// The first record that has a fault, and the first of its faults.
pub fn damaged_records()
    ensures without_records { first_bad (plain_entry own) [] ≡ Some (0, RecWhat.BadEntryPoint) }
    ensures without_the_last { first_bad (plain_entry own) (take 3 own_records) ≡ Some (4, RecWhat.NoEnd) }
    ensures one_too_many { first_bad (plain_entry own) (own_records ++ own_records) ≡ Some (5, RecWhat.BadOrder) }
    ensures shorter_module { first_bad (record (plain_entry own) { length = 7 }) own_records ≡ Some (1, RecWhat.SectionOutside) }
    ensures entry_behind { first_bad (record (plain_entry own) { entry = 9 }) own_records ≡ Some (0, RecWhat.BadEntryPoint) }
    ensures no_scatter_items { first_bad (record (plain_entry own) { attr = 4 }) own_records ≡ Some (2, RecWhat.BadScatter) }
    ensures no_notes { first_bad (record (plain_entry own) { attr = 32 }) own_records ≡ Some (2, RecWhat.BadOrder) }
    ensures unknown_type { first_bad (plain_entry own) (altered 0 16 1 own_records) ≡ Some (1, RecWhat.BadType) }
    ensures segment_two { first_bad (plain_entry own) (altered 0 20 2 own_records) ≡ Some (1, RecWhat.SectionOutside) }
    ensures number_two { first_bad (plain_entry own) (altered 0 5 2 own_records) ≡ Some (1, RecWhat.BadEsdid) }
    ensures text_behind { first_bad (plain_entry own) (altered 1 11 1 own_records) ≡ Some (2, RecWhat.TextOutside) }
    ensures constant_behind { first_bad (plain_entry own) (altered 3 23 5 own_records) ≡ Some (4, RecWhat.ConstantOutside) }
    ensures no_symbol { first_bad (plain_entry own) (altered 3 17 2 own_records) ≡ Some (4, RecWhat.BadEsdid) }
    ensures marked_outside { first_bad (plain_entry own) (altered 3 20 0x8C own_records) ≡ Some (4, RecWhat.BadFlag) }
    ensures promised_item { first_bad (plain_entry own) (altered 3 20 0x0D own_records) ≡ Some (4, RecWhat.BadFlag) }
    ensures segment_goes_on { first_bad (plain_entry own) (altered 3 0 6 own_records) ≡ Some (4, RecWhat.BadOrder) }
{}

/// The text of 4,096 bytes makes nine records in pieces of 1,024 bytes, and three in one piece.
/// Re-blocked, the nine become three, and the three nine.
pub fn text_in_pieces()
    ensures short { length (written_bytes long false 1024) ≡ 9 }
    ensures whole { length (written_bytes long false 13030) ≡ 3 }
    ensures joined { length (reblocked_bytes (plain_entry long) (written_bytes long false 1024) 13030) ≡ 3 }
    ensures parted { length (reblocked_bytes (plain_entry long) (written_bytes long false 13030) 1024) ≡ 9 }
{}

/// A module may begin at a multiple of 8 where it ends below 16 MB, and is placed over areas where
/// it has scatter items and no overlay.
pub fn where_members_may_stand()
    ensures at_eight { is_origin 8 0x1000 ≡ true }
    ensures at_four { is_origin 8 0x1004 ≡ false }
    ensures last_place { is_origin 15 0xFFFFF0 ≡ true }
    ensures one_byte_more { is_origin 16 0xFFFFF0 ≡ false }
    ensures scatter { may_scatter (main_entry (member_written scattering true 1024 (plain_naming scattering))) ≡ true }
    ensures no_scatter { may_scatter (plain_entry scattering) ≡ false }
    ensures overlay { may_scatter (record (plain_entry scattering) { attr = 36 }) ≡ false }
{}

/// Three sections over two areas: the address of the second is where that stands. Without the
/// second area that section fits nowhere.
pub fn scattered_over_two_areas()
    ensures addresses { addresses_over
        (record { mark = 0x1000; end = 0x1010 } ∷ record { mark = 0x4000; end = 0x4800 } ∷ []) (symbols_written scattering)
        ≡ Some (0x1000 ∷ 0x4000 ∷ 0x1008 ∷ []) }
    ensures no_room { homeless (record { mark = 0x1000; end = 0x1010 } ∷ []) (symbols_written scattering) ≡ Some s2_name }
    ensures before_storage { placing_bad (main_entry (member_written scattering true 1024 (plain_naming scattering)))
        (altered 1 11 1 (written_bytes scattering true 1024)) ≡ Some (2, RecWhat.BadScatter) }
    ensures after_storage { placing_bad (main_entry (member_written scattering true 1024 (plain_naming scattering)))
        (altered 3 11 1 (written_bytes scattering true 1024)) ≡ None }
    ensures good { first_bad (main_entry (member_written scattering true 1024 (plain_naming scattering)))
        (written_bytes scattering true 1024) ≡ None }
    ensures moved { dump (first_storage (fetched_over (main_entry (member_written scattering true 1024 (plain_naming scattering)))
        (written_bytes scattering true 1024) (0x1000 ∷ 0x4000 ∷ 0x1008 ∷ []))) 0x1000 16
        ≡ 0 ∷ 0 ∷ 0x40 ∷ replicate 13 0 }
{}

/// In storage, address constants have moved with what they refer to, and those of registers have
/// not: the bytes are those of the program linked there.
pub fn constants_by_bytes()
    ensures difference { loaded_bytes difference 0x2000 0x20 ≡ linked_bytes difference 0x2000 0x20 }
    ensures registers { loaded_bytes registering 0x3000 0x10 ≡ linked_bytes registering 0x3000 0x10 }
    ensures weak_name { loaded_bytes commons 0x2000 0x10 ≡ linked_bytes commons 0x2000 0x10 }
    ensures unresolved_call { loaded_bytes twice 0x2000 0x10 ≡ linked_bytes twice 0x2000 0x10 }
    ensures good { map (λ P. first_bad (plain_entry P) (plain_member P).records) (difference ∷ registering ∷ commons ∷ twice ∷ [])
        ≡ None ∷ None ∷ None ∷ None ∷ [] }
{}

/// Private code, a label, and constants of three and four bytes.
pub fn private_code()
    ensures good { first_bad (plain_entry private) (plain_member private).records ≡ None }
    ensures loaded { loaded_bytes private 0x12340 0x10
        ≡ 0x00 ∷ 0x01 ∷ 0x23 ∷ 0x40 ∷ 0x00 ∷ 0x01 ∷ 0x23 ∷ 0x4A ∷ 0 ∷ 0 ∷ 0 ∷ 0x01 ∷ 0x23 ∷ 0x40 ∷ 0 ∷ 0 ∷ [] }
    ensures linked { loaded_bytes private 0x12340 0x10 ≡ linked_bytes private 0x12340 0x10 }
    ensures relinked { plain_member (relinked_plain private) ≡ plain_member private }
{}

/// Linked alone, a member of one segment is the same member again, and NAME and ALIAS are all that
/// its statements have beside INCLUDE.
pub fn plain_relinked()
    ensures own { plain_member (relinked_plain own) ≡ plain_member own }
    ensures difference { plain_member (relinked_plain difference) ≡ plain_member difference }
    ensures twice { plain_member (relinked_plain twice) ≡ plain_member twice }
    ensures commons { plain_member (relinked_plain commons) ≡ plain_member commons }
    ensures registering { plain_member (relinked_plain registering) ≡ plain_member registering }
    ensures scattering { plain_member (relinked_plain scattering) ≡ plain_member scattering }
    ensures statements { relink temporary_name (a_name ∷ s1_name ∷ []) (plain_fetched own)
        ≡ Include temporary_name ∷ Alias a_name ∷ Alias s1_name ∷ Replace temporary_name ∷ [] }
{}

/// The member of the FORTRAN program, with a label, is good, and the same again when it is linked
/// alone.
pub fn fortran_member()
    ensures good { first_bad (plain_entry fortran) (plain_member fortran).records ≡ None }
    ensures relinked { plain_member (relinked_plain fortran) ≡ plain_member fortran }
{}
