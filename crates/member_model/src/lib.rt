//! Definitions of load modules over their records and directory data, and the worked cases and laws
//! that show what they say. Nothing here runs: the definitions stand in `specs/`, and each
//! function's contract is a row or a law.
#![tactic(auto)]

mod laws;
mod overlay_rows;
mod plain_rows;

pub use laws::{
    chunks_hold_all_items, faults_come_in_turn, good_members_are_fetched, pieces_hold_all_text,
    records_add_facts, refused_events_change_nothing,
};
pub use overlay_rows::{
    calls_below, calls_by_bytes, damaged_calls, damaged_starts, failed_call, overlay_member,
    overlay_reblocked, overlay_relinked, refused_by_bytes, two_regions,
};
pub use plain_rows::{
    constants_by_bytes, damaged_records, fortran_member, one_section, one_section_read_back,
    plain_relinked, private_code, scattered_over_two_areas, text_in_pieces,
    where_members_may_stand,
};
