//! Definitions of linking over symbolic modules and programs, and the worked cases and laws that
//! show what they say. Nothing here runs: the definitions stand in `specs/`, and each function's
//! contract is a law or a row.
#![tactic(auto)]

mod laws;
mod merging_rows;
mod overlay_rows;
mod segment;

pub use laws::{
    ancestors_end_before, calls_have_holders, holders_are_on_paths, holders_hold_for_themselves,
    lower_regions_end_before, origins_follow_parents, origins_follow_regions,
    other_regions_are_not_exclusive, paths_begin_at_root, plain_bytes_stay,
    refused_events_change_nothing, sections_are_apart, sections_lie_in_segments,
    segments_are_on_their_paths, segments_have_parents, statements_keep_trees_small,
    statements_make_trees, tables_end_segments,
};
pub use merging_rows::{
    blank_common_and_weak_name, difference_of_symbols, fortran_program, registers_and_total,
    scattered_over_two_areas, second_section_dropped, section_assembled_elsewhere,
    two_labels_of_one_name,
};
pub use overlay_rows::{
    calls_between_regions, calls_between_segments, common_promoted, crowded_tables, entry_points,
    exclusive_call, inserts_judged, overlay_statements, refused_events, store_kept_by_second_call,
};
pub use segment::Segment;
