//! Laws of runs, over definitions alone: the trees that OVERLAY statements give, and what holds of a
//! written member that starts and runs. Nothing here runs: each function's contract is a law, for all
//! programs that can be linked.
#![tactic(auto)]

mod answering;
mod beginning;
mod bringing;
mod growing;
mod needing;
mod reaching;
mod running;
mod standing;
mod staying;
mod touching;

pub use answering::{calls_answer_alike, events_answer_alike};
pub use beginning::{
    a_tree_that_is_not_grown, grown_members_start, notes_are_exact, segments_read_alone,
};
pub use bringing::{
    calls_bring_alike, calls_bring_fields, calls_change_nothing_else, new_segments_are_linked,
    runs_begin_alike, stores_put_alike,
};
pub use growing::{grown_trees_are_trees, statements_grow_trees, statements_keep_trees_grown};
pub use needing::{
    a_reference_without_holder, a_section_without_name, accepted_references_have_holders,
};
pub use reaching::{direct_addresses_are_in_no_table, entries_are_read_back, one_table_is_found};
pub use running::{calls_reach_symbols, runs_go_alike, runs_stay_alike, scattered_runs_go_alike};
pub use standing::written_members_stand_for_programs;
pub use staying::{calls_keep_paths, residents_are_apart, root_is_resident};
pub use touching::stores_touch_alike;
