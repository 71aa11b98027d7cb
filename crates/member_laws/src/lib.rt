//! Laws of written members, over definitions alone: what a reader gathers from the records that the
//! writer gives for a linked program, that such a member is good, and that its storage, loaded, is the
//! linked program. Nothing here runs: each function's contract is a law, for all programs that can be
//! linked.
#![tactic(auto)]

mod laws;
mod loading;

pub use laws::{written_members_are_good, written_members_stand, written_records_gather};
pub use loading::{
    entries_are_placed, scattered_load_linked, segments_load_linked, segments_read_load_linked,
    written_members_load,
};
