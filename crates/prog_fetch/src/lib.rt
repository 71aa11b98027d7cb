//! Program fetch: a member is placed, and its records are read into storage one at a time.
#![tactic(auto)]

mod fault;
mod fetched;
mod fetching;
mod laws;
mod loading;
mod reading;
mod scattering;

pub use fault::{FetchFault, ScatterFault};
pub use fetch_places::{Area, Placement, place_block};
pub use fetch_storage::Part;
pub use fetched::Fetched;
pub use fetching::fetch;
pub use laws::placed_members_fit;
pub use scattering::place_scatter;
