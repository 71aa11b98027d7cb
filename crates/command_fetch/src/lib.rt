//! The command `fetch`, and a member that `go` places.
#![tactic(auto)]

mod fetching;
mod placing;

pub use fetching::{fetch, member_text};
pub use placing::placed_answer;
