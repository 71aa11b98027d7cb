//! A member of a library as the commands print it: fetched into one block of storage, and spelled as
//! text.
#![tactic(auto)]

mod printing;
mod stop;
mod text;

pub use printing::fetched_text;
pub use stop::FetchStop;
