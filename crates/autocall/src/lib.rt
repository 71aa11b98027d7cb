//! Automatic library call: what LIBRARY statements say of symbols, and which unresolved name is called
//! next, from which library (GC28-6538, in this project's profile).
#![tactic(auto)]

mod calling;
mod cursor;
mod dds;
mod laws;
mod name_list;
mod rules;

pub use cursor::Cursor;
pub use laws::{added_keeps_place, no_call_is_left, tried_keeps_place};
pub use rules::{CallRules, SYSLIB};
