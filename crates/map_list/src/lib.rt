//! The text that linkedit prints: names, addresses and numbers, the lines that stand alone, dumps, and
//! the line of each refusal.
#![tactic(auto)]

mod card_faults;
mod dumps;
mod lines;
mod other_faults;
mod printed;
mod record_faults;
mod refusals;
mod run_faults;
mod words;

pub use dumps::{dump_line, push_dump};
pub use lines::{push_entry, push_linked, push_unresolved};
pub use printed::{address_digits, name_text, push_address, push_name, push_number};
pub use refusals::{Line, push_refusal, push_words, refusal_text};
