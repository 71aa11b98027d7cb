//! Printed lists: the map of a module, its cross-reference, the directory of a library, the statements that
//! link a member again, as lines and as cards, and the lines of events.
#![tactic(auto)]

mod directory;
mod events;
mod fields;
mod laws;
mod maps;
mod pieces;
mod references;
mod relinking;
mod rows;
mod statements;

pub use directory::{directory_text, push_directory};
pub use events::{
    LONGEST_EVENT_LINE, MOST_RESIDENT, MOST_STORED, call_line, dump_head, store_line, where_line,
};
pub use laws::{cards_are_read_back, cards_have_eighty_bytes};
pub use maps::{map_text, push_map};
pub use references::{push_references, xref_text};
pub use relinking::{Relink, RelinkSegment};
pub use rows::{MapRow, RefRow, RowKind};
pub use statements::{push_cards, push_statements, statement_cards, statements_text};
