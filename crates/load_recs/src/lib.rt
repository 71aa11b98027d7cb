//! The records of a load module, one at a time: what a record holds or its one fault, its items, and
//! the bytes that say them. The format is that of the load module of GC28-6538, with what this
//! project's profile narrows: docs/FORMATS.md has it.
#![tactic(auto)]

mod forms;
mod item_reading;
mod item_writing;
mod items;
mod reading;
mod records;
mod relocation_items;
mod writing;

pub use item_reading::{note_item, scatter_item, symbol_item, translation_item};
pub use item_writing::{put_note_item, put_rld_item, put_symbol_item};
pub use items::{NoteItem, RldItem, SymbolItem, SymbolKind};
pub use reading::read_rec;
pub use records::{Ends, Expect, Rec, RecFault, TextHead};
pub use relocation_items::{RldItems, rld_items};
pub use writing::write_rec;
