//! What the modules that were read say of each name, as growing lists of symbols without repeats. A
//! module goes in whole, or the lists stay as they were.
#![tactic(auto)]

mod adding;
mod constants;
mod flags;
mod index;
mod key;
mod noting;
mod subset;
mod symbol_table;
mod symbols;

pub use flags::Flags;
pub use index::Index;
pub use key::{Key, Sighted, flag_at, stands_at};
pub use noting::Stop;
pub use symbol_table::SymbolTable;
pub use symbols::Symbols;
