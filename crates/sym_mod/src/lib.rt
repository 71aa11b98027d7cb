//! The symbolic form of what is linked: a module as it was read, and a program as it was merged.
//! Plain types that many crates share, and what it means that a value of them is sound.
#![tactic(auto)]

mod edits;
mod module;
mod program;
mod reserved;
mod terms;

pub use edits::Edit;
pub use module::{Frag, Item, ItemKind, Kind, SymConst, SymEntry, SymModule, SymTarget, SymTerm};
pub use program::{
    Constant, Label, Places, Program, Register, SecKind, Section, StartAt, Tables, Target, Term,
    Text, Unknown,
};
pub use reserved::{ENTRY_TABLE, SEGMENT_TABLE, is_reserved};
pub use terms::Terms;
