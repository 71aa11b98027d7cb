//! Control statements: the nine statements that cards of the primary input hold, read from whole cards.
//!
//! A statement has a blank in column 1. Its operation is the first run of characters in columns 2 to 71,
//! its operand the second; what follows is comment. A character in column 72 says that the next card
//! continues the statement. The statements are those of GC28-6538 in this project's profile.
#![tactic(auto)]

mod card;
mod laws;
mod operand;
mod operand_item;
mod operation;
mod reading;
mod statement;

pub use laws::spelled_is_meant;
pub use reading::read_statement;
pub use statement::{IncludeItem, LibraryItem, Statement, StmtFault};
