//! The words of the command line, judged and understood.
#![tactic(auto)]

mod areas;
mod command;
mod digits;
mod judging;
pub mod keys;
mod options;
mod reading;
mod request;
mod table;
mod word;

pub use areas::AreaRange;
pub use command::Command;
pub use judging::BadWord;
pub use options::Options;
pub use reading::{data_set_in, read_words};
pub use request::{DataSet, Request};
pub use word::has_key;
