//! A deck of object cards read as a symbolic module, or refused at its first faulty card.
#![tactic(auto)]

mod building;
mod constants;
mod dictionary;
mod ending;
mod facts;
mod fault;
mod few;
mod flags;
mod gathering;
mod judging;
mod kinds;
mod numbered;
mod reading;
mod terms;
mod texts;

pub use fault::ObjFault;
pub use numbered::Numbered;
pub use reading::read_module;
