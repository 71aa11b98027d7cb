//! One card of 80 columns: object cards, control statements and comments, read and written.
//!
//! The columns of object cards are those of GC28-6538. Which bytes are looked at, and which of several
//! faults counts, is this project's profile.
#![tactic(auto)]

mod card;
mod end;
mod esd;
mod fault;
mod kind;
mod layout;
mod reading;
mod rld;
mod txt;
mod writing;

pub use card::{Card, CardRld, EndCard, EndStart, EsdCard, EsdItem, EsdKind, RldCard, TxtCard};
pub use end::read_end;
pub use esd::read_esd;
pub use fault::CardFault;
pub use kind::{CardKind, kind_of_card};
pub use reading::read_card;
pub use rld::read_rld;
pub use txt::read_txt;
pub use writing::write_card;
