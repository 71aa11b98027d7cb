//! How a command ends.
ghost use Rattle.std.specs.Prelude.{◌≡◌};
ghost use Rattle.command_sets.specs.Exits.{exit_of};

use le_bytes::{Name, Refusal, WordWhat};

/// A call of the outside that failed.
#[derive(Clone, Copy, Debug, PartialEq, Eq)]
pub enum Fault {
    /// A read of the data set with this data definition name.
    Read(Name),
    /// The put of the data set with this data definition name.
    Write(Name),
    /// A write of the printed text.
    Print,
}

/// How a command ends.
#[derive(Clone, Copy, Debug, PartialEq, Eq)]
pub enum Status {
    /// All was done, and every name that has to be is resolved.
    Done,
    /// All was done, and some name that has to be resolved is not.
    DoneWithUnresolved,
    /// The input is refused.
    Refused(Refusal),
    /// This word, counted from 1, is bad.
    BadWords(usize, WordWhat),
    /// A call of the outside failed.
    Fault(Fault),
    /// Want of memory.
    Memory,
    /// The words, or the card of this number of the primary input, ask for what is not built yet.
    NotBuilt(Option<u32>),
}

impl Status {
    /// The exit number of the process.
    pub fn exit(self) -> u8
        ensures { result ≡ exit_of self }
    {
        match self {
            Status::Done => 0,
            Status::DoneWithUnresolved => 4,
            Status::Refused(_) | Status::NotBuilt(_) => 8,
            Status::BadWords(_, _) => 12,
            Status::Fault(_) => 16,
            Status::Memory => 20,
        }
    }
}
