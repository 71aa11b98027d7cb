//! The nine operations.
ghost use Rattle.std.specs.Prelude.{◌≡◌};
ghost use Rattle.ctl_cards.specs.Operations.{operation_named};

#[derive(Clone, Copy, Debug, PartialEq, Eq)]
pub enum Operation {
    Include,
    Library,
    Replace,
    Change,
    Entry,
    Alias,
    NameOf,
    Insert,
    Overlay,
}

// The operations in EBCDIC.
const INCLUDE: &[u8] = &[0xC9, 0xD5, 0xC3, 0xD3, 0xE4, 0xC4, 0xC5];

const LIBRARY: &[u8] = &[0xD3, 0xC9, 0xC2, 0xD9, 0xC1, 0xD9, 0xE8];

const REPLACE: &[u8] = &[0xD9, 0xC5, 0xD7, 0xD3, 0xC1, 0xC3, 0xC5];

const CHANGE: &[u8] = &[0xC3, 0xC8, 0xC1, 0xD5, 0xC7, 0xC5];

const ENTRY: &[u8] = &[0xC5, 0xD5, 0xE3, 0xD9, 0xE8];

const ALIAS: &[u8] = &[0xC1, 0xD3, 0xC9, 0xC1, 0xE2];

const NAME: &[u8] = &[0xD5, 0xC1, 0xD4, 0xC5];

const INSERT: &[u8] = &[0xC9, 0xD5, 0xE2, 0xC5, 0xD9, 0xE3];

const OVERLAY: &[u8] = &[0xD6, 0xE5, 0xC5, 0xD9, 0xD3, 0xC1, 0xE8];

impl Operation {
    /// The operation with this text, None where none has it.
    pub fn named(text: &[u8]) -> Option<Operation>
        ensures { result ≡ operation_named text.now }
    {
        if text == INCLUDE {
            Some(Operation::Include)
        } else if text == LIBRARY {
            Some(Operation::Library)
        } else if text == REPLACE {
            Some(Operation::Replace)
        } else if text == CHANGE {
            Some(Operation::Change)
        } else if text == ENTRY {
            Some(Operation::Entry)
        } else if text == ALIAS {
            Some(Operation::Alias)
        } else if text == NAME {
            Some(Operation::NameOf)
        } else if text == INSERT {
            Some(Operation::Insert)
        } else if text == OVERLAY {
            Some(Operation::Overlay)
        } else {
            None
        }
    }
}
