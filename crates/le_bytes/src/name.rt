//! Names of sections, labels, members and data sets.
ghost use Rattle.std.specs.Prelude.{◌≡◌};
ghost use Rattle.std.specs.List.{list_all};
ghost use Rattle.le_bytes.specs.Names.{is_name_text, may_begin_name, may_stand_in_name, code_at, padded, name_of_text, is_blank};

use crate::codes::from_ascii;
use std::hash::{Hash, Hasher};

/// Eight EBCDIC characters, padded with blanks on the right. Names are ordered as bytes.
#[derive(Clone, Copy, Debug, PartialEq, Eq, PartialOrd, Ord)]
pub struct Name(pub [u8; 8]);

impl Name {
    /// The name of private code and of blank common: eight blanks.
    pub const BLANK: Name = Name([0x40; 8]);

    /// The name under which private code is printed: `$PRIVATE`.
    pub const PRIVATE_CODE: Name = Name([0x5B, 0xD7, 0xD9, 0xC9, 0xE5, 0xC1, 0xE3, 0xC5]);

    /// The name under which blank common is printed: `$BLNKCOM`.
    pub const BLANK_COMMON: Name = Name([0x5B, 0xC2, 0xD3, 0xD5, 0xD2, 0xC3, 0xD6, 0xD4]);

    /// The name that a text gives. None exactly where the text is not 1 to 8 of A-Z, 0-9, `$`, `#`,
    /// `@` and `_`, or begins with a digit.
    pub fn from_text(text: &str) -> Option<Name>
        ensures { result ≡ name_of_text text.now }
    {
        let characters = text.as_bytes();
        if spells_name(characters) {
            Some(padded(characters))
        } else {
            None
        }
    }

    /// Whether the name is eight blanks.
    pub fn is_blank(&self) -> bool
        ensures { result ≡ is_blank self.now }
    {
        self.0 == [0x40; 8]
    }
}

/// The eight bytes are written at once.
impl Hash for Name {
    ghost use Rattle.std.proofs.Common.{rules};
    ghost use Rattle.std.specs.Cmp.Rules.{hashing};
    ghost use Rattle.le_bytes.specs.Hashed.{written};

    ghost hash_input = { written };

    ghost respects_eq = { Prim.search (hashing, rules) };

    fn hash<H: Hasher>(&self, state: &mut H) {
        state.write(&self.0);
    }
}

fn spells_name(text: &[u8]) -> bool
    ensures { result ≡ is_name_text text.now }
{
    match text {
        [first, rest @ ..] => rest.len() < 8 && begins_name(*first) && all_stand_in_name(rest),
        [] => false,
    }
}

fn begins_name(c: u8) -> bool
    ensures { result ≡ may_begin_name c }
{
    matches!(c, b'A'..=b'Z' | b'$' | b'#' | b'@' | b'_')
}

fn stands_in_name(c: u8) -> bool
    ensures { result ≡ may_stand_in_name c }
{
    begins_name(c) || c.is_ascii_digit()
}

fn all_stand_in_name(text: &[u8]) -> bool
    ensures { result ≡ list_all may_stand_in_name text.now }
{
    text.iter().all(|c| stands_in_name(*c))
}

fn padded(text: &[u8]) -> Name
    ensures { result ≡ record { 0 = padded text.now } }
{
    Name([
        code(text, 0),
        code(text, 1),
        code(text, 2),
        code(text, 3),
        code(text, 4),
        code(text, 5),
        code(text, 6),
        code(text, 7),
    ])
}

/// The code of the character at place `at`, and of the blank past the end or where there is none.
fn code(text: &[u8], at: usize) -> u8
    ensures { result ≡ code_at text.now at }
{
    match text.get(at) {
        Some(c) => from_ascii(*c).unwrap_or(0x40),
        None => 0x40,
    }
}
