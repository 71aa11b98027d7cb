//! The characters and names of an operand, taken from its front.
ghost use Rattle.std.specs.Prelude.{◌≡◌, ◌+◌, ◌<◌, ◌≤◌, [], ◌∷◌, ◌++◌, List, length, take, IsTrue, ◌↔◌, MatchBool, Result, Ok, Err, slice_get, true, false};
ghost use Rattle.std.specs.List.{prefix_len};
ghost use Rattle.ctl_cards.specs.NameTexts.{begins_name, stands_in_name};
ghost use Rattle.ctl_cards.specs.Reads.{ReadsName, ReadsNames, Expects, ReadsWord, EndsHere, TakesMark};
ghost use Rattle.ctl_cards.specs.Letters.{name_length, cell, name_with, NotNext};
ghost use Rattle.ctl_cards.specs.declared.operand.Stop.TheVariants.{Memory};

use le_bytes::{Items, Name, to_ascii};
use std::alloc::{AllocError, Global};

pub const COMMA: u8 = 0x6B;

pub const OPEN: u8 = 0x4D;

pub const CLOSE: u8 = 0x5D;

pub const STAR: u8 = 0x5C;

/// Why reading stopped: the next character cannot stand here, or memory ran out.
#[derive(Clone, Copy, Debug, PartialEq, Eq)]
pub enum Stop {
    Bad,
    Memory,
}

impl From<AllocError> for Stop {
    ghost from_gives = { λ _ e. e ≡ Memory };

    fn from(_refused: AllocError) -> Stop {
        Stop::Memory
    }
}

/// What is left of an operand. A method that stops leaves it at the character that stopped it.
#[derive(Drop)]
pub struct Operand<'a> {
    pub rest: &'a [u8],
}

impl Operand<'_> {
    /// Takes the character `b`, if it is the next one.
    pub fn take(&mut self, b: u8) -> bool
        ensures { TakesMark b self.old.rest.now result self.new.rest.now }
    {
        match self.rest {
            [first, rest @ ..] if *first == b => {
                self.rest = rest;
                true
            }
            _ => false,
        }
    }

    /// Takes the name at the front: its first character begins a name, and up to seven more stand in it.
    pub fn name(&mut self) -> Result<Name, Stop>
        ensures { ReadsName self.old.rest.now result self.new.rest.now }
    {
        let length = name_length(self.rest);
        if length == 0 {
            return Err(Stop::Bad);
        }
        let (text, rest) = self.rest.split_at(length);
        self.rest = rest;
        Ok(name_with(text))
    }

    /// Takes the names that stand in parentheses, with commas between them, and the closing parenthesis.
    pub fn names(&mut self, alloc: Global) -> Result<Items<Name>, Stop>
        ensures { ReadsNames self.old.rest.now result self.new.rest.now }
    {
        let mut names = Items::new(alloc);
        names.push(self.name()?)?;
        while self.take(COMMA) {
            names.push(self.name()?)?;
        }
        self.expect(CLOSE)?;
        Ok(names)
    }

    /// Takes the character `b`, which has to be the next one.
    pub fn expect(&mut self, b: u8) -> Result<(), Stop>
        ensures { Expects b self.old.rest.now result self.new.rest.now }
    {
        if self.take(b) { Ok(()) } else { Err(Stop::Bad) }
    }

    /// Takes the characters of `word`, which have to be the next ones.
    pub fn word(&mut self, word: &[u8]) -> Result<(), Stop>
        ensures { ReadsWord word.now self.old.rest.now result self.new.rest.now }
    {
        for b in word {
            self.expect(*b)?;
        }
        Ok(())
    }

    /// Stops where something is left.
    pub fn end(&self) -> Result<(), Stop>
        ensures { EndsHere self.now.rest.now result }
    {
        if self.rest.is_empty() {
            Ok(())
        } else {
            Err(Stop::Bad)
        }
    }
}

fn name_length(text: &[u8]) -> usize
    ensures { result ≡ name_length text.now }
{
    match text {
        [first, rest @ ..] if begins_name(*first) => 1 + letters(rest).min(7),
        _ => 0,
    }
}

/// How many characters at the front may stand in a name.
fn letters(text: &[u8]) -> usize
    ensures { result ≡ prefix_len stands_in_name text.now }
{
    text.iter().take_while(|b| stands_in_name(**b)).count()
}

/// Whether a name may begin with this character.
#[tactic(auto, unfolding(crate::specs::NameTexts::begins_name))]
fn begins_name(b: u8) -> bool
    ensures { result ≡ begins_name b }
{
    matches!(to_ascii(b), b'A'..=b'Z' | b'$' | b'#' | b'@' | b'_')
}

/// Whether this character may stand in a name.
#[tactic(auto, unfolding(crate::specs::NameTexts::begins_name, crate::specs::NameTexts::stands_in_name))]
fn stands_in_name(b: u8) -> bool
    ensures { result ≡ stands_in_name b }
{
    begins_name(b) || to_ascii(b).is_ascii_digit()
}

fn name_with(text: &[u8]) -> Name
    ensures { result ≡ name_with text.now }
{
    Name([
        cell(text, 0),
        cell(text, 1),
        cell(text, 2),
        cell(text, 3),
        cell(text, 4),
        cell(text, 5),
        cell(text, 6),
        cell(text, 7),
    ])
}

fn cell(text: &[u8], at: usize) -> u8
    ensures { result ≡ cell text.now at }
{
    text.get(at).copied().unwrap_or(0x40)
}
