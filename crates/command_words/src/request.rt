//! A request: the words of a command line, understood.
ghost use Rattle.std.specs.Prelude.{◌≡◌, Some, None, map, string_bytes};
ghost use Rattle.command_words.specs.Judged.{bad_word};
ghost use Rattle.command_words.specs.Meaning.{command_of};

use crate::areas::{AreaRange, areas_in, one_area};
use crate::command::Command;
use crate::digits::{generator_size, hex_number};
use crate::keys::{AREAS, MEMBER, ORIGIN, PARM, TEMPNAME, is_reserved};
use crate::options::{Options, options_in};
use crate::word::value_in;
use le_bytes::{Memory, Name};
use std::alloc::Global;

/// Words that are good, with the command that the first of them names.
#[derive(Clone, Copy, Debug)]
pub struct Request<'a> {
    pub command: Command,
    /// The words as they came, the command among them.
    pub words: &'a [String],
    pub ghost good: { bad_word (map string_bytes words.now) ≡ None },
    pub ghost named: { command_of (map string_bytes words.now) ≡ Some command },
}

/// A data set that a word names.
#[derive(Clone, Copy, Debug)]
pub struct DataSet<'a> {
    /// The data definition name.
    pub dd: Name,
    /// The path.
    pub path: &'a str,
}

impl<'a> Request<'a> {
    ghost use Rattle.std.specs.Prelude.{IfOk, IsSome, IsTrue, false, ◌%◌, ◌^◌, ◌<◌, ◌≤◌};
    ghost use Rattle.command_words.specs.Keys.{member, is_reserved};
    ghost use Rattle.command_words.specs.Judged.{is_asked};
    ghost use Rattle.command_words.specs.Meaning.{member_of, module_name_of, origin_of, areas_of, storage_of, options_of, size_of, path_of};
    ghost use Rattle.command_words.specs.Lists.{AreAreas};
    ghost use Rattle.command_words.specs.Settings.{text_of};
    ghost use Rattle.command_words.specs.Seen.{words_of};

    /// The name that MEMBER gives. It is there where the command asks for it, which `list` does where it
    /// is to put statements.
    #[tactic(auto, using(crate::proofs::AskedLemmas::member_asked), unfolding(crate::specs::Meaning::member_of))]
    pub fn member(&self) -> Option<Name>
        ensures value { result ≡ member_of (words_of self.now) }
        ensures asked { IsTrue (is_asked self.now.command (words_of self.now) member) → IsSome result }
    {
        Name::from_text(value_in(MEMBER, self.words)?)
    }

    /// The name of a load module that no NAME statement ends: that of MEMBER, else TEMPNAME.
    pub fn module_name(&self) -> Name
        ensures { result ≡ module_name_of (words_of self.now) }
    {
        self.member().unwrap_or(TEMPNAME)
    }

    /// The address that ORIGIN gives, 0 where it is not given.
    #[tactic(auto, unfolding(crate::specs::Meaning::origin_of))]
    pub fn origin(&self) -> u32
        ensures value { result ≡ origin_of (words_of self.now) }
        ensures small { result < 2 ^ 24 }
    {
        match value_in(ORIGIN, self.words) {
            Some(text) => hex_number(text).unwrap_or(0),
            None => 0,
        }
    }

    /// The areas that AREAS gives, in order; none where it is not given.
    #[tactic(auto, unfolding(crate::specs::Meaning::areas_of))]
    pub fn areas(&self, alloc: Global) -> Result<Vec<AreaRange>, Memory>
        ensures value { IfOk result (λ areas. areas.items ≡ areas_of (words_of self.now)) }
        ensures in_order { IfOk result (λ areas. AreAreas 0 areas.items) }
    {
        areas_in(alloc, value_in(AREAS, self.words).unwrap_or(""))
    }

    /// The storage of `tasks`: the one area that AREAS gives, from a multiple of 8 on. It is empty where
    /// AREAS does not give such an area.
    #[tactic(auto, unfolding(crate::specs::Meaning::storage_of))]
    pub fn storage(&self) -> AreaRange
        ensures value { result ≡ storage_of (words_of self.now) }
        ensures aligned { result.from % 8 ≡ 0 }
        ensures ascends { result.from ≤ result.to }
        ensures fits { result.to < 2 ^ 24 }
    {
        let area = match value_in(AREAS, self.words) {
            Some(text) => one_area(text),
            None => None,
        };
        area.unwrap_or(AreaRange { from: 0, to: 0 })
    }

    /// The options that PARM turns on.
    #[tactic(auto, unfolding(crate::specs::Meaning::options_of))]
    pub fn options(&self) -> Options
        ensures { result ≡ options_of (words_of self.now) }
    {
        options_in(value_in(PARM, self.words).unwrap_or(""))
    }

    /// The size of the deck that `gen` makes, from 1 to 20000.
    #[tactic(auto, unfolding(crate::specs::Meaning::size_of))]
    pub fn size(&self) -> u32
        ensures value { result ≡ size_of (words_of self.now) }
        ensures in_range { (1 ≤ result) × (result ≤ 20000) }
    {
        match value_in(PARM, self.words) {
            Some(text) => generator_size(text).unwrap_or(1),
            None => 1,
        }
    }

    /// The path of the data set with this data definition name. It is there where the command asks for it.
    #[tactic(auto, using(crate::proofs::AskedLemmas::path_asked), unfolding(crate::specs::Meaning::path_of))]
    pub fn path(&self, dd: Name) -> Option<&'a str>
        ensures value { text_of result ≡ path_of (words_of self.now) dd }
        ensures asked { IsTrue (is_asked self.now.command (words_of self.now) dd) → is_reserved dd ≡ false → IsSome result }
    {
        if is_reserved(dd) {
            None
        } else {
            value_in(dd, self.words)
        }
    }
}
