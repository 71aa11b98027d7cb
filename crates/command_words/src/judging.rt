//! The first bad word.
ghost use Rattle.std.specs.Prelude.{◌≡◌, ◌<◌, map, length, string_bytes, find, not};
ghost use Rattle.command_words.specs.Judged.{is_excluded, is_parm, are_areas_of, is_good_value, setting_fault, word_fault, bad_from, missing_key};
ghost use Rattle.command_words.specs.Word.{is_given};
ghost use Rattle.command_words.specs.Settings.{seen_setting};

use crate::areas::{is_area_list, one_area};
use crate::command::Command;
use crate::digits::{generator_size, hex_number};
use crate::keys::{AREAS, MEMBER, ORIGIN, PARM, SYSPUNCH};
use crate::options::is_option_list;
use crate::table::{is_used, required};
use crate::word::{Setting, is_given, setting_in};
use le_bytes::{Name, WordWhat};

/// A word that is bad.
#[derive(Clone, Copy, Debug, PartialEq, Eq)]
pub struct BadWord {
    /// The number of the word, from 1. A missing key has the number after the last word.
    pub word: usize,
    /// What is wrong with it.
    pub what: WordWhat,
}

/// The first word after the command that is bad.
#[tactic(auto, using(crate::proofs::JudgedLemmas::bad_from_step))]
pub(crate) fn first_bad_word(command: Command, words: &[String]) -> Option<BadWord>
    requires { 0 < length words.now }
    ensures { result ≡ bad_from command words.now 1 }
{
    for i in 1..words.len() {
        if let Some(what) = word_fault(command, &words[..i], words[i].as_str()) {
            return Some(BadWord { word: i + 1, what });
        }
    }
    None
}

/// The first key that the words lack and have to give.
#[tactic(auto, unfolding(crate::specs::Judged::missing_key))]
pub(crate) fn missing_key(command: Command, words: &[String]) -> Option<Name>
    ensures { result ≡ missing_key command (map string_bytes words.now) }
{
    let absent = absent_key(required(command), words);
    if absent.is_none() && command == Command::List && is_given(SYSPUNCH, words) {
        absent_key(&[MEMBER], words)
    } else {
        absent
    }
}

fn absent_key(keys: &[Name], words: &[String]) -> Option<Name>
    ensures { result ≡ find (λ key. not (is_given key (map string_bytes words.now))) keys.now }
{
    keys.iter().copied().find(|key| !is_given(*key, words))
}

/// What is wrong with a word after the words before it.
#[tactic(auto, unfolding(crate::specs::Judged::word_fault))]
fn word_fault(command: Command, before: &[String], word: &str) -> Option<WordWhat>
    ensures { result ≡ word_fault command (map string_bytes before.now) word.now }
{
    match setting_in(word) {
        Some(setting) => setting_fault(command, before, setting),
        None => Some(WordWhat::NotKeyValue),
    }
}

fn setting_fault(command: Command, before: &[String], setting: Setting<'_>) -> Option<WordWhat>
    ensures { result ≡ setting_fault command (map string_bytes before.now) (seen_setting setting.entry) }
{
    let Setting { key, value } = setting;
    if is_given(key, before) {
        Some(WordWhat::Repeated)
    } else if !is_used(command, key) {
        Some(WordWhat::NotUsed)
    } else if is_excluded(key, before) {
        Some(WordWhat::Excluded)
    } else if !is_good_value(command, key, value) {
        Some(WordWhat::BadValue)
    } else {
        None
    }
}

fn is_excluded(key: Name, before: &[String]) -> bool
    ensures { result ≡ is_excluded key (map string_bytes before.now) }
{
    key == ORIGIN && is_given(AREAS, before) || key == AREAS && is_given(ORIGIN, before)
}

fn is_good_value(command: Command, key: Name, value: &str) -> bool
    ensures { result ≡ is_good_value command key value.now }
{
    match key {
        PARM => is_parm(command, value),
        MEMBER => Name::from_text(value).is_some(),
        ORIGIN => hex_number(value).is_some(),
        AREAS => are_areas_of(command, value),
        _ => true,
    }
}

fn is_parm(command: Command, value: &str) -> bool
    ensures { result ≡ is_parm command value.now }
{
    match command {
        Command::Gen => generator_size(value).is_some(),
        _ => is_option_list(command, value),
    }
}

fn are_areas_of(command: Command, value: &str) -> bool
    ensures { result ≡ are_areas_of command value.now }
{
    match command {
        Command::Tasks => one_area(value).is_some(),
        _ => is_area_list(value),
    }
}
