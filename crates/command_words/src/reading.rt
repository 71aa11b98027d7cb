//! The words read.
ghost use Rattle.std.specs.Prelude.{◌≡◌, IfOk, Some, map, string_bytes};
ghost use Rattle.std.specs.Result.{result_err};
ghost use Rattle.command_words.specs.Judged.{bad_word};
ghost use Rattle.command_words.specs.Meaning.{command_of, data_set_in};
ghost use Rattle.command_words.specs.Seen.{seen_set};

use crate::command::command_named;
use crate::judging::{BadWord, first_bad_word, missing_key};
use crate::keys::is_reserved;
use crate::request::{DataSet, Request};
use crate::word::setting_in;
use le_bytes::WordWhat;

/// Reads the words after the program's own name. Words are judged from left to right; the error is the
/// first bad word, or the first key that is wanting. A key is sought among the words before it, so the
/// time is quadratic in the number of words that name data sets.
#[tactic(auto, unfolding(crate::specs::Judged::bad_word))]
pub fn read_words(words: &[String]) -> Result<Request<'_>, BadWord>
    ensures judged { result_err result ≡ bad_word (map string_bytes words.now) }
    ensures words { IfOk result (λ request. request.words.now ≡ words.now) }
    ensures command { IfOk result (λ request. command_of (map string_bytes words.now) ≡ Some request.command) }
{
    let Some(first) = words.first() else {
        return Err(BadWord {
            word: 1,
            what: WordWhat::NoCommand,
        });
    };
    let Some(command) = command_named(first.as_str()) else {
        return Err(BadWord {
            word: 1,
            what: WordWhat::UnknownCommand,
        });
    };
    if let Some(bad) = first_bad_word(command, words) {
        return Err(bad);
    }
    match missing_key(command, words) {
        Some(key) => Err(BadWord {
            word: words.len() + 1,
            what: WordWhat::Missing(key),
        }),
        None => Ok(Request { command, words }),
    }
}

/// The data set that a word names. None where the word is no key and value, or its key is PARM, MEMBER,
/// ORIGIN or AREAS.
#[tactic(auto, unfolding(crate::specs::Meaning::data_set_in))]
pub fn data_set_in(word: &str) -> Option<DataSet<'_>>
    ensures { seen_set result ≡ data_set_in word.now }
{
    let setting = setting_in(word)?;
    if is_reserved(setting.key) {
        None
    } else {
        Some(DataSet {
            dd: setting.key,
            path: setting.value,
        })
    }
}
