//! What good words ask for, decided before anything is put or printed.
ghost use Rattle.command_words.specs.Seen.{words_of};
ghost use Rattle.std.specs.Prelude.{◌≡◌, ◌||◌, true, All, IfOk, Some, map, string_bytes};
ghost use Rattle.std.specs.List.{list_all};
ghost use Rattle.le_io.specs.Counts.{NoneFalls, WhereTold};
ghost use Rattle.command_words.specs.Keys.{syslin, syslmod, member, origin, parm};
ghost use Rattle.command_words.specs.Meaning.{command_of};
ghost use Rattle.command_words.specs.Word.{has_key};
ghost use Rattle.linkedit_top.specs.Again.{PutsAgain};
ghost use Rattle.command_sets.specs.Causes.{IsOwn};
ghost use Rattle.command_sets.specs.Ending.{IsOfGoodWords};
ghost use Rattle.command_sets.specs.Sets.{names_output};
ghost use Rattle.linkedit_top.specs.Outcome.{are_built_options, are_built_settings, command_answer, good_words, is_built, is_built_setting};
ghost use Rattle.linkedit_top.specs.Deciding.{Decides, HasCause};
ghost use Rattle.command_sets.specs.Reading.{IsReadSet};
ghost use Rattle.command_sets.specs.Libraries.{PutsOutput};
ghost use Rattle.linkedit_top.specs.Headline.{IsReadAgain, LinksAsPromised};

use crate::going::go;
use command_fetch::fetch;
use command_link::link;
use command_sets::{Answer, Stop, read_sets, refused, unbuilt};
use command_words::keys::{MEMBER, ORIGIN, PARM, SYSLIN, SYSLMOD};
use command_words::{Command, Options, Request, has_key};
use le_bytes::{Items, Memory};
use le_io::Store;
use pds_lib::Set;
use std::alloc::Global;

/// The answer to good words.
///
/// # Errors
/// A failed read; want of memory.
#[tactic(auto, using(crate::proofs::Decided::decided, crate::proofs::Decided::declined, crate::proofs::Decided::not_built, crate::proofs::Headline::sets_promised, crate::proofs::Headline::refused_promised, crate::proofs::Headline::unbuilt_promised, crate::proofs::ReadAgain::none_again, crate::proofs::ReadAgain::sets_again, command_sets::proofs::Statuses::own_cause, command_sets::proofs::Statuses::own_final, command_sets::proofs::Statuses::own_good))]
pub fn answer<S: Store>(alloc: Global, request: &Request<'_>, store: &mut S) -> Result<Answer, Stop>
    ensures answer { WhereTold (S.told store.old) (λ files. Decides (good_words (words_of request.now) files) result) }
    ensures promised { WhereTold (S.told store.old) (λ files. IfOk result (LinksAsPromised (words_of request.now) files)) }
    ensures again { WhereTold (S.told store.old) (λ files. IfOk result (IsReadAgain (words_of request.now) files)) }
    ensures good { IfOk result (λ answer. IsOfGoodWords answer.status) }
    ensures put { IfOk result (PutsOutput (names_output (words_of request.now))) }
    ensures told { S.told store.new ≡ S.told store.old }
    ensures counts { NoneFalls (S.counts store.old) (S.counts store.new) }
    ensures cause { HasCause (S.counts store.old) (S.counts store.new) (words_of request.now) result }
{
    if !is_built(request) {
        return Ok(unbuilt(alloc)?);
    }
    match read_sets(alloc, request, store) {
        Ok(Ok(sets)) => Ok(command_answer(alloc, request, sets)?),
        Ok(Err(refusal)) => Ok(refused(alloc, refusal)?),
        Err(stop) => Err(stop),
    }
}

/// The answer of the command for its data sets.
#[tactic(auto, using(crate::proofs::BuiltWords::link_names, crate::proofs::BuiltWords::heeded, crate::proofs::BuiltWords::no_syslib))]
fn command_answer(alloc: Global, request: &Request<'_>, sets: Items<Set>) -> Result<Answer, Memory>
    requires read { All (IsReadSet (words_of request.now)) sets }
    requires built { is_built (words_of request.now) ≡ true }
    ensures answer { IfOk result (λ answer. answer ≡ command_answer (Some request.now.command) (words_of request.now) sets) }
    ensures again { IfOk result (PutsAgain request.now.command (words_of request.now) sets) }
    ensures own { IfOk result (λ answer. IsOwn answer.status) }
    ensures put { IfOk result (PutsOutput (names_output (words_of request.now))) }
{
    match request.command {
        Command::Go => go(alloc, request, sets),
        Command::Link => link(alloc, request, sets),
        Command::Fetch => fetch(alloc, request, sets),
        _ => unbuilt(alloc),
    }
}

/// Whether the words ask for what is built.
fn is_built(request: &Request<'_>) -> bool
    ensures { result ≡ is_built (words_of request.now) }
{
    are_built_settings(request.command, request.words) && are_built_options(request.options())
}

/// Whether every word after the command gives a key that is built for it.
fn are_built_settings(command: Command, words: &[String]) -> bool
    requires { command_of (map string_bytes words.now) ≡ Some command }
    ensures { result ≡ are_built_settings (map string_bytes words.now) }
{
    match words {
        [] => true,
        [_, settings @ ..] => are_all_built(command, settings),
    }
}

fn are_all_built(command: Command, settings: &[String]) -> bool
    ensures { result ≡ list_all (is_built_setting (Some command)) (map string_bytes settings.now) }
{
    for setting in settings {
        if !is_built_setting(command, setting.as_str()) {
            return false;
        }
    }
    true
}

/// Whether a word gives a key that is built for the command.
fn is_built_setting(command: Command, word: &str) -> bool
    ensures { result ≡ is_built_setting (Some command) word.now }
{
    match command {
        Command::Go => has_linking_key(word) || has_key(ORIGIN, word),
        Command::Link => has_linking_key(word),
        Command::Fetch => has_fetching_key(word),
        _ => false,
    }
}

/// Whether a word gives a key that is built for both commands that link.
fn has_linking_key(word: &str) -> bool
    ensures { result ≡ (has_key syslin word.now || has_key syslmod word.now || has_key member word.now || has_key parm word.now) }
{
    has_key(SYSLIN, word) || has_key(SYSLMOD, word) || has_key(MEMBER, word) || has_key(PARM, word)
}

/// Whether a word gives a key that is built for `fetch`.
fn has_fetching_key(word: &str) -> bool
    ensures { result ≡ (has_key syslmod word.now || has_key member word.now || has_key origin word.now) }
{
    has_key(SYSLMOD, word) || has_key(MEMBER, word) || has_key(ORIGIN, word)
}

/// Whether LET and DCBS at most are on.
fn are_built_options(o: Options) -> bool
    ensures { result ≡ are_built_options o }
{
    !(o.map || o.xref || o.ncal || o.xcal || o.ovly || o.sctr || o.rent)
}
