//! The data sets that the words name, read whole.
ghost use Rattle.command_words.specs.Seen.{words_of};
ghost use Rattle.std.specs.Prelude.{◌≡◌, None, Some, All, IfOk, IfSome, IsSome};
ghost use Rattle.command_words.specs.Meaning.{data_set_in, path_of};
ghost use Rattle.le_io.specs.Counts.{NoneFalls, WhereTold};
ghost use Rattle.command_sets.specs.Sets.{body_at, file_at, new_version, made_version, set_at, set_of_word, sets_of};
ghost use Rattle.command_sets.specs.Reading.{IsReadBody, IsReadSet, SetsHaveCause, Takes};

use crate::bodies::{body_of, new_library};
use crate::outputs::new_version;
use crate::stop::Stop;
use command_words::keys::SYSLMOD;
use command_words::{Command, Request, data_set_in};
use le_bytes::{Items, Name, Refusal};
use le_io::{ReadStop, Store, read_all};
use pds_lib::{Body, Set, Version};
use std::alloc::Global;

/// The sets that the words name, each whole, in the order of their words. Or the first in that order that
/// is refused: it is absent, too long, no library or a damaged one.
///
/// # Errors
/// A failed read of a set before which none is refused; want of memory.
pub fn read_sets<S: Store>(
    alloc: Global,
    request: &Request<'_>,
    store: &mut S,
) -> Result<Result<Items<Set>, Refusal>, Stop>
    ensures sets { WhereTold (S.told store.old) (λ files. IfOk result (λ sets. sets ≡ sets_of (words_of request.now) files)) }
    ensures read { IfOk result (λ sets. IfOk sets (All (IsReadSet (words_of request.now)))) }
    ensures told { S.told store.new ≡ S.told store.old }
    ensures counts { NoneFalls (S.counts store.old) (S.counts store.new) }
    ensures cause { SetsHaveCause (S.counts store.old) (S.counts store.new) (words_of request.now) result }
{
    let mut sets = Items::new(alloc);
    for word in request.words {
        match take_word(alloc, &mut sets, request, word.as_str(), store) {
            Ok(Ok(())) => {}
            Ok(Err(refusal)) => return Ok(Err(refusal)),
            Err(stop) => return Err(stop),
        }
    }
    Ok(Ok(sets))
}

/// Reads the set that a word names, if it names one, and puts it after the others.
fn take_word<S: Store>(
    alloc: Global,
    sets: &mut Items<Set>,
    request: &Request<'_>,
    word: &str,
    store: &mut S,
) -> Result<Result<(), Refusal>, Stop>
    requires read { All (IsReadSet (words_of request.now)) sets.old }
    requires named { IfSome (data_set_in word.now) (λ s. IsSome (path_of (words_of request.now) s.key)) }
    ensures sets { WhereTold (S.told store.old) (λ files. IfOk result (Takes (set_of_word (set_at (words_of request.now) files) word.now) sets.old sets.new)) }
    ensures read { IfOk result (λ _. All (IsReadSet (words_of request.now)) sets.new) }
    ensures told { S.told store.new ≡ S.told store.old }
    ensures counts { NoneFalls (S.counts store.old) (S.counts store.new) }
    ensures cause { SetsHaveCause (S.counts store.old) (S.counts store.new) (words_of request.now) result }
{
    let Some(named) = data_set_in(word) else {
        return Ok(Ok(()));
    };
    match read_set(alloc, request, named.dd, store) {
        Ok(Ok(set)) => match sets.push(set) {
            Ok(()) => Ok(Ok(())),
            Err(_) => Err(Stop::Memory),
        },
        Ok(Err(refusal)) => Ok(Err(refusal)),
        Err(stop) => Err(stop),
    }
}

/// The set of this data definition name.
#[tactic(auto, unfolding(crate::specs::Sets::set_at))]
fn read_set<S: Store>(
    alloc: Global,
    request: &Request<'_>,
    dd: Name,
    store: &mut S,
) -> Result<Result<Set, Refusal>, Stop>
    requires { IsSome (path_of (words_of request.now) dd) }
    ensures set { WhereTold (S.told store.old) (λ files. IfOk result (λ set. set ≡ set_at (words_of request.now) files dd)) }
    ensures read { IfOk result (λ set. IfOk set (IsReadSet (words_of request.now))) }
    ensures told { S.told store.new ≡ S.told store.old }
    ensures counts { NoneFalls (S.counts store.old) (S.counts store.new) }
    ensures cause { SetsHaveCause (S.counts store.old) (S.counts store.new) (words_of request.now) result }
{
    match read_body(alloc, request, dd, store) {
        Ok(Ok(body)) => Ok(Ok(Set { dd, body })),
        Ok(Err(refusal)) => Ok(Err(refusal)),
        Err(stop) => Err(stop),
    }
}

/// What the set of this data definition name holds.
fn read_body<S: Store>(
    alloc: Global,
    request: &Request<'_>,
    dd: Name,
    store: &mut S,
) -> Result<Result<Body, Refusal>, Stop>
    requires { IsSome (path_of (words_of request.now) dd) }
    ensures body { WhereTold (S.told store.old) (λ files. IfOk result (λ body. body ≡ body_at (made_version (words_of request.now)) dd (file_at (words_of request.now) files dd))) }
    ensures read { IfOk result (λ body. IfOk body IsReadBody) }
    ensures told { S.told store.new ≡ S.told store.old }
    ensures counts { NoneFalls (S.counts store.old) (S.counts store.new) }
    ensures cause { SetsHaveCause (S.counts store.old) (S.counts store.new) (words_of request.now) result }
{
    match read_all(alloc, store, path_for(request, dd)) {
        Ok(bytes) => match body_of(alloc, made_version(request), dd, bytes) {
            Ok(body) => Ok(body),
            Err(_) => Err(Stop::Memory),
        },
        Err(ReadStop::Absent) => Ok(absent_body(alloc, made_version(request), dd)),
        Err(ReadStop::TooLong) => Ok(Err(Refusal::TooLong(dd))),
        Err(ReadStop::Failed) => Err(Stop::Read(dd)),
        Err(ReadStop::Memory) => Err(Stop::Memory),
    }
}

/// What a set holds that is not there: SYSLMOD no members where it may be new, and any other set is
/// refused.
fn absent_body(alloc: Global, new: Option<Version>, dd: Name) -> Result<Body, Refusal>
    ensures body { result ≡ body_at new dd None }
    ensures read { IfOk result IsReadBody }
{
    if dd == SYSLMOD {
        new_library(alloc, new, Refusal::SetAbsent(dd))
    } else {
        Err(Refusal::SetAbsent(dd))
    }
}

/// The path of the data set with this data definition name, which the words name.
pub fn path_for<'a>(request: &Request<'a>, dd: Name) -> &'a str
    requires { IsSome (path_of (words_of request.now) dd) }
    ensures { path_of (words_of request.now) dd ≡ Some result.now }
{
    match request.path(dd) {
        Some(path) => path,
        None => unreachable!(),
    }
}

/// The version that SYSLMOD has where it is new, for a command that links; none for any other, which does
/// not make it.
fn made_version(request: &Request<'_>) -> Option<Version>
    ensures { result ≡ made_version (words_of request.now) }
{
    match request.command {
        Command::Link | Command::Go => Some(new_version(request)),
        _ => None,
    }
}
