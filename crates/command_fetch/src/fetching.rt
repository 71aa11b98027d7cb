//! A member of a library, fetched into one block and printed.
ghost use Rattle.command_words.specs.Seen.{words_of};
ghost use Rattle.std.specs.Prelude.{◌≡◌, All, None, IfOk};
ghost use Rattle.command_sets.specs.Causes.{IsOwn, IsOwnResult};
ghost use Rattle.command_sets.specs.Reading.{IsReadSet};
ghost use Rattle.command_fetch.specs.Fetch.{entry_answer, entry_text, fetch, is_other_form, member_text};

use command_sets::{Answer, Status, new_version, output_in, refused, unbuilt};
use command_words::Request;
use command_words::keys::SYSLMOD;
use fetch_text::{FetchStop, fetched_text};
use le_bytes::{Bytes, Items, Memory, Name, Refusal, Spot};
use le_io::MemStore;
use pds_lib::{Entry, Library, Set};
use std::alloc::Global;

/// The answer of `fetch` for its data sets: where the member of SYSLMOD is entered, and its storage.
///
/// # Errors
/// Want of memory.
pub fn fetch(alloc: Global, request: &Request<'_>, sets: Items<Set>) -> Result<Answer, Memory>
    requires { All (IsReadSet (words_of request.now)) sets }
    ensures answer { IfOk result (λ answer. answer ≡ fetch (words_of request.now) sets) }
    ensures own { IfOk result (λ answer. IsOwn answer.status) }
    ensures put { IfOk result (λ answer. answer.put ≡ None) }
{
    let library = output_in(alloc, new_version(request), sets);
    let name = request.module_name();
    match library.find(&name) {
        Some(entry) => entry_answer(alloc, &library, name, entry, request.origin()),
        None => refused(alloc, Refusal::MemberAbsent(name)),
    }
}

/// The answer for an entry of the library, which was asked for by this name.
fn entry_answer(
    alloc: Global,
    library: &Library,
    name: Name,
    entry: &Entry,
    origin: u32,
) -> Result<Answer, Memory>
    ensures answer { IfOk result (λ answer. answer ≡ entry_answer library.now name entry.now origin) }
    ensures own { IfOk result (λ answer. IsOwn answer.status) }
    ensures put { IfOk result (λ answer. answer.put ≡ None) }
{
    if is_other_form(entry) {
        return unbuilt(alloc);
    }
    match entry_text(alloc, library, name, entry, origin)? {
        Ok(text) => Ok(Answer {
            status: Status::Done,
            text,
            put: None,
        }),
        Err(refusal) => refused(alloc, refusal),
    }
}

/// Whether a member is in overlay or in scatter format.
fn is_other_form(entry: &Entry) -> bool
    ensures { result ≡ is_other_form entry.now }
{
    entry.is_overlay() || entry.is_scatter()
}

/// What is printed of the member of this name or alias, with the module at `origin`, or why it is refused.
///
/// # Errors
/// Want of memory.
#[tactic(auto, unfolding(crate::specs::Fetch::member_text))]
pub fn member_text(
    alloc: Global,
    library: &Library,
    name: Name,
    origin: u32,
) -> Result<Result<Bytes, Refusal>, Memory>
    ensures text { IfOk result (λ text. text ≡ member_text library.now name origin) }
    ensures own { IfOk result IsOwnResult }
{
    match library.find(&name) {
        Some(entry) => entry_text(alloc, library, name, entry, origin),
        None => Ok(Err(Refusal::MemberAbsent(name))),
    }
}

/// The same for an entry. Its records are those of the library, so that no store is read.
#[tactic(auto, unfolding(crate::specs::Fetch::entry_text))]
fn entry_text(
    alloc: Global,
    library: &Library,
    name: Name,
    entry: &Entry,
    origin: u32,
) -> Result<Result<Bytes, Refusal>, Memory>
    ensures text { IfOk result (λ text. text ≡ entry_text library.now name entry.now origin) }
    ensures own { IfOk result IsOwnResult }
{
    let mut records = library.records(entry);
    let mut no_files = MemStore::new(alloc, Vec::new(alloc), Vec::new(alloc));
    match fetched_text(alloc, entry, &mut no_files, &mut records, origin) {
        Ok(text) => Ok(Ok(Bytes::from_vec(text))),
        Err(FetchStop::Place(what)) => Ok(Err(Refusal::Place(what))),
        Err(FetchStop::Module(number, what)) => {
            let spot = Spot {
                set: SYSLMOD,
                member: Some(name),
                number,
            };
            Ok(Err(Refusal::Module(spot, what)))
        }
        Err(FetchStop::ReadFault) => unreachable!(),
        Err(FetchStop::Memory) => Err(Memory),
    }
}
