//! A member placed behind the lines of others.
ghost use Rattle.command_words.specs.Seen.{words_of};
ghost use Rattle.command_words.specs.Meaning.{origin_of};
ghost use Rattle.std.specs.Prelude.{◌≡◌, IfOk};
ghost use Rattle.command_sets.specs.Causes.{IsOwn};
ghost use Rattle.command_sets.specs.Libraries.{PutsOutput, PutsReadable};
ghost use Rattle.command_sets.specs.Sets.{names_output};
ghost use Rattle.command_fetch.specs.Placed.{placed_answer};

use crate::fetching::member_text;
use command_sets::{Answer, Status, library_answer, names_output};
use command_words::Request;
use le_bytes::{Memory, Name};
use map_list::push_refusal;
use pds_lib::Library;
use std::alloc::Global;

/// The answer for the library with the load modules: the lines of the placed member, or of why it is not
/// placed, come after theirs. The library is put if the words name SYSLMOD.
///
/// # Errors
/// Want of memory.
pub fn placed_answer(
    alloc: Global,
    request: &Request<'_>,
    library: &Library,
    name: Name,
    status: Status,
    text: Vec<u8>,
) -> Result<Answer, Memory>
    requires { IsOwn status }
    ensures answer { IfOk result (λ answer. answer ≡ placed_answer (words_of request.now) name status text.items library.now) }
    ensures own { IfOk result (λ answer. IsOwn answer.status) }
    ensures again { IfOk result (PutsReadable library.now) }
    ensures put { IfOk result (PutsOutput (names_output (words_of request.now))) }
{
    let mut text = text;
    match member_text(alloc, library, name, request.origin())? {
        Ok(dump) => {
            text.extend_from_slice(dump.as_slice())?;
            library_answer(alloc, library, names_output(request), status, text)
        }
        Err(refusal) => {
            push_refusal(&mut text, &refusal)?;
            library_answer(
                alloc,
                library,
                names_output(request),
                Status::Refused(refusal),
                text,
            )
        }
    }
}
