//! The command `go` over its data sets.
ghost use Rattle.command_words.specs.Seen.{words_of};
ghost use Rattle.command_words.specs.Keys.{syslib};
ghost use Rattle.std.specs.Prelude.{◌≡◌, true, false, All, IfOk};
ghost use Rattle.link_core.specs.Sets.{has_set};
ghost use Rattle.command_sets.specs.Causes.{IsOwn};
ghost use Rattle.command_sets.specs.Libraries.{PutsOutput, PutsReadable};
ghost use Rattle.command_sets.specs.Reading.{IsReadSet};
ghost use Rattle.command_sets.specs.Sets.{names_output};
ghost use Rattle.command_link.specs.Link.{are_heeded_options, stowed_for};
ghost use Rattle.command_link.specs.Stowing.{PutsStowed};
ghost use Rattle.command_fetch.specs.Placed.{placed_answer};
ghost use Rattle.linkedit_top.specs.Go.{go};

use command_fetch::placed_answer;
use command_link::{Stowed, stowed_for};
use command_sets::Answer;
use command_words::Request;
use le_bytes::{Items, Memory};
use pds_lib::Set;
use std::alloc::Global;

/// The answer of `go` for its data sets: what `link` does, and then the last load module, fetched from the
/// library that it went into. Without SYSLMOD the load modules go into a library in memory, which is put
/// nowhere.
///
/// # Errors
/// Want of memory.
pub fn go(alloc: Global, request: &Request<'_>, sets: Items<Set>) -> Result<Answer, Memory>
    requires read { All (IsReadSet (words_of request.now)) sets }
    requires options { are_heeded_options (words_of request.now) ≡ true }
    requires library { has_set syslib sets ≡ false }
    ensures answer { IfOk result (λ answer. answer ≡ go (words_of request.now) sets) }
    ensures own { IfOk result (λ answer. IsOwn answer.status) }
    ensures again { IfOk result (PutsStowed (stowed_for (words_of request.now) sets)) }
    ensures put { IfOk result (PutsOutput (names_output (words_of request.now))) }
{
    match stowed_for(alloc, request, sets) {
        Ok(Ok(stowed)) => placed(alloc, request, stowed),
        Ok(Err(answer)) => Ok(answer),
        Err(_) => Err(Memory),
    }
}

/// The answer for the library of load modules, of which the last is placed.
fn placed(alloc: Global, request: &Request<'_>, stowed: Stowed) -> Result<Answer, Memory>
    requires { IsOwn stowed.status }
    ensures answer { IfOk result (λ answer. answer ≡ placed_answer (words_of request.now) stowed.last stowed.status stowed.text stowed.library) }
    ensures own { IfOk result (λ answer. IsOwn answer.status) }
    ensures again { IfOk result (PutsReadable stowed.library) }
    ensures put { IfOk result (PutsOutput (names_output (words_of request.now))) }
{
    let Stowed {
        library,
        last,
        status,
        text,
    } = stowed;
    placed_answer(alloc, request, &library, last, status, text.into_vec())
}
