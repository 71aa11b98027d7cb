//! The load modules of data sets, linked and stowed, and the command `link`.
ghost use Rattle.command_words.specs.Seen.{words_of};
ghost use Rattle.command_words.specs.Keys.{syslib};
ghost use Rattle.std.specs.Prelude.{◌≡◌, true, false, All, IfOk};
ghost use Rattle.link_core.specs.Sets.{has_set};
ghost use Rattle.command_sets.specs.Causes.{IsOwn};
ghost use Rattle.command_sets.specs.Libraries.{PutsOutput, PutsReadable, put_answer};
ghost use Rattle.command_sets.specs.Reading.{IsReadSet};
ghost use Rattle.command_sets.specs.Sets.{names_output};
ghost use Rattle.command_link.specs.Stowing.{EndsOwn, PutsStowed};
ghost use Rattle.command_link.specs.Link.{are_heeded_options, link, stowed_for};

use crate::options::linking_options;
use crate::stowing::{Stowed, refused_after, stowed_of};
use command_sets::{Answer, library_answer, new_version, output_in, output_version, unbuilt_card};
use command_words::Request;
use le_bytes::{Items, Memory};
use link_core::{LinkFault, link as link_sets};
use pds_lib::Set;
use std::alloc::Global;

/// The load modules of the data sets, linked and stowed in the library among them, or in a new one; or the
/// answer of the first refusal. The words may turn on no option that does nothing yet, and no set may be
/// named SYSLIB.
///
/// # Errors
/// Want of memory.
#[tactic(auto, using(crate::proofs::PrimarySets::primary_short, crate::proofs::Names::not_last, crate::proofs::Refusals::own_linking, crate::proofs::Refusals::none_before), unfolding(crate::specs::Link::stowed_for))]
pub fn stowed_for(
    alloc: Global,
    request: &Request<'_>,
    sets: Items<Set>,
) -> Result<Result<Stowed, Answer>, Memory>
    requires read { All (IsReadSet (words_of request.now)) sets }
    requires options { are_heeded_options (words_of request.now) ≡ true }
    requires library { has_set syslib sets ≡ false }
    ensures stowed { IfOk result (λ stowed. stowed ≡ stowed_for (words_of request.now) sets) }
    ensures own { IfOk result EndsOwn }
{
    let version = new_version(request);
    let options = linking_options(request, output_version(sets.as_slice(), version));
    let linked = link_sets(alloc, sets.as_slice(), &options);
    let library = output_in(alloc, version, sets);
    match linked {
        Ok(modules) => stowed_of(alloc, library, modules),
        Err(LinkFault::Refused(refusal, before)) => {
            Ok(Err(refused_after(alloc, library, before, refusal)?))
        }
        Err(LinkFault::Statement(number)) => Ok(Err(unbuilt_card(alloc, number)?)),
        Err(LinkFault::Memory) => Err(Memory),
    }
}

/// The answer of `link` for its data sets, of words that name SYSLMOD.
///
/// # Errors
/// Want of memory.
pub fn link(alloc: Global, request: &Request<'_>, sets: Items<Set>) -> Result<Answer, Memory>
    requires read { All (IsReadSet (words_of request.now)) sets }
    requires options { are_heeded_options (words_of request.now) ≡ true }
    requires library { has_set syslib sets ≡ false }
    requires named { names_output (words_of request.now) ≡ true }
    ensures answer { IfOk result (λ answer. answer ≡ link (words_of request.now) sets) }
    ensures own { IfOk result (λ answer. IsOwn answer.status) }
    ensures again { IfOk result (PutsStowed (stowed_for (words_of request.now) sets)) }
    ensures put { IfOk result (PutsOutput (names_output (words_of request.now))) }
{
    match stowed_for(alloc, request, sets) {
        Ok(Ok(stowed)) => put_stowed(alloc, stowed),
        Ok(Err(answer)) => Ok(answer),
        Err(_) => Err(Memory),
    }
}

/// The answer that puts the library of load modules.
fn put_stowed(alloc: Global, stowed: Stowed) -> Result<Answer, Memory>
    requires { IsOwn stowed.status }
    ensures answer { IfOk result (λ answer. answer ≡ put_answer stowed.status stowed.text stowed.library) }
    ensures own { IfOk result (λ answer. IsOwn answer.status) }
    ensures again { IfOk result (PutsReadable stowed.library) }
    ensures put { IfOk result (PutsOutput true) }
{
    let Stowed {
        library,
        last: _,
        status,
        text,
    } = stowed;
    library_answer(alloc, &library, true, status, text.into_vec())
}
