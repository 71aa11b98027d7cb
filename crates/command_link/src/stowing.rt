//! Load modules stowed in a library.
ghost use Rattle.std.specs.Prelude.{◌≡◌, All, None, IfOk};
ghost use Rattle.pds_directory.specs.declared.kinds.LibKind.TheVariants.{Modules};
ghost use Rattle.link_core.specs.Modules.{IsStowable};
ghost use Rattle.command_sets.specs.Refusing.{refused};
ghost use Rattle.command_sets.specs.Causes.{IsOwn, IsOwnRefusal};
ghost use Rattle.command_link.specs.Stowing.{EndsOwn, StowsModule};
ghost use Rattle.command_link.specs.Link.{earlier_refusal, stowed_of, with_modules};

use crate::listing::{last_name, listings, status_for};
use command_sets::{Answer, Status, refused};
use le_bytes::{Bytes, Counted, Items, Memory, Name, Refusal};
use link_core::Linked;
use pds_lib::{Library, StowFault};
use std::alloc::Global;

/// Load modules that were linked and stowed.
#[derive(Drop)]
pub struct Stowed {
    /// The library that they went into.
    pub library: Library,
    /// The name of the last of them.
    pub last: Name,
    /// The status once all is put and printed.
    pub status: Status,
    /// Their lines, in order.
    pub text: Bytes,
}

/// The load modules, each stowed in the library in turn; or the answer of the first refusal of a stow.
#[tactic(auto, using(crate::proofs::Refusals::own_stows))]
pub(crate) fn stowed_of(
    alloc: Global,
    library: Library,
    modules: Items<Linked>,
) -> Result<Result<Stowed, Answer>, Memory>
    requires kind { library.kind ≡ Modules }
    requires stowable { All IsStowable modules }
    ensures stowed { IfOk result (λ stowed. stowed ≡ stowed_of modules (with_modules library modules)) }
    ensures own { IfOk result EndsOwn }
{
    let status = status_for(modules.as_slice());
    let text = listings(alloc, modules.as_slice())?;
    let last = last_name(modules.as_slice());
    match with_modules(alloc, library, modules) {
        Ok(Ok(library)) => Ok(Ok(Stowed {
            library,
            last,
            status,
            text: Bytes::from_vec(text),
        })),
        Ok(Err(refusal)) => Ok(Err(refused(alloc, refusal)?)),
        Err(_) => Err(Memory),
    }
}

/// The answer for a refusal of linking: the first refusal of the stows of the load modules before it, or else
/// this one.
///
/// # Errors
/// Want of memory.
#[tactic(auto, using(crate::proofs::Refusals::own_stows))]
pub(crate) fn refused_after(
    alloc: Global,
    library: Library,
    before: Items<Linked>,
    refusal: Refusal,
) -> Result<Answer, Memory>
    requires kind { library.kind ≡ Modules }
    requires stowable { All IsStowable before }
    ensures answer { IfOk result (λ answer. answer ≡ refused (earlier_refusal (with_modules library before) refusal)) }
    ensures own { IsOwnRefusal refusal → IfOk result (λ answer. IsOwn answer.status) }
    ensures put { IfOk result (λ answer. answer.put ≡ None) }
{
    match with_modules(alloc, library, before) {
        Ok(Ok(_)) => refused(alloc, refusal),
        Ok(Err(earlier)) => refused(alloc, earlier),
        Err(_) => Err(Memory),
    }
}

/// The library with each of the load modules in turn, or the first refusal of a stow.
#[tactic(auto, using(crate::proofs::StowedModules::goes_on, crate::proofs::StowedModules::stops, crate::proofs::StowedModules::ends))]
fn with_modules(
    alloc: Global,
    library: Library,
    modules: Items<Linked>,
) -> Result<Result<Library, Refusal>, Memory>
    requires kind { library.kind ≡ Modules }
    requires stowable { All IsStowable modules }
    ensures { IfOk result (λ after. after ≡ with_modules library modules) }
{
    let mut library = library;
    for module in modules.into_vec() {
        match stow(alloc, &mut library, module) {
            Ok(Ok(())) => {}
            Ok(Err(refusal)) => return Ok(Err(refusal)),
            Err(stop) => return Err(stop),
        }
    }
    Ok(Ok(library))
}

/// Stows one load module.
#[tactic(auto, unfolding(crate::specs::Link::with_module))]
fn stow(alloc: Global, library: &mut Library, linked: Linked) -> Result<Result<(), Refusal>, Memory>
    requires kind { library.old.kind ≡ Modules }
    requires stowable { IsStowable linked }
    ensures stows { IfOk result (StowsModule library.old linked library.new) }
    ensures kind { library.new.kind ≡ Modules }
{
    let replace = linked.replace;
    match library.stow(alloc, linked.member, replace) {
        Ok(()) => Ok(Ok(())),
        Err(StowFault::Exists(name)) => Ok(Err(Refusal::MemberExists(name))),
        Err(StowFault::TooManyRecords(n)) => Ok(Err(Refusal::Limit(Counted::Records, n))),
        Err(StowFault::Memory) => Err(Memory),
    }
}
