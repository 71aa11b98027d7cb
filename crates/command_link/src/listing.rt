//! What is told of load modules: how the command ends, their lines, and the name of the last.
ghost use Rattle.std.specs.Prelude.{◌≡◌, ◌==◌, not, IfOk, length};
ghost use Rattle.std.specs.List.{list_any};
ghost use Rattle.command_sets.specs.Causes.{IsOwn};
ghost use Rattle.command_link.specs.Link.{last_name, listings, status_for};

use command_sets::Status;
use command_words::keys::TEMPNAME;
use le_bytes::Name;
use link_core::Linked;
use std::alloc::{AllocError, Global};

/// The status once the load modules are put.
pub(crate) fn status_for(modules: &[Linked]) -> Status
    ensures status { result ≡ status_for modules.now }
    ensures own { IsOwn result }
{
    if has_unresolved(modules) {
        Status::DoneWithUnresolved
    } else {
        Status::Done
    }
}

/// Whether some name of a load module has to be resolved and is not.
fn has_unresolved(modules: &[Linked]) -> bool
    ensures { result ≡ list_any (λ x. not (length x.unresolved == 0)) modules.now }
{
    for module in modules {
        if module.unresolved.len() != 0 {
            return true;
        }
    }
    false
}

/// The lines of the load modules, in order.
pub(crate) fn listings(alloc: Global, modules: &[Linked]) -> Result<Vec<u8>, AllocError>
    ensures { IfOk result (λ text. text.items ≡ listings modules.now) }
{
    let mut text = Vec::new(alloc);
    for module in modules {
        text.extend_from_slice(module.listing.as_slice())?;
    }
    Ok(text)
}

/// The name of the last load module; there always is one.
pub(crate) fn last_name(modules: &[Linked]) -> Name
    ensures { result ≡ last_name modules.now }
{
    match modules.last() {
        Some(module) => module.member.name,
        None => TEMPNAME,
    }
}
