//! The lines that are printed for a load module.
ghost use Rattle.std.specs.Prelude.{◌≡◌, ◌++◌, flat_map, IfOk, OnOk};
ghost use Rattle.linking_model.specs.Places.{module_length};
ghost use Rattle.block_storage.specs.Storage.{alone};
ghost use Rattle.link_core.specs.Programs.{entry_address};
ghost use Rattle.link_core.specs.Links.{IsLinked};
ghost use Rattle.link_core.specs.Modules.{listing, name_line};

use crate::program::LinkedProgram;
use le_bytes::{Memory, Name};
use map_list::{push_linked, push_unresolved};
use std::alloc::Global;
use sym_mod::Unknown;

/// The line of a linked program under the name of its load module, with its length and the address of
/// its entry point, and a line for each name that has to be resolved and is not.
///
/// # Errors
/// Want of memory.
#[tactic(auto, unfolding(crate::specs::Modules::listing))]
pub(crate) fn listing(
    alloc: Global,
    linked: &LinkedProgram,
    name: &Name,
    entry: u32,
) -> Result<Vec<u8>, Memory>
    requires linked { IsLinked linked.now }
    requires entry { entry ≡ entry_address linked.now.program 0 }
    ensures { IfOk result (λ text. text.items ≡ listing name.now linked.now.program) }
{
    let mut text = Vec::new(alloc);
    push_linked(&mut text, name, length_of(linked), entry)?;
    push_names(&mut text, linked.program.unresolved.as_slice())?;
    Ok(text)
}

/// The length of the module.
#[tactic(auto, using(crate::proofs::Placed::length_placed))]
fn length_of(linked: &LinkedProgram) -> u32
    requires { IsLinked linked.now }
    ensures { result ≡ module_length (alone linked.now.program) }
{
    linked.places.length
}

/// Puts a line for each of the names that has to be resolved at the end of `out`.
fn push_names(out: &mut Vec<u8>, names: &[Unknown]) -> Result<(), Memory>
    ensures { OnOk result (out.new.items ≡ out.old.items ++ flat_map name_line names.now) }
{
    for name in names {
        push_name(out, name)?;
    }
    Ok(())
}

fn push_name(out: &mut Vec<u8>, name: &Unknown) -> Result<(), Memory>
    ensures { OnOk result (out.new.items ≡ out.old.items ++ name_line name.now) }
{
    if name.weak {
        Ok(())
    } else {
        push_unresolved(out, &name.name)
    }
}
