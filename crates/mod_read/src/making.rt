//! The module of what a member holds.
ghost use Rattle.std.specs.Prelude.{◌≡◌, IfOk};
ghost use Rattle.mod_read.specs.Gathered.{walked_with, module_with};

use crate::constants::constants;
use crate::entering::entry_of;
use crate::fragments::{LoadedText, fragments};
use crate::items::items;
use crate::numbering::Numbering;
use le_bytes::{Items, Memory};
use member_walk::{Walk, WalkParts};
use pds_lib::Entry;
use std::alloc::Global;
use sym_mod::SymModule;

/// The module of the records that were walked, whose texts are these.
///
/// # Errors
/// Out of memory.
pub(crate) fn module_of(
    alloc: Global,
    e: &Entry,
    walk: Walk,
    texts: Items<LoadedText>,
) -> Result<SymModule, Memory>
    ensures { IfOk result (λ made. made ≡ module_with e.now (walked_with walk texts)) }
{
    let WalkParts {
        symbols,
        notes: _,
        fields,
    } = walk.into_parts();
    let numbering = Numbering::new(alloc, symbols)?;
    Ok(SymModule {
        items: items(alloc, &numbering)?,
        fragments: fragments(alloc, &numbering, texts.into_vec())?,
        constants: constants(alloc, &numbering, fields.as_slice())?,
        entry: entry_of(&numbering, e),
    })
}
