//! A copy of a module, so that the module itself is as it was where an edit does not apply.
ghost use Rattle.std.specs.Prelude.{◌≡◌, IfOk};

use le_bytes::{Bytes, Items};
use std::alloc::{AllocError, Global};
use sym_mod::{Frag, SymConst, SymModule, SymTerm, Terms};

fn fragments_copied(alloc: Global, fragments: &[Frag]) -> Result<Items<Frag>, AllocError>
    ensures { IfOk result (λ made. made ≡ fragments.now) }
{
    let mut made = Items::from_vec(Vec::with_capacity(alloc, fragments.len())?);
    for f in fragments {
        made.push(Frag {
            item: f.item,
            offset: f.offset,
            bytes: Bytes::from_slice(alloc, f.bytes.as_slice())?,
        })?;
    }
    Ok(made)
}

fn terms_copied(alloc: Global, terms: &[SymTerm]) -> Result<Terms<SymTerm>, AllocError>
    ensures { IfOk result (λ made. made ≡ terms.now) }
{
    let mut made = Terms::new(alloc);
    for t in terms {
        made.push(*t)?;
    }
    Ok(made)
}

fn constants_copied(alloc: Global, constants: &[SymConst]) -> Result<Items<SymConst>, AllocError>
    ensures { IfOk result (λ made. made ≡ constants.now) }
{
    let mut made = Items::from_vec(Vec::with_capacity(alloc, constants.len())?);
    for c in constants {
        made.push(SymConst {
            item: c.item,
            offset: c.offset,
            length: c.length,
            kind: c.kind,
            terms: terms_copied(alloc, c.terms.as_slice())?,
        })?;
    }
    Ok(made)
}

/// A copy of a module.
///
/// # Errors
/// Out of memory.
pub(crate) fn copied(alloc: Global, m: &SymModule) -> Result<SymModule, AllocError>
    ensures { IfOk result (λ made. made ≡ m.now) }
{
    Ok(SymModule {
        items: Items::from_vec(Vec::from_slice(alloc, m.items.as_slice())?),
        fragments: fragments_copied(alloc, m.fragments.as_slice())?,
        constants: constants_copied(alloc, m.constants.as_slice())?,
        entry: m.entry,
    })
}
