//! Where sections stand, and how far they have moved.
ghost use Rattle.std.specs.Prelude.{◌≡◌, IfOk};
ghost use Rattle.fetch_storage.specs.Homes.{home_of, homes_by, home_at};

use fetch_places::Placement;
use load_recs::SymbolItem;
use std::alloc::{AllocError, Global};

/// Where the bytes of a section go.
#[derive(Clone, Copy, Debug, PartialEq, Eq)]
pub struct Home {
    /// The place of its part among the parts, from 0.
    pub part: usize,
    /// The address in the module that the part's first byte has.
    pub base: u32,
}

/// The home of each item, of which those of sections count. Linear in the items.
///
/// # Errors
/// Want of memory.
pub(crate) fn homes(
    alloc: Global,
    items: &[SymbolItem],
    p: &Placement,
) -> Result<Vec<Home>, AllocError>
    ensures { IfOk result (λ homes. homes.items ≡ homes_by items.now p.now) }
{
    let mut homes = Vec::with_capacity(alloc, items.len())?;
    let mut sections = 0;
    for item in items {
        homes.push(home_of(p, item, sections))?;
        if item.kind.is_section() {
            sections += 1;
        }
    }
    Ok(homes)
}

/// The home of an item that so many sections come before.
fn home_of(p: &Placement, item: &SymbolItem, sections: usize) -> Home
    ensures { result ≡ home_of p.now item.now sections }
{
    match p {
        Placement::Block(_, _) => Home { part: 0, base: 0 },
        Placement::Scattered(_) => Home {
            part: if item.kind.is_section() { sections } else { 0 },
            base: item.address,
        },
    }
}

/// The home of item `n`, from 1.
pub(crate) fn home_at(homes: &[Home], n: usize) -> Home
    ensures { result ≡ home_at homes.now n }
{
    let none = Home { part: 0, base: 0 };
    if n == 0 {
        return none;
    }
    match homes.get(n - 1) {
        Some(home) => *home,
        None => none,
    }
}
