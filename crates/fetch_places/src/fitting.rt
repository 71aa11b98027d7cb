//! Whether the sections of a member can stand where a placement says.
ghost use Rattle.std.specs.Prelude.{◌≡◌, ◌↔◌, IfOk, IsTrue, All, length};
ghost use Rattle.member_model.specs.Placing.{sections_of};
ghost use Rattle.fetch_places.specs.Extents.{Fits, StandEach, StandApart, EndsLow, extents_at, are_in_turn};

use crate::extent::Extent;
use crate::placement::Placement;
use le_bytes::Memory;
use load_recs::SymbolItem;
use std::alloc::{AllocError, Global};

/// Whether the sections among these items can stand where a placement says: in a block always, and
/// each for itself where there is one address for each, none ends above 16,777,215, and no two share
/// a byte. n log n in the sections.
///
/// # Errors
/// Want of memory.
pub fn fits(alloc: Global, p: &Placement, items: &[SymbolItem]) -> Result<bool, Memory>
    ensures { IfOk result (λ fit. IsTrue fit ↔ Fits p.now items.now) }
{
    match p {
        Placement::Block(_, _) => Ok(true),
        Placement::Scattered(addresses) => stand_each(alloc, addresses.as_slice(), items),
    }
}

fn stand_each(alloc: Global, addresses: &[u32], items: &[SymbolItem]) -> Result<bool, Memory>
    ensures { IfOk result (λ fit. IsTrue fit ↔ StandEach addresses.now (sections_of items.now)) }
{
    if addresses.len() != section_count(items) {
        return Ok(false);
    }
    let extents = extents_at(alloc, addresses, items)?;
    if !end_low(&extents) {
        return Ok(false);
    }
    Ok(stand_apart(extents))
}

/// How many of the items are sections.
fn section_count(items: &[SymbolItem]) -> usize
    ensures { result ≡ length (sections_of items.now) }
{
    items.iter().filter(|item| item.kind.is_section()).count()
}

/// The sections at these addresses, as far as there are both.
fn extents_at(
    alloc: Global,
    addresses: &[u32],
    items: &[SymbolItem],
) -> Result<Vec<Extent>, AllocError>
    ensures { IfOk result (λ found. found.items ≡ extents_at addresses.now (sections_of items.now)) }
{
    let mut extents = Vec::new(alloc);
    for item in items {
        if item.kind.is_section()
            && let Some(address) = addresses.get(extents.len())
        {
            extents.push(Extent {
                at: *address,
                count: item.length,
            })?;
        }
    }
    Ok(extents)
}

fn end_low(extents: &[Extent]) -> bool
    ensures { IsTrue result ↔ All EndsLow extents.now }
{
    extents.iter().all(|x| ends_low(*x))
}

fn ends_low(extent: Extent) -> bool
    ensures { IsTrue result ↔ EndsLow extent }
{
    u64::from(extent.at) + u64::from(extent.count) <= 16_777_215
}

fn stand_apart(mut extents: Vec<Extent>) -> bool
    ensures { IsTrue result ↔ StandApart extents.items }
{
    extents.sort_unstable();
    are_in_turn(&extents)
}

/// Whether the extents stand one after the other, but for those of no bytes.
fn are_in_turn(extents: &[Extent]) -> bool
    ensures { result ≡ are_in_turn 0 extents.now }
{
    let mut end = 0u64;
    for extent in extents {
        if extent.count != 0 {
            if u64::from(extent.at) < end {
                return false;
            }
            end = u64::from(extent.at) + u64::from(extent.count);
        }
    }
    true
}
