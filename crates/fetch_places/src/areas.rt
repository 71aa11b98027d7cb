//! Sections placed over areas of storage.
ghost use Rattle.std.specs.Prelude.{◌≡◌, true, MatchResult, IfOk, position};
ghost use Rattle.linking_model.specs.Numbers.{round8};
ghost use Rattle.fetch_places.specs.Extents.{Fits};
ghost use Rattle.fetch_places.specs.Over.{IsOver, IsHomeless, AreInOrder};
ghost use Rattle.fetch_places.specs.Room.{has_room, filled, TakesRoom};

use crate::naming::printed_name;
use crate::placement::{Area, Placement};
use le_bytes::{Items, Name, round8};
use load_recs::SymbolItem;
use std::alloc::{AllocError, AllocFailed, Global};

/// Why sections were not placed.
#[derive(Clone, Copy, Debug, PartialEq, Eq)]
pub enum AreaFault {
    /// The section of this name fits in none of the areas. Private code and blank common have the names
    /// under which they are printed.
    NoStorage(Name),
    /// Want of memory.
    Memory,
}

impl From<AllocError> for AreaFault {
    ghost use Rattle.fetch_places.specs.declared.areas.AreaFault.TheVariants.{Memory};

    ghost from_gives = { λ _ fault. fault ≡ Memory };

    fn from(_refused: AllocError) -> AreaFault {
        AreaFault::Memory
    }
}

impl<T: Drop> From<AllocFailed<T>> for AreaFault {
    ghost use Rattle.fetch_places.specs.declared.areas.AreaFault.TheVariants.{Memory};

    ghost from_gives = { λ _ fault. fault ≡ Memory };

    fn from(_refused: AllocFailed<T>) -> AreaFault {
        AreaFault::Memory
    }
}

/// Places the sections among these items, in item order: each in the first of the areas, in the order
/// given, in which it fits from the next multiple of 8 on. As many steps as sections times areas.
///
/// # Errors
/// `NoStorage`: the first section that fits in none of the areas, by its printed name. `Memory`: want of memory.
pub fn place_sections(
    alloc: Global,
    items: &[SymbolItem],
    areas: &[Area],
) -> Result<Placement, AreaFault>
    ensures placed { MatchResult result (IsOver areas.now items.now) (IsHomeless areas.now items.now) }
    ensures fits { AreInOrder 0 areas.now → IfOk result (λ p. Fits p items.now) }
{
    let mut left = Vec::from_slice(alloc, areas)?;
    let mut addresses = Vec::new(alloc);
    for item in items {
        if item.kind.is_section() {
            match take_room(&mut left, item.length) {
                Some(address) => addresses.push(address)?,
                None => return Err(AreaFault::NoStorage(printed_name(item))),
            }
        }
    }
    Ok(Placement::Scattered(Items::from_vec(addresses)))
}

/// Takes `length` bytes of the first area in which they fit, and answers their address.
fn take_room(areas: &mut [Area], length: u32) -> Option<u32>
    ensures { TakesRoom areas.old length areas.new result }
{
    let at = first_with_room(areas, length)?;
    let left = filled(areas[at], length);
    areas[at] = left;
    Some(left.from - length)
}

/// What is left of an area behind `length` bytes at its next multiple of 8.
fn filled(area: Area, length: u32) -> Area
    requires { has_room length area ≡ true }
    ensures { result ≡ filled length area }
{
    Area {
        from: round8(u64::from(area.from)) as u32 + length,
        to: area.to,
    }
}

/// The place of the first area in which `length` bytes fit.
fn first_with_room(areas: &[Area], length: u32) -> Option<usize>
    ensures { result ≡ position (has_room length) areas.now }
{
    areas.iter().position(|area| has_room(*area, length))
}

/// Whether `length` bytes fit in what is left of an area, from the next multiple of 8 on.
fn has_room(area: Area, length: u32) -> bool
    ensures { result ≡ has_room length area }
{
    round8(u64::from(area.from)) + u64::from(length) <= u64::from(area.to)
}
