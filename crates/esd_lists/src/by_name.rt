//! Values by name.
ghost use Rattle.std.specs.Prelude.{◌≡◌, false, OnOk};
ghost use Rattle.std.specs.HashMap.{get};
ghost use Rattle.le_bytes.specs.Names.{name_eq};
ghost use Rattle.esd_lists.specs.declared.by_name.Area.{Area};
ghost use Rattle.esd_index.specs.Keys.{sight};
ghost use Rattle.esd_lists.specs.Gathered.{first_of, put_in, area_in, no_area};

use esd_index::Sighted;
use le_bytes::{Items, Name};
use std::alloc::{AllocError, Global};
use std::collections::HashMap;

/// What the first SD item of a name brings: the segment in which it came, and its length in bytes.
#[derive(Clone, Copy)]
pub(crate) struct First {
    pub(crate) segment: u8,
    pub(crate) length: u32,
}

/// What an SD item brings that is the first of its name.
pub(crate) fn first_of(x: &Sighted) -> First
    ensures { result ≡ first_of (sight x.now) }
{
    First {
        segment: x.segment,
        length: x.item.length,
    }
}

/// What the CM items of one name bring: the segments in which they came, and the greatest length.
#[derive(Drop)]
pub(crate) struct Area {
    pub(crate) users: Items<u8>,
    pub(crate) length: u32,
}

impl Area {
    ghost use Rattle.std.specs.Prelude.{◌≡◌};
    ghost use Rattle.esd_lists.specs.Gathered.{no_area};

    /// Of no CM items. Takes no memory.
    pub(crate) fn none(alloc: Global) -> Area
        ensures { result ≡ no_area }
    {
        Area {
            users: Items::new(alloc),
            length: 0,
        }
    }
}

/// Puts a value at a name.
pub(crate) fn put<V: Drop>(
    map: &mut HashMap<Name, V>,
    name: Name,
    value: V,
) -> Result<(), AllocError>
    ensures { OnOk result ((y : Name) → get name_eq map.new y ≡ put_in name value y (get name_eq map.old y)) }
{
    map.insert(name, value)?;
    Ok(())
}

/// Takes out the area of a name; one without users where there is none.
pub(crate) fn take_area(alloc: Global, areas: &mut HashMap<Name, Area>, name: &Name) -> Area
    ensures value { result ≡ area_in (get name_eq areas.old name.now) }
    ensures others { (y : Name) → name_eq name.now y ≡ false → get name_eq areas.new y ≡ get name_eq areas.old y }
{
    match areas.remove(name) {
        Some(area) => area,
        None => Area::none(alloc),
    }
}

/// The length and the alignment of a register.
#[derive(Clone, Copy)]
pub(crate) struct Extent {
    pub(crate) length: u32,
    pub(crate) align: u32,
}
