//! The parts of storage into which a member is fetched.
ghost use Rattle.std.specs.Prelude.{◌≡◌, ◌<◌, ◌≤◌, ◌^◌, true, IfOk, map, length, slice_index};
ghost use Rattle.member_model.specs.Symbols.{field_length};
ghost use Rattle.member_model.specs.Loaded.{is_shifted};
ghost use Rattle.std.specs.List.{zip};
ghost use Rattle.fetch_storage.specs.Kept.{part_at};

use crate::fields::is_shifted;
use crate::homes::{Home, home_at, homes};
use crate::part::Part;
use crate::rooms::{rooms, shift_field, write};
use fetch_places::Placement;
use le_bytes::{Bytes, Items, Memory};
use load_recs::{RldItem, SymbolItem, SymbolKind};
use std::alloc::{AllocError, Global};
use std::marker::Model;

/// The parts of storage into which a member is fetched: one for a module in a block, and one for each
/// section of a scattered one.
#[derive(Debug, Drop)]
pub struct Parts {
    origins: Vec<u32>,
    homes: Vec<Home>,
    rooms: Vec<Vec<u8>>,
}

impl Model for Parts {
    ghost use Rattle.std.specs.Prelude.{map};
    ghost use Rattle.fetch_storage.specs.Kept.{Kept};

    ghost Value = { Kept };

    ghost view = { λ parts. record {
      origins = parts.origins.items;
      homes = parts.homes.items;
      content = map (λ room. room.items) parts.rooms.items;
    } };
}

impl Parts {
    ghost use Rattle.fetch_storage.specs.Homes.{home_at};
    ghost use Rattle.fetch_storage.specs.Kept.{empty_parts, LieInPart, address_in, with_text, with_shift, with_field, with_fields, FieldsLie, parts_of};
    ghost use Rattle.fetch_storage.specs.Shifts.{shift_of, shifts_in, home_shift};

    /// Parts for the sections among these items where the placement has them, all zero. Linear in the
    /// items and in the bytes.
    ///
    /// # Errors
    /// Want of memory.
    pub fn new(alloc: Global, items: &[SymbolItem], p: &Placement) -> Result<Parts, Memory>
        ensures { IfOk result (λ parts. parts ≡ empty_parts items.now p.now) }
    {
        let origins = match p {
            Placement::Block(origin, _) => Vec::from_slice(alloc, &[*origin])?,
            Placement::Scattered(addresses) => Vec::from_slice(alloc, addresses.as_slice())?,
        };
        let homes = homes(alloc, items, p)?;
        let rooms = rooms(alloc, items, p)?;
        Ok(Parts {
            origins,
            homes,
            rooms,
        })
    }

    /// Puts the text of a section, from an address in the module on, where that stands in storage.
    pub fn lay(&mut self, section: u32, address: u32, text: &[u8])
        requires { LieInPart self.old section address (length text.now) }
        ensures { self.new ≡ with_text self.old section address text.now }
    {
        let home = home_at(&self.homes, section as usize);
        let from = (address - home.base) as usize;
        write(&mut self.rooms, home.part, from, text);
    }

    /// The address in storage of an address in the module that lies in a section or at its end.
    pub fn address_of(&self, section: u32, address: u32) -> u32
        requires from { (home_at self.now.homes section).base ≤ address }
        requires near { address_in self.now section address < 2 ^ 32 }
        ensures { result ≡ address_in self.now section address }
    {
        let home = home_at(&self.homes, section as usize);
        number_at(&self.origins, home.part) + (address - home.base)
    }

    /// How far each of these items has moved, modulo 2 to the power of 32: a section, and a label with
    /// its section; 0 for any other item. Linear in the items.
    ///
    /// # Errors
    /// Want of memory.
    pub fn shifts(&self, alloc: Global, items: &[SymbolItem]) -> Result<Vec<u32>, Memory>
        ensures { IfOk result (λ shifts. shifts.items ≡ shifts_in self.now items.now) }
    {
        let mut shifts = Vec::with_capacity(alloc, items.len())?;
        for (place, item) in items.iter().enumerate() {
            shifts.push(self.shift_of(item, place + 1))?;
        }
        Ok(shifts)
    }

    /// How far item `n`, from 1, has moved.
    fn shift_of(&self, item: &SymbolItem, n: usize) -> u32
        ensures { result ≡ shift_of self.now n item.now }
    {
        match item.kind {
            SymbolKind::Sd | SymbolKind::Pc | SymbolKind::Cm => self.home_shift(n),
            SymbolKind::Lr => self.home_shift(item.length as usize),
            SymbolKind::Er | SymbolKind::Pr | SymbolKind::Null | SymbolKind::Wx => 0,
        }
    }

    /// How far section `n` has moved.
    fn home_shift(&self, n: usize) -> u32
        ensures { result ≡ home_shift self.now n }
    {
        let home = home_at(&self.homes, n);
        number_at(&self.origins, home.part).wrapping_sub(home.base)
    }

    /// Adds to each field, one item after the other, the shift of the item's symbol where it is of
    /// A-type or V-type and the symbol is defined. Takes no memory. Linear in the fields.
    pub fn relocate(&mut self, items: &[SymbolItem], shifts: &[u32], fields: &[RldItem])
        requires { FieldsLie items.now self.old fields.now }
        ensures { self.new ≡ with_fields items.now shifts.now self.old fields.now }
    {
        for field in fields {
            self.relocate_one(items, shifts, field);
        }
    }

    /// The same of one item.
    fn relocate_one(&mut self, items: &[SymbolItem], shifts: &[u32], field: &RldItem)
        requires { is_shifted items.now field.now ≡ true → LieInPart self.old field.now.p field.now.address (field_length field.now) }
        ensures { self.new ≡ with_field items.now shifts.now self.old field.now }
    {
        if is_shifted(items, field) {
            self.add_shift(field, shifts);
        }
    }

    /// Adds to a field the shift of its symbol.
    fn add_shift(&mut self, field: &RldItem, shifts: &[u32])
        requires { LieInPart self.old field.now.p field.now.address (field_length field.now) }
        ensures { self.new ≡ with_shift shifts.now self.old field.now }
    {
        let home = home_at(&self.homes, field.p as usize);
        let from = (field.address - home.base) as usize;
        let shift = number_at(shifts, field.r.saturating_sub(1) as usize);
        shift_field(
            &mut self.rooms,
            home.part,
            from,
            usize::from(field.field_length()),
            shift,
            field.is_minus(),
        );
    }

    /// The parts themselves, whose bytes are not copied.
    ///
    /// # Errors
    /// Want of memory.
    #[tactic(auto, using(crate::proofs::Stepping::parts_zipped))]
    pub fn into_items(self, alloc: Global) -> Result<Items<Part>, Memory>
        ensures { IfOk result (λ parts. parts ≡ parts_of self) }
    {
        let Parts {
            origins,
            homes: _,
            rooms,
        } = self;
        let parts = parts_at(alloc, origins, rooms)?;
        Ok(Items::from_vec(parts))
    }
}

/// A part for each room, which begins at the origin in the same place.
fn parts_at(alloc: Global, origins: Vec<u32>, rooms: Vec<Vec<u8>>) -> Result<Vec<Part>, AllocError>
    ensures { IfOk result (λ parts. parts.items ≡ map part_at (zip origins.items rooms.items)) }
{
    origins
        .into_iter()
        .zip(rooms)
        .map(|(origin, room)| Part {
            origin,
            bytes: Bytes::from_vec(room),
        })
        .collect(alloc)
}

/// The number at a place of a list, and 0 past its end.
fn number_at(numbers: &[u32], place: usize) -> u32
    ensures { result ≡ slice_index numbers.now place }
{
    match numbers.get(place) {
        Some(number) => *number,
        None => 0,
    }
}
