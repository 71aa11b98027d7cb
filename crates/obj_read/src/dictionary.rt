//! The items of a deck, found by their ESDID.
ghost use Rattle.std.specs.Prelude.{nat_eq, ◌≡◌, ◌+◌, ◌<◌, ◌^◌, ◌++◌, ◌∷◌, [], length, slice_get, Some, IfOk, OnOk, IfSome};
ghost use Rattle.std.specs.HashMap.{get};
ghost use Rattle.std.specs.List.{list_any};
ghost use Rattle.obj_read.specs.Facts.{has_esdid, number_of};
ghost use Rattle.obj_read.specs.Module.{lacks_length, with_length};
ghost use Rattle.obj_read.specs.Indexed.{HasPlace, IsIndexed};
ghost use Rattle.obj_read.specs.Found.{IsFound};

use crate::few::FEW;
use crate::kinds::{has_text, is_label};
use crate::numbered::Numbered;
use obj_cards::{EsdItem, EsdKind};
use smallvec::SmallVec;
use std::alloc::{AllocError, Global};
use std::collections::HashMap;
use std::marker::Model;

/// The items in order, of which up to four take no memory of their own. Contracts see the list.
#[derive(Drop)]
pub struct Dictionary {
    items: SmallVec<Numbered, 4>,
    /// The place in `items` of the first item, no label, with an ESDID. There is no map while the
    /// items are few.
    places: Option<HashMap<u32, usize>>,
}

impl Model for Dictionary {
    ghost use Rattle.std.specs.Prelude.{List};
    ghost use Rattle.obj_read.specs.declared.numbered.Numbered.{Numbered};
    ghost use Rattle.obj_read.specs.Indexed.{IsIndexedIfMany};

    ghost Value = { List Numbered };

    ghost view = { λ d. d.items.items };

    ghost invariant = { λ d. IsIndexedIfMany d.items.items d.places };
}

/// An item and its place in the dictionary.
#[derive(Clone, Copy)]
pub struct Found {
    pub number: usize,
    pub item: Numbered,
}

impl Dictionary {
    /// No items. Takes no memory.
    pub fn new(alloc: Global) -> Dictionary
        ensures { result ≡ [] }
    {
        Dictionary {
            items: SmallVec::new(alloc),
            places: None,
        }
    }

    /// Puts an item at the end.
    ///
    /// # Errors
    /// Want of memory.
    pub fn push(&mut self, item: Numbered) -> Result<(), AllocError>
        ensures { OnOk result (self.new ≡ self.old ++ item ∷ []) }
    {
        if self.places.is_some() {
            return self.push_placed(item);
        }
        self.items.push(item)?;
        if self.items.len() > FEW {
            self.map()?;
        }
        Ok(())
    }

    /// Puts an item at the end, and its place into the map.
    fn push_placed(&mut self, item: Numbered) -> Result<(), AllocError>
        ensures { OnOk result (self.new ≡ self.old ++ item ∷ []) }
    {
        let place = self.items.len();
        let places = self.places.take();
        self.items.push(item)?;
        if let Some(places) = places {
            self.places = Some(with_place(places, &item, place)?);
        }
        Ok(())
    }

    /// Makes the map of the items.
    fn map(&mut self) -> Result<(), AllocError>
        ensures { OnOk result (self.new ≡ self.old) }
    {
        let places = places_of(*self.items.allocator(), self.items.as_slice())?;
        self.places = Some(places);
        Ok(())
    }

    /// The place of the item, no label, with an ESDID.
    #[inline]
    pub fn number(&self, esdid: u32) -> Option<usize>
        ensures number { result ≡ number_of esdid self.now }
        ensures within { IfSome result (λ number. number < length self.now) }
    {
        match &self.places {
            Some(places) => place_in(places, esdid),
            None => number_of(self.items.as_slice(), esdid),
        }
    }

    /// The item, no label, with an ESDID, and its place.
    #[inline]
    pub fn find(&self, esdid: u32) -> Option<Found>
        ensures found { IsFound self.now esdid result }
        ensures within { IfSome result (λ found. found.number < length self.now) }
    {
        match self.number(esdid) {
            Some(number) => Some(self.at(number)),
            None => None,
        }
    }

    /// Whether an item, no label, has the ESDID.
    pub fn has(&self, esdid: u32) -> bool
        ensures { result ≡ list_any (has_esdid esdid) self.now }
    {
        match self.find(esdid) {
            Some(_) => true,
            None => false,
        }
    }

    fn at(&self, number: usize) -> Found
        requires { number < length self.now }
        ensures number { result.number ≡ number }
        ensures item { slice_get self.now number ≡ Some result.item }
    {
        Found {
            number,
            item: item_at(self.items.as_slice(), number),
        }
    }

    /// Gives a length to the first control section that has none.
    #[tactic(auto, using(crate::proofs::Positions::length_of_longer))]
    pub fn give_length(&mut self, given: u32)
        ensures items { self.new ≡ with_length given self.old }
        ensures same { length self.new ≡ length self.old }
    {
        give_length(self.items.as_mut_slice(), given);
    }

    /// The items, in order.
    pub fn items(&self) -> &[Numbered]
        ensures { result.now ≡ self.now }
    {
        self.items.as_slice()
    }
}

/// The place of the item, no label, with an ESDID.
fn number_of(items: &[Numbered], esdid: u32) -> Option<usize>
    ensures { result ≡ number_of esdid items.now }
{
    items.iter().position(|x| has_esdid(x, esdid))
}

/// Whether the item is no label and has the ESDID.
fn has_esdid(x: &Numbered, esdid: u32) -> bool
    ensures { result ≡ has_esdid esdid x.now }
{
    !is_label(x.item.kind) && x.esdid == esdid
}

/// The place that a map has. It stays a call, so that looking few items through is put in line.
#[inline(never)]
fn place_in(places: &HashMap<u32, usize>, esdid: u32) -> Option<usize>
    ensures { result ≡ get nat_eq places.now esdid }
{
    places.get(&esdid).copied()
}

/// The map of the items.
fn places_of(alloc: Global, items: &[Numbered]) -> Result<HashMap<u32, usize>, AllocError>
    ensures { IfOk result (IsIndexed items.now) }
{
    let mut places = HashMap::new(alloc);
    for k in 0..items.len() {
        places = with_place(places, &items[k], k)?;
    }
    Ok(places)
}

/// The places with that of one more item at the end, unless it is a label or its ESDID has a place.
fn with_place(
    places: HashMap<u32, usize>,
    item: &Numbered,
    place: usize,
) -> Result<HashMap<u32, usize>, AllocError>
    ensures { IfOk result (λ more. HasPlace places more item.now place) }
{
    let mut places = places;
    if item.item.kind == EsdKind::Ld || places.contains_key(&item.esdid) {
        return Ok(places);
    }
    places.insert(item.esdid, place)?;
    Ok(places)
}

fn give_length(items: &mut [Numbered], length: u32)
    ensures { items.new ≡ with_length length items.old }
{
    for i in 0..items.len() {
        let x = item_at(items, i);
        if lacks_length(&x) {
            items[i] = Numbered {
                esdid: x.esdid,
                item: EsdItem { length, ..x.item },
            };
            return;
        }
    }
}

fn item_at(items: &[Numbered], place: usize) -> Numbered
    requires { place < length items.now }
    ensures { slice_get items.now place ≡ Some result }
{
    items[place]
}

fn lacks_length(x: &Numbered) -> bool
    ensures { result ≡ lacks_length x.now }
{
    has_text(x.item.kind) && x.item.length == 0
}
