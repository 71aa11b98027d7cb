//! The relocation items of a member, with the place of each field.
ghost use Rattle.std.specs.Prelude.{◌≡◌, ◌∷◌, [], ◌++◌, ◌<◌, ◌≤◌, ◌+◌, ◌^◌, ◌&&◌, ℕ, IfOk, OnOk, true, false};
ghost use Rattle.std.specs.Option.{option_or};
ghost use Rattle.std.specs.HashMap.{get};
ghost use Rattle.member_walk.specs.declared.field_places.FieldPlace.{FieldPlace as PlaceOfField};
ghost use Rattle.load_recs.specs.Relocations.{rlds_of};
ghost use Rattle.le_bytes.specs.declared.record_what.RecWhat.TheVariants.{ConstantsOverlap};
ghost use Rattle.member_model.specs.Symbols.{field_length};
ghost use Rattle.member_model.specs.Faults.{field_fault, fields_fault, when};
ghost use Rattle.member_checks.specs.Kept.{Keeps};
ghost use Rattle.member_checks.specs.Segments.{symbols_in};
ghost use Rattle.member_walk.specs.Fields.{items_of, clash_at, extent_after, fields_in, overlaps, place_eq};

use crate::field_places::{Extent, FieldPlace, clashes, extent_of, place_of};
use le_bytes::RecWhat;
use load_recs::{RldItem, rld_items};
use member_checks::{Refused, Symbols, item_fault};
use std::alloc::{AllocError, Global};
use std::collections::HashMap;
use std::marker::Model;

/// A relocation item with the number of its segment.
#[derive(Clone, Copy, Debug, PartialEq, Eq)]
pub struct SegmentField {
    /// The segment's number, from 1.
    pub segment: u32,
    pub item: RldItem,
}

/// Relocation items in their order.
#[derive(Drop)]
pub(crate) struct Fields {
    fields: Vec<SegmentField>,
    /// The extent of the first field that begins at each place.
    extents: HashMap<FieldPlace, Extent>,
}

impl Model for Fields {
    ghost use Rattle.std.specs.Prelude.{List};
    ghost use Rattle.std.specs.HashMap.{get};
    ghost use Rattle.member_walk.specs.declared.fields.SegmentField.{SegmentField};
    ghost use Rattle.member_walk.specs.Fields.{AreHeld, items_of, place_eq};

    ghost Value = { List SegmentField };

    ghost view = { λ s. s.fields.items };

    ghost invariant = { λ s. AreHeld (items_of s.fields.items) (get place_eq s.extents) };
}

impl Fields {
    /// No items. Takes no memory.
    pub(crate) fn new(alloc: Global) -> Fields
        ensures { result ≡ [] }
    {
        Fields {
            fields: Vec::new(alloc),
            extents: HashMap::new(alloc),
        }
    }

    pub(crate) fn as_slice(&self) -> &[SegmentField]
        ensures { result.now ≡ self.now }
    {
        self.fields.as_slice()
    }

    pub(crate) fn into_vec(self) -> Vec<SegmentField>
        ensures { result.items ≡ self }
    {
        self.fields
    }

    /// Whether a field shares a byte with the item's field, and may not.
    #[tactic(auto, using(crate::proofs::FieldLists::overlap_as))]
    fn overlaps(&self, x: &RldItem) -> bool
        ensures { result ≡ overlaps (items_of self.now) x.now }
    {
        any_clashes(&self.extents, x)
    }

    /// `ConstantsOverlap` where a field shares a byte with the item's field, and may not.
    fn overlap_fault(&self, x: &RldItem) -> Option<RecWhat>
        ensures { result ≡ when (overlaps (items_of self.now) x.now) ConstantsOverlap }
    {
        if self.overlaps(x) {
            Some(RecWhat::ConstantsOverlap)
        } else {
            None
        }
    }

    /// What is wrong with an item that comes after these in a segment.
    fn fault(&self, symbols: &Symbols, segment: u32, x: &RldItem) -> Option<RecWhat>
        ensures { result ≡ field_fault (symbols_in symbols.now segment) (items_of self.now) x.now }
    {
        match item_fault(symbols.as_slice(), segment, x) {
            Some(what) => Some(what),
            None => self.overlap_fault(x),
        }
    }

    /// The items with one more.
    #[tactic(auto, using(crate::proofs::FieldLists::held_more, crate::proofs::FieldLists::items_more))]
    fn with(self, segment: u32, item: RldItem) -> Result<Fields, AllocError>
        requires { overlaps (items_of self) item ≡ false }
        ensures { IfOk result (λ fields. fields ≡ self ++ record { segment = segment; item = item } ∷ []) }
    {
        let Fields {
            mut fields,
            mut extents,
        } = self;
        note_extent(&mut extents, &item)?;
        fields.push(SegmentField { segment, item })?;
        Ok(Fields { fields, extents })
    }

    /// The items with those of a record of a segment, each of which is judged after those before it.
    ///
    /// # Errors
    /// The first fault of an item; want of memory.
    #[tactic(auto, using(crate::proofs::FieldLists::no_overlap, crate::proofs::FieldLists::items_more))]
    pub(crate) fn with_items(
        self,
        symbols: &Symbols,
        segment: u32,
        items: &[u8],
    ) -> Result<Fields, Refused>
        ensures { Keeps (fields_fault (symbols_in symbols.now segment) (items_of self) (rlds_of items.now))
            (self ++ fields_in segment (rlds_of items.now)) result }
    {
        let mut fields = self;
        for x in rld_items(items) {
            match fields.fault(symbols, segment, &x) {
                Some(what) => return Err(Refused::What(what)),
                None => fields = fields.with(segment, x)?,
            }
        }
        Ok(fields)
    }
}

/// Whether a field that begins at this address of the item's section shares a byte with the item's
/// field, and may not.
fn clashes_at(extents: &HashMap<FieldPlace, Extent>, x: &RldItem, address: u64) -> bool
    requires { address < 2 ^ 33 }
    ensures { result ≡ clash_at (get place_eq extents.now) x.now address }
{
    let place = FieldPlace {
        section: x.p,
        address,
    };
    match extents.get(&place) {
        Some(other) => clashes(x, address, *other),
        None => false,
    }
}

/// Whether a field shares a byte with the item's field, and may not. A field that reaches the item's
/// begins at most 3 bytes before it.
fn any_clashes(extents: &HashMap<FieldPlace, Extent>, x: &RldItem) -> bool
    ensures some { result ≡ true → (address : ℕ) × (clash_at (get place_eq extents.now) x.now address ≡ true) }
    ensures none { result ≡ false → ((address : ℕ) → x.now.address ≤ address + 3 → address < x.now.address + field_length x.now → clash_at (get place_eq extents.now) x.now address ≡ false) }
{
    let from = u64::from(x.address);
    for address in from.saturating_sub(3)..from + u64::from(x.field_length()) {
        if clashes_at(extents, x, address) {
            return true;
        }
    }
    false
}

/// Notes the extent of the item's field, unless a field begins at its place already.
#[tactic(auto, using(crate::proofs::FieldLists::place_known))]
fn note_extent(extents: &mut HashMap<FieldPlace, Extent>, x: &RldItem) -> Result<(), AllocError>
    ensures { OnOk result ((place : PlaceOfField) → get place_eq extents.new place ≡ option_or (get place_eq extents.old place) (extent_after x.now place)) }
{
    let place = place_of(x);
    if !extents.contains_key(&place) {
        let _ = extents.insert(place, extent_of(x))?;
    }
    Ok(())
}
