//! The constants of a module that stand in kept sections, in order.
ghost use Rattle.std.specs.Prelude.{◌≡◌, filter, fold, OnOk, IfOk};
ghost use Rattle.linking_model.specs.Names.{in_order};
ghost use Rattle.linking_model.specs.Kept.{stands_before};
ghost use Rattle.esd_index.specs.declared.constants.Spot.{Spot};
ghost use Rattle.esd_index.specs.Contents.{now_of, marked_of};
ghost use Rattle.esd_index.specs.Steps.{flag_at, with_target, with_constant};
ghost use Rattle.esd_index.specs.Ordered.{constants_at, with_spot, with_kept};
ghost use Rattle.esd_index.specs.Sorted.{sorted_from, rise_from};

use crate::index::Index;
use crate::key::flag_at;
use std::alloc::{AllocError, Global};
use std::collections::BTreeSet;
use sym_mod::{Item, SymConst};

/// Where a constant stands: its item, its offset there, and its place among the constants, from 0.
#[derive(Clone, Copy, Debug, PartialEq, Eq, PartialOrd, Ord)]
pub(crate) struct Spot {
    item: u32,
    offset: u32,
    place: usize,
}

/// Whether the constants stand in order as they are.
pub(crate) fn stand_in_order(constants: &[SymConst]) -> bool
    ensures { result ≡ rise_from 0 0 constants.now }
{
    let mut item = 0;
    let mut offset = 0;
    for constant in constants {
        if constant.item < item || (constant.item == item && constant.offset < offset) {
            return false;
        }
        item = constant.item;
        offset = constant.offset;
    }
    true
}

fn kept_spots(
    alloc: Global,
    constants: &[SymConst],
    kept: &[bool],
) -> Result<BTreeSet<Spot>, AllocError>
    ensures { IfOk result (λ spots. spots.keys ≡ sorted_from kept.now 0 constants.now) }
{
    let mut spots = BTreeSet::new(alloc);
    let mut place = constants.len();
    while place > 0 {
        place -= 1;
        let constant = &constants[place];
        if flag_at(kept, constant.item as usize) {
            spots.insert(Spot {
                item: constant.item,
                offset: constant.offset,
                place,
            })?;
        }
    }
    Ok(spots)
}

fn listed(alloc: Global, spots: BTreeSet<Spot>) -> Result<Vec<Spot>, AllocError>
    ensures { IfOk result (λ list. list.items ≡ spots.keys) }
{
    let mut spots = spots;
    let mut list = Vec::new(alloc);
    while let Some(spot) = spots.pop_first() {
        list.push(spot)?;
    }
    Ok(list)
}

/// Where the constants that stand in marked items stand, in order.
#[tactic(auto, using(crate::proofs::Sorting::spots_sorted))]
pub(crate) fn spots_in_order(
    alloc: Global,
    constants: &[SymConst],
    kept: &[bool],
) -> Result<Vec<Spot>, AllocError>
    ensures { IfOk result (λ spots. constants_at constants.now spots.items ≡ in_order stands_before (filter (λ c. flag_at kept.now c.item) constants.now)) }
{
    let spots = kept_spots(alloc, constants, kept)?;
    listed(alloc, spots)
}

impl Index {
    #[tactic(auto, unfolding(crate::specs::Steps::with_constant))]
    fn note_constant(&mut self, items: &[Item], constant: &SymConst) -> Result<(), AllocError>
        ensures noted { OnOk result (now_of self.new ≡ with_constant items.now (now_of self.old) constant.now) }
        ensures marked { marked_of self.new ≡ marked_of self.old }
    {
        for term in constant.terms.as_slice() {
            self.note_target(items, term)?;
        }
        Ok(())
    }

    #[tactic(auto, unfolding(crate::specs::Ordered::with_spot))]
    fn note_spot(
        &mut self,
        items: &[Item],
        constants: &[SymConst],
        spot: Spot,
    ) -> Result<(), AllocError>
        ensures noted { OnOk result (now_of self.new ≡ with_spot items.now constants.now (now_of self.old) spot) }
        ensures marked { marked_of self.new ≡ marked_of self.old }
    {
        match constants.get(spot.place) {
            Some(constant) => self.note_constant(items, constant),
            None => Ok(()),
        }
    }

    /// Notes the names to which the constants at these places refer.
    pub(crate) fn note_constants(
        &mut self,
        items: &[Item],
        constants: &[SymConst],
        spots: &[Spot],
    ) -> Result<(), AllocError>
        ensures noted { OnOk result (now_of self.new ≡ fold (with_spot items.now constants.now) (now_of self.old) spots.now) }
        ensures marked { marked_of self.new ≡ marked_of self.old }
    {
        for spot in spots {
            self.note_spot(items, constants, *spot)?;
        }
        Ok(())
    }

    #[tactic(auto, unfolding(crate::specs::Ordered::with_kept))]
    fn note_kept(
        &mut self,
        items: &[Item],
        kept: &[bool],
        constant: &SymConst,
    ) -> Result<(), AllocError>
        ensures noted { OnOk result (now_of self.new ≡ with_kept items.now kept.now (now_of self.old) constant.now) }
        ensures marked { marked_of self.new ≡ marked_of self.old }
    {
        if !flag_at(kept, constant.item as usize) {
            return Ok(());
        }
        self.note_constant(items, constant)
    }

    /// Notes the names to which the constants in marked items refer, as they stand.
    pub(crate) fn note_all_kept(
        &mut self,
        items: &[Item],
        kept: &[bool],
        constants: &[SymConst],
    ) -> Result<(), AllocError>
        ensures noted { OnOk result (now_of self.new ≡ fold (with_kept items.now kept.now) (now_of self.old) constants.now) }
        ensures marked { marked_of self.new ≡ marked_of self.old }
    {
        for constant in constants {
            self.note_kept(items, kept, constant)?;
        }
        Ok(())
    }
}
