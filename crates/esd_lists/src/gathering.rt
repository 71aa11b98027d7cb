//! What the items of the modules that were read bring, by name.
ghost use Rattle.std.specs.Prelude.{◌≡◌, [], fold, option_map, None, IfOk, OnOk};
ghost use Rattle.std.specs.HashMap.{get};
ghost use Rattle.le_bytes.specs.declared.name.Name.{Name};
ghost use Rattle.le_bytes.specs.Names.{name_eq};
ghost use Rattle.sym_mod.specs.Kinds.{kind_of, is_sd, is_cm, is_label, is_register};
ghost use Rattle.esd_index.specs.Keys.{sight};
ghost use Rattle.esd_index.specs.Contents.{now_of};
ghost use Rattle.esd_lists.specs.Looked.{IsNumbered};
ghost use Rattle.esd_lists.specs.Gathered.{base_of, area_in, no_area, extent_in, label_by, label_step, control_listed, area_step, extent_step};
ghost use Rattle.esd_lists.specs.Walked.{gathered_from};

use crate::by_name::{Area, Extent, First, first_of, put, take_area};
use crate::lookups::{home, rank, seen};
use crate::reading::Reading;
use esd_index::{Index, Key, Sighted, stands_at};
use le_bytes::Name;
use std::alloc::{AllocError, Global};
use std::collections::HashMap;
use sym_mod::{Item, ItemKind, Label};

// ---- kinds

fn is_label(x: &Sighted) -> bool
    ensures { result ≡ is_label (kind_of x.now.item) }
{
    matches!(x.item.kind_kept(), ItemKind::Label)
}

fn is_control(x: &Sighted) -> bool
    ensures { result ≡ is_sd (kind_of x.now.item) }
{
    matches!(x.item.kind_kept(), ItemKind::Sd)
}

fn is_common(x: &Sighted) -> bool
    ensures { result ≡ is_cm (kind_of x.now.item) }
{
    matches!(x.item.kind_kept(), ItemKind::Cm)
}

fn is_register(x: &Sighted) -> bool
    ensures { result ≡ is_register x.now.item.kind }
{
    matches!(x.item.kind, ItemKind::Register)
}

// ---- labels

fn base_of(x: Option<Sighted>) -> u32
    ensures { result ≡ base_of (option_map sight x) }
{
    match x {
        Some(owner) => owner.item.base,
        None => 0,
    }
}

/// The label at an item, where its section is kept. Its name is looked for first at `next`.
#[tactic(auto, unfolding(crate::specs::Gathered::label_by))]
fn label(index: &Index, reads: &[Reading], next: &mut usize, x: &Sighted) -> Option<Label>
    requires { IsNumbered (now_of index.now) }
    ensures { result ≡ label_by (now_of index.now) reads.now (sight x.now) }
{
    let number = x.item.owner as usize;
    let section = home(index, reads, x.of_module, number)?;
    let owner = base_of(seen(reads, x.of_module, number));
    Some(Label {
        name: x.item.name,
        rank: rank(index, next, &Key::Named(x.item.name)),
        section,
        offset: x.item.base.saturating_sub(owner),
    })
}

fn note_label(
    labels: &mut HashMap<Name, Label>,
    index: &Index,
    reads: &[Reading],
    next: &mut usize,
    x: &Sighted,
) -> Result<(), AllocError>
    requires { IsNumbered (now_of index.now) }
    ensures { OnOk result ((y : Name) → get name_eq labels.new y ≡ label_step (now_of index.now) reads.now y (get name_eq labels.old y) (sight x.now)) }
{
    if !is_label(x) {
        return Ok(());
    }
    if labels.contains_key(&x.item.name) {
        return Ok(());
    }
    match label(index, reads, next, x) {
        Some(label) => put(labels, x.item.name, label),
        None => Ok(()),
    }
}

// ---- sections

#[tactic(auto, unfolding(crate::specs::Gathered::control_listed))]
fn note_control(controls: &mut Vec<First>, index: &Index, x: &Sighted) -> Result<(), AllocError>
    ensures { OnOk result (controls.new.items ≡ control_listed (now_of index.now).controls controls.old.items (sight x.now)) }
{
    if !is_control(x) {
        return Ok(());
    }
    if !stands_at(
        index.table.controls(),
        controls.len(),
        &Key::Named(x.item.name),
    ) {
        return Ok(());
    }
    controls.push(first_of(x))?;
    Ok(())
}

fn note_area(alloc: Global, areas: &mut HashMap<Name, Area>, x: &Sighted) -> Result<(), AllocError>
    ensures { OnOk result ((y : Name) → area_in (get name_eq areas.new y) ≡ area_step y (area_in (get name_eq areas.old y)) (sight x.now)) }
{
    if !is_common(x) {
        return Ok(());
    }
    let mut area = take_area(alloc, areas, &x.item.name);
    area.users.push(x.segment)?;
    area.length = area.length.max(x.item.length);
    put(areas, x.item.name, area)
}

// ---- registers

/// The extent of a register; none where it has none yet.
pub(crate) fn extent_at(extents: &HashMap<Name, Extent>, name: &Name) -> Extent
    ensures { result ≡ extent_in (get name_eq extents.now name.now) }
{
    match extents.get(name) {
        Some(extent) => *extent,
        None => Extent {
            length: 0,
            align: 1,
        },
    }
}

fn note_extent(extents: &mut HashMap<Name, Extent>, x: &Sighted) -> Result<(), AllocError>
    ensures { OnOk result ((y : Name) → extent_in (get name_eq extents.new y) ≡ extent_step y (extent_in (get name_eq extents.old y)) (sight x.now)) }
{
    if !is_register(x) {
        return Ok(());
    }
    let extent = extent_at(extents, &x.item.name);
    put(
        extents,
        x.item.name,
        Extent {
            length: extent.length.max(x.item.length),
            align: extent.align.max(x.item.align),
        },
    )
}

// ---- all

/// What the items bring, by name.
#[derive(Drop)]
pub(crate) struct Gathered {
    /// What the first SD item of each name brings, in the order of their names in the index.
    pub(crate) controls: Vec<First>,
    /// The CM items of each name, as one area.
    pub(crate) areas: HashMap<Name, Area>,
    /// The first kept label of each name.
    pub(crate) labels: HashMap<Name, Label>,
    /// The greatest length and alignment of each register.
    pub(crate) extents: HashMap<Name, Extent>,
    /// Where the name of the next label is likely to stand among the symbols.
    next_label: usize,
}

impl Gathered {
    ghost use Rattle.std.specs.Prelude.{◌≡◌, fold, OnOk};
    ghost use Rattle.std.specs.HashMap.{get};
    ghost use Rattle.le_bytes.specs.declared.name.Name.{Name};
    ghost use Rattle.le_bytes.specs.Names.{name_eq};
    ghost use Rattle.linking_model.specs.Kept.{sights_in};
    ghost use Rattle.esd_index.specs.Keys.{sight};
    ghost use Rattle.esd_index.specs.Contents.{now_of};
    ghost use Rattle.esd_lists.specs.Looked.{IsNumbered};
    ghost use Rattle.esd_lists.specs.Gathered.{area_in, extent_in, label_step, control_listed, area_step, extent_step};

    fn note(
        &mut self,
        alloc: Global,
        index: &Index,
        reads: &[Reading],
        x: &Sighted,
    ) -> Result<(), AllocError>
        requires { IsNumbered (now_of index.now) }
        ensures controls { OnOk result (self.new.controls.items ≡ control_listed (now_of index.now).controls self.old.controls.items (sight x.now)) }
        ensures areas { OnOk result ((y : Name) → area_in (get name_eq self.new.areas y) ≡ area_step y (area_in (get name_eq self.old.areas y)) (sight x.now)) }
        ensures labels { OnOk result ((y : Name) → get name_eq self.new.labels y ≡ label_step (now_of index.now) reads.now y (get name_eq self.old.labels y) (sight x.now)) }
        ensures extents { OnOk result ((y : Name) → extent_in (get name_eq self.new.extents y) ≡ extent_step y (extent_in (get name_eq self.old.extents y)) (sight x.now)) }
    {
        note_control(&mut self.controls, index, x)?;
        note_area(alloc, &mut self.areas, x)?;
        note_label(&mut self.labels, index, reads, &mut self.next_label, x)?;
        note_extent(&mut self.extents, x)
    }

    fn note_items(
        &mut self,
        alloc: Global,
        index: &Index,
        reads: &[Reading],
        of_module: usize,
        segment: u8,
        items: &[Item],
    ) -> Result<(), AllocError>
        requires { IsNumbered (now_of index.now) }
        ensures controls { OnOk result (self.new.controls.items ≡ fold (control_listed (now_of index.now).controls) self.old.controls.items (sights_in of_module segment 0 items.now)) }
        ensures areas { OnOk result ((y : Name) → area_in (get name_eq self.new.areas y) ≡ fold (area_step y) (area_in (get name_eq self.old.areas y)) (sights_in of_module segment 0 items.now)) }
        ensures labels { OnOk result ((y : Name) → get name_eq self.new.labels y ≡ fold (label_step (now_of index.now) reads.now y) (get name_eq self.old.labels y) (sights_in of_module segment 0 items.now)) }
        ensures extents { OnOk result ((y : Name) → extent_in (get name_eq self.new.extents y) ≡ fold (extent_step y) (extent_in (get name_eq self.old.extents y)) (sights_in of_module segment 0 items.now)) }
    {
        for (number, item) in items.iter().enumerate() {
            let x = Sighted {
                of_module,
                number,
                segment,
                item: *item,
            };
            self.note(alloc, index, reads, &x)?;
        }
        Ok(())
    }
}

/// What the items of all modules bring, each looked at once.
pub(crate) fn gather(
    alloc: Global,
    index: &Index,
    reads: &[Reading],
) -> Result<Gathered, AllocError>
    requires { IsNumbered (now_of index.now) }
    ensures controls { IfOk result (λ g. g.controls.items ≡ gathered_from (control_listed (now_of index.now).controls) [] 0 reads.now) }
    ensures areas { IfOk result (λ g. (y : Name) → area_in (get name_eq g.areas y) ≡ gathered_from (area_step y) no_area 0 reads.now) }
    ensures labels { IfOk result (λ g. (y : Name) → get name_eq g.labels y ≡ gathered_from (label_step (now_of index.now) reads.now y) None 0 reads.now) }
    ensures extents { IfOk result (λ g. (y : Name) → extent_in (get name_eq g.extents y) ≡ gathered_from (extent_step y) (extent_in None) 0 reads.now) }
{
    let mut gathered = Gathered {
        controls: Vec::with_capacity(alloc, index.table.controls().len())?,
        areas: HashMap::new(alloc),
        labels: HashMap::new(alloc),
        extents: HashMap::new(alloc),
        next_label: 0,
    };
    for (number, reading) in reads.iter().enumerate() {
        let items = reading.read.items.as_slice();
        gathered.note_items(alloc, index, reads, number, reading.segment, items)?;
    }
    Ok(gathered)
}
