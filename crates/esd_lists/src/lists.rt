//! The lists of the program of the modules that were read.
ghost use Rattle.std.specs.Prelude.{◌≡◌, [], None, map, IfOk};
ghost use Rattle.std.specs.HashMap.{get};
ghost use Rattle.le_bytes.specs.declared.name.Name.{Name};
ghost use Rattle.le_bytes.specs.Names.{name_eq};
ghost use Rattle.linking_model.specs.Merged.{sections, labels, unresolved, registers};
ghost use Rattle.esd_index.specs.Contents.{now_of};
ghost use Rattle.esd_lists.specs.Held.{as_read};
ghost use Rattle.esd_lists.specs.Indexed.{Holds};
ghost use Rattle.esd_lists.specs.Gathered.{no_area, area_in, extent_in, label_step, control_listed, area_step, extent_step};
ghost use Rattle.esd_lists.specs.Walked.{gathered_from};

use crate::gathering::{Gathered, gather};
use crate::listing::unknowns;
use crate::numbering::Meanings;
use crate::reading::Reading;
use esd_index::Index;
use le_bytes::Items;
use std::alloc::{AllocError, Global};
use sym_mod::{Label, Register, Section, Unknown};

fn program_sections(
    alloc: Global,
    index: &Index,
    reads: &[Reading],
    gathered: &Gathered,
) -> Result<Items<Section>, AllocError>
    requires holds { Holds (now_of index.now) reads.now }
    requires controls { gathered.now.controls.items ≡ gathered_from (control_listed (now_of index.now).controls) [] 0 reads.now }
    requires areas { (y : Name) → area_in (get name_eq gathered.now.areas y) ≡ gathered_from (area_step y) no_area 0 reads.now }
    ensures { IfOk result (λ list. list ≡ sections (map as_read reads.now)) }
{
    let controls = gathered.controls.as_slice();
    crate::listing::sections(alloc, index, reads, controls, &gathered.areas)
}

fn program_labels(
    alloc: Global,
    index: &Index,
    reads: &[Reading],
    gathered: &Gathered,
) -> Result<Items<Label>, AllocError>
    requires holds { Holds (now_of index.now) reads.now }
    requires labels { (y : Name) → get name_eq gathered.now.labels y ≡ gathered_from (label_step (now_of index.now) reads.now y) None 0 reads.now }
    ensures { IfOk result (λ list. list ≡ labels (map as_read reads.now)) }
{
    crate::listing::labels(alloc, index, &gathered.labels)
}

fn program_registers(
    alloc: Global,
    index: &Index,
    reads: &[Reading],
    gathered: &Gathered,
) -> Result<Items<Register>, AllocError>
    requires holds { Holds (now_of index.now) reads.now }
    requires extents { (y : Name) → extent_in (get name_eq gathered.now.extents y) ≡ gathered_from (extent_step y) (extent_in None) 0 reads.now }
    ensures { IfOk result (λ list. list ≡ registers (map as_read reads.now)) }
{
    crate::listing::registers(alloc, index, &gathered.extents)
}

fn program_unknowns(
    alloc: Global,
    index: &Index,
    reads: &[Reading],
) -> Result<Items<Unknown>, AllocError>
    requires holds { Holds (now_of index.now) reads.now }
    ensures { IfOk result (λ list. list ≡ unresolved (map as_read reads.now)) }
{
    unknowns(alloc, index)
}

/// The lists of a program that are made from names, and what the names mean.
#[derive(Drop)]
pub struct Lists {
    pub sections: Items<Section>,
    pub labels: Items<Label>,
    pub unresolved: Items<Unknown>,
    pub registers: Items<Register>,
    pub meanings: Meanings,
}

impl Lists {
    ghost use Rattle.std.specs.Prelude.{◌≡◌, map, IfOk};
    ghost use Rattle.std.specs.HashMap.{get};
    ghost use Rattle.le_bytes.specs.Names.{name_eq};
    ghost use Rattle.linking_model.specs.Merged.{sections, labels, unresolved, registers};
    ghost use Rattle.esd_index.specs.Contents.{now_of};
    ghost use Rattle.esd_lists.specs.Held.{as_read};
    ghost use Rattle.esd_lists.specs.Indexed.{Holds};
    ghost use Rattle.esd_lists.specs.Numbered.{Means};

    /// The lists of the program of these modules, and the numbers of its labels and unresolved names.
    ///
    /// # Errors
    /// Want of memory.
    pub fn of(alloc: Global, index: &Index, reads: &[Reading]) -> Result<Lists, AllocError>
        requires holds { Holds (now_of index.now) reads.now }
        ensures sections { IfOk result (λ x. x.sections ≡ sections (map as_read reads.now)) }
        ensures labels { IfOk result (λ x. x.labels ≡ labels (map as_read reads.now)) }
        ensures unresolved { IfOk result (λ x. x.unresolved ≡ unresolved (map as_read reads.now)) }
        ensures registers { IfOk result (λ x. x.registers ≡ registers (map as_read reads.now)) }
        ensures meanings { IfOk result (λ x. Means (map as_read reads.now) (get name_eq x.meanings.labels) (get name_eq x.meanings.unknowns)) }
    {
        let gathered = gather(alloc, index, reads)?;
        let sections = program_sections(alloc, index, reads, &gathered)?;
        let labels = program_labels(alloc, index, reads, &gathered)?;
        let unresolved = program_unknowns(alloc, index, reads)?;
        let registers = program_registers(alloc, index, reads, &gathered)?;
        let meanings = Meanings::of(alloc, labels.as_slice(), unresolved.as_slice())?;
        Ok(Lists {
            sections,
            labels,
            unresolved,
            registers,
            meanings,
        })
    }
}
