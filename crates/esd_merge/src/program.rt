//! What the modules that were read bring to their program, one after the other.
ghost use Rattle.std.specs.Prelude.{◌≡◌, [], IfOk, OnOk};
ghost use Rattle.std.specs.HashMap.{get};
ghost use Rattle.le_bytes.specs.Names.{name_eq};
ghost use Rattle.esd_index.specs.Contents.{now_of};
ghost use Rattle.esd_lists.specs.Looked.{IsNumbered};
ghost use Rattle.esd_lists.specs.Listed.{pushed};
ghost use Rattle.esd_merge.specs.Meant.{start_by};
ghost use Rattle.esd_merge.specs.Whole.{module_constants, constants_from, starts_from, module_texts, texts_from};

use crate::bringing::Standing;
use crate::tabled::ItemTable;
use esd_index::Index;
use esd_lists::{Lists, Meanings, Reading, push_some};
use le_bytes::Items;
use std::alloc::{AllocError, Global};
use sym_mod::{Constant, Program, StartAt, SymModule, Text};

/// What the modules bring one after the other.
#[derive(Drop)]
pub(crate) struct Brought {
    constants: Items<Constant>,
    texts: Items<Text>,
    starts: Items<StartAt>,
}

/// Adds what a module brings. Its constants are let go.
#[tactic(auto, using(crate::proofs::ItemTables::start_is))]
fn bring_module(
    alloc: Global,
    brought: &mut Brought,
    table: &mut ItemTable,
    index: &Index,
    meanings: &Meanings,
    number: usize,
    reading: Reading,
) -> Result<(), AllocError>
    requires { IsNumbered (now_of index.now) }
    ensures constants { OnOk result (brought.new.constants ≡ module_constants (now_of index.now) (get name_eq meanings.now.labels) (get name_eq meanings.now.unknowns) brought.old.constants number reading) }
    ensures texts { OnOk result (brought.new.texts ≡ module_texts (now_of index.now) brought.old.texts number reading) }
    ensures starts { OnOk result (brought.new.starts ≡ pushed brought.old.starts (start_by (now_of index.now) number reading.segment reading.read.items reading.kept reading.read.entry)) }
{
    let Reading {
        read,
        segment,
        kept,
    } = reading;
    let SymModule {
        items,
        fragments,
        constants,
        entry,
    } = read;
    let at = Standing {
        number,
        segment,
        items: items.as_slice(),
        kept: kept.as_slice(),
    };
    table.fill(index, meanings, &at)?;
    table.add_constants(
        alloc,
        &mut brought.constants,
        index,
        meanings,
        constants.as_slice(),
    )?;
    push_some(&mut brought.starts, table.start(entry))?;
    table.add_texts(&mut brought.texts, fragments.into_vec())
}

/// How many constants the modules have, those of sections that are not kept among them. Only memory
/// depends on it.
fn constant_count(reads: &[Reading]) -> usize {
    let mut count: usize = 0;
    for reading in reads {
        count = count.saturating_add(reading.read.constants.len());
    }
    count
}

/// What the modules bring. Each is let go as soon as it is done with, so that its memory serves the
/// next.
pub(crate) fn bring(
    alloc: Global,
    index: &Index,
    meanings: &Meanings,
    reads: Vec<Reading>,
) -> Result<Brought, AllocError>
    requires { IsNumbered (now_of index.now) }
    ensures constants { IfOk result (λ x. x.constants ≡ constants_from (now_of index.now) (get name_eq meanings.now.labels) (get name_eq meanings.now.unknowns) [] 0 reads.items) }
    ensures texts { IfOk result (λ x. x.texts ≡ texts_from (now_of index.now) [] 0 reads.items) }
    ensures starts { IfOk result (λ x. x.starts ≡ starts_from (now_of index.now) [] 0 reads.items) }
{
    let mut brought = Brought {
        constants: Items::from_vec(Vec::with_capacity(alloc, constant_count(reads.as_slice()))?),
        texts: Items::from_vec(Vec::with_capacity(alloc, reads.len())?),
        starts: Items::new(alloc),
    };
    let mut table = ItemTable::new(alloc);
    let mut number: usize = 0;
    for reading in reads {
        bring_module(
            alloc,
            &mut brought,
            &mut table,
            index,
            meanings,
            number,
            reading,
        )?;
        number += 1;
    }
    Ok(brought)
}

impl Brought {
    ghost use Rattle.std.specs.Prelude.{◌≡◌};

    /// The program with these lists.
    pub(crate) fn with(self, lists: Lists) -> Program
        ensures { result ≡ record { sections = lists.sections; labels = lists.labels; unresolved = lists.unresolved; registers = lists.registers; texts = self.texts; constants = self.constants; starts = self.starts } }
    {
        let Lists {
            sections,
            labels,
            unresolved,
            registers,
            meanings: _,
        } = lists;
        let Brought {
            constants,
            texts,
            starts,
        } = self;
        Program {
            sections,
            labels,
            unresolved,
            registers,
            texts,
            constants,
            starts,
        }
    }
}
