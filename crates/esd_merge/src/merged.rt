//! The modules that were read, and what their names mean.
ghost use Rattle.std.specs.Prelude.{◌≡◌, ◌<◌, [], IfOk};
ghost use Rattle.sym_mod.specs.Sound.{IsSoundModule, IsSoundProgram};
ghost use Rattle.linking_model.specs.Kept.{Read};
ghost use Rattle.linking_model.specs.Merged.{definition, unresolved, program_of};
ghost use Rattle.esd_merge.specs.Added.{AddAnswer, IsMerged};
ghost use Rattle.esd_merge.specs.Left.{target_of, name_pairs};

use crate::calls::{callable, changed_if};
use crate::defined::Defined;
use crate::entering::enter;
use crate::fault::MergeFault;
use crate::program::bring;
use crate::unres::{Unres, label};
use esd_index::{Index, Key};
use esd_lists::{Lists, Reading, section_near};
use le_bytes::{Memory, Name};
use std::alloc::Global;
use std::marker::Model;
use sym_mod::{Program, SymModule};

/// The modules that were read, each with the segment that was current. Contracts see the list.
#[derive(Drop)]
pub struct Merged {
    pub(crate) reads: Vec<Reading>,
    pub(crate) index: Index,
}

impl Model for Merged {
    ghost use Rattle.std.specs.Prelude.{List, map};
    ghost use Rattle.linking_model.specs.Kept.{Read};
    ghost use Rattle.esd_lists.specs.Held.{as_read};

    ghost Value = { List Read };

    ghost view = { λ m. map as_read m.reads.items };

    ghost use Rattle.esd_merge.specs.Inside.{IsHeld};

    ghost invariant = { IsHeld };
}

impl Merged {
    ghost use Rattle.std.specs.Prelude.{◌≡◌, ◌<◌, [], length, true, IfOk};
    ghost use Rattle.sym_mod.specs.Sound.{IsSoundModule, IsSoundProgram};
    ghost use Rattle.linking_model.specs.Merged.{definition, unresolved, program_of};
    ghost use Rattle.esd_merge.specs.Added.{AddAnswer, IsMerged};
    ghost use Rattle.esd_merge.specs.Left.{target_of, name_pairs};
    ghost use Rattle.esd_merge.specs.Rest.{names_left};
    ghost use Rattle.linking_model.specs.Kept.{appearance};
    ghost use Rattle.esd_merge.specs.Calls.{callable_at, changed_place, WereCalled};

    /// No modules. Keeps the allocator and takes no memory.
    pub fn new(alloc: Global) -> Merged
        ensures { result ≡ [] }
    {
        Merged {
            reads: Vec::new(alloc),
            index: Index::new(alloc),
        }
    }

    /// How many places there are in the order of first appearance: for each name and each private
    /// section that an item has or a kept constant refers to.
    pub fn places(&self) -> usize
        ensures { result ≡ length (appearance self.now) }
    {
        self.index.table.symbols().len()
    }

    /// The name at a place in the order of first appearance, from 0, where it is to be called: where it is
    /// unresolved and not weak. None everywhere else, and where there is no such place.
    pub fn callable(&self, place: usize) -> Option<Name>
        ensures { result ≡ callable_at self.now place }
    {
        callable(&self.index, place)
    }

    fn put(
        &mut self,
        alloc: Global,
        m: SymModule,
        segment: u8,
        asked: bool,
    ) -> Result<usize, MergeFault>
        requires sound { IsSoundModule m }
        requires numbered { 0 < segment }
        ensures added { AddAnswer self.old m segment result self.new }
        ensures changed { IfOk result (λ k. asked ≡ true → k ≡ changed_place self.old self.new) }
    {
        let kept = match enter(&mut self.index, alloc, self.reads.len(), segment, &m) {
            Ok(kept) => kept,
            Err(fault) => return Err(fault),
        };
        let changed = changed_if(&self.index, asked);
        let reading = Reading {
            read: m,
            segment,
            kept,
        };
        match self.reads.push(reading) {
            Ok(()) => {
                self.index.mark();
                Ok(changed)
            }
            Err(_) => {
                self.index.go_back();
                Err(MergeFault::Memory)
            }
        }
    }

    /// Adds a module that was read in a segment, numbered from 1.
    ///
    /// # Errors
    /// DoubleDefinition exactly where an item of the module gives a name a second meaning, with the name
    /// of the first; else TooManySymbols exactly where more than 32,511 names, private sections and
    /// registers would have appeared. Out of memory. After each the modules are as before.
    pub fn add(&mut self, alloc: Global, m: SymModule, segment: u8) -> Result<(), MergeFault>
        requires sound { IsSoundModule m }
        requires numbered { 0 < segment }
        ensures { AddAnswer self.old m segment result self.new }
    {
        match self.put(alloc, m, segment, false) {
            Ok(_) => Ok(()),
            Err(fault) => Err(fault),
        }
    }

    /// Adds a module that was called, as [`Merged::add`] does, and answers the first place at which it may
    /// have made a name one that is to be called: a name that is to be called at a place before it was to
    /// be called there before. It is the place of the first name that stood there before and to which the
    /// module is the first to refer, by an ER item, by a constant's name or by a label; where there is
    /// none, the number of places before.
    ///
    /// # Errors
    /// As [`Merged::add`].
    pub fn add_called(
        &mut self,
        alloc: Global,
        m: SymModule,
        segment: u8,
    ) -> Result<usize, MergeFault>
        requires sound { IsSoundModule m }
        requires numbered { 0 < segment }
        ensures added { AddAnswer self.old m segment result self.new }
        ensures changed { IfOk result (λ k. k ≡ changed_place self.old self.new) }
        ensures called { IfOk result (WereCalled self.old self.new) }
    {
        self.put(alloc, m, segment, true)
    }

    /// The unresolved names in order of first appearance, each with whether it is weak.
    pub fn unresolved(&self) -> Unres<'_>
        ensures { names_left result ≡ name_pairs (unresolved self.now) }
    {
        Unres::new(&self.index)
    }

    /// The section or label that has the name; None exactly where no kept one has it. It costs two
    /// look-ups, but where a label has the name also a walk over all names.
    pub fn define(&self, n: &Name) -> Option<Defined>
        ensures { target_of result ≡ definition self.now n.now }
    {
        // No place is likelier than another.
        match section_near(&self.index, 0, &Key::Named(*n)) {
            Some(number) => Some(Defined::Section(number)),
            None => label(&self.index, n),
        }
    }

    /// The program of the modules.
    ///
    /// # Errors
    /// Want of memory.
    pub fn program(self, alloc: Global) -> Result<Program, Memory>
        ensures program { IfOk result (λ p. p ≡ program_of self) }
        ensures sound { IfOk result IsSoundProgram }
    {
        let Merged { reads, index } = self;
        let lists = Lists::of(alloc, &index, reads.as_slice())?;
        let brought = bring(alloc, &index, &lists.meanings, reads)?;
        Ok(brought.with(lists))
    }
}
