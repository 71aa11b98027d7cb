//! The parts of a member and the numbers of its items.
ghost use Rattle.std.specs.Prelude.{◌≡◌, ◌+◌, ◌<◌, ◌≤◌, All, IfOk, length, map};
ghost use Rattle.sym_mod.specs.Sound.{IsSoundProgram};
ghost use Rattle.relocate.specs.Ready.{StandsInTree, laid};
ghost use Rattle.member_model.specs.Parts.{parts, parts_in, part_number, target_number};
ghost use Rattle.mod_parts.specs.Listed.{CanBeListed};
ghost use Rattle.mod_parts.specs.Seen.{seen, IsPartOf, IsTargetOf};

use crate::gathering::parts_by_segment;
use crate::numbers::{Numbers, count_parts, numbered};
use crate::part::Part;
use le_bytes::{Items, Memory};
use seg_tree::SegTree;
use std::alloc::Global;
use std::marker::Model;
use sym_mod::{Program, Tables, Target};

/// The parts of a written member, by segment, and the numbers of its symbol items: parts, labels,
/// unresolved names and registers follow one another, from 1 on (this project's profile). Contracts
/// see the program, its tree and its tables.
#[derive(Drop)]
pub struct PartList<'a> {
    pub(crate) program: &'a Program,
    pub(crate) tree: &'a SegTree,
    pub(crate) tables: &'a Tables,
    /// The parts of each segment, segment 1 first.
    segments: Items<Items<Part>>,
    count: u16,
    numbers: Numbers,
}

impl<'a> Model for PartList<'a> {
    ghost use Rattle.linking_model.specs.Places.{Laid};
    ghost use Rattle.relocate.specs.Ready.{laid};
    ghost use Rattle.mod_parts.specs.Listed.{ListsParts};

    ghost Value = { Laid };

    ghost view = { λ l. laid l.program.now l.tree.now l.tables.now };

    ghost invariant = { λ l. ListsParts (laid l.program.now l.tree.now l.tables.now) l.segments l.count l.numbers };
}

impl<'a> PartList<'a> {
    /// The parts of a program with this tree and these tables. Linear in sections and segments.
    ///
    /// # Errors
    /// Want of memory.
    pub fn new(
        alloc: Global,
        program: &'a Program,
        tree: &'a SegTree,
        tables: &'a Tables,
    ) -> Result<PartList<'a>, Memory>
        requires sound { IsSoundProgram program.now }
        requires in_tree { All (StandsInTree tree.now.tree) program.now.sections }
        requires few { All (λ x. length x ≤ 340) tables.now.entries }
        ensures { IfOk result (λ list. list ≡ laid program.now tree.now tables.now) }
    {
        let segment_count = tree.count() as usize;
        let segments = parts_by_segment(alloc, program, tree, tables)?;
        let count = count_parts(segments.as_slice());
        let numbers = numbered(
            alloc,
            segments.as_slice(),
            program.sections.len(),
            segment_count,
        )?;
        Ok(PartList {
            program,
            tree,
            tables,
            segments,
            count,
            numbers,
        })
    }

    /// The program that the parts are of.
    pub fn program(&self) -> &Program
        ensures program { result.now ≡ self.now.program }
        ensures can { CanBeListed self.now }
    {
        self.program
    }

    /// The tree of the program's segments.
    pub fn tree(&self) -> &SegTree
        ensures tree { result.now.tree ≡ self.now.tree }
        ensures can { CanBeListed self.now }
    {
        self.tree
    }

    /// The entries of each segment's table.
    pub fn tables(&self) -> &Tables
        ensures tables { result.now.entries ≡ self.now.entries }
        ensures can { CanBeListed self.now }
    {
        self.tables
    }

    /// The parts of a segment, in the order of their addresses.
    pub fn in_segment(&self, s: u8) -> &[Part]
        requires first { 1 ≤ s }
        requires last { s ≤ length self.now.tree }
        ensures parts { map seen result.now ≡ parts_in self.now s }
        ensures among { All (λ x. IsPartOf self.now (seen x)) result.now }
    {
        match self.segments.get(s as usize - 1) {
            Some(parts) => parts.as_slice(),
            None => &[],
        }
    }

    /// The number of all parts.
    pub fn count(&self) -> u16
        ensures { result ≡ length (parts self.now) }
    {
        self.count
    }

    /// The item number of a part, from 1; 0 of a table that is not there.
    pub fn number_of(&self, part: Part) -> u16
        requires { IsPartOf self.now (seen part) }
        ensures { result ≡ part_number self.now (seen part) }
    {
        self.numbers.of(part)
    }

    /// The item number of what a constant refers to, from 1; 0 of the total.
    pub fn number_of_target(&self, target: Target) -> u16
        requires { IsTargetOf self.now.program target }
        ensures { result ≡ target_number self.now target }
    {
        let labels = self.program.labels.len();
        let unresolved = self.program.unresolved.len();
        match target {
            Target::Section(section) => self.number_of(Part::Section(section)),
            Target::Label(label) => self.number_after(label as usize),
            Target::Unresolved(name) => self.number_after(labels + name as usize),
            Target::Register(register) => self.number_after(
                labels + unresolved + register as usize,
            ),
            Target::Total => 0,
        }
    }

    /// The number of an item that `place` others part from the last part.
    fn number_after(&self, place: usize) -> u16
        requires { length (parts self.now) + place < 32767 }
        ensures { result ≡ length (parts self.now) + place + 1 }
    {
        self.count + place as u16 + 1
    }
}
