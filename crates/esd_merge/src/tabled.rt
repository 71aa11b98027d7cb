//! The constants, texts and entries that a module brings to a program.
ghost use Rattle.std.specs.Prelude.{◌≡◌, ◌+◌, ◌++◌, ◌∷◌, [], map, fold, OnOk, IfOk, IfSome};
ghost use Rattle.std.specs.Option.{option_map_or};
ghost use Rattle.std.specs.HashMap.{get};
ghost use Rattle.le_bytes.specs.Names.{name_eq};
ghost use Rattle.sym_mod.specs.declared.program.Target.TheVariants.{Section as InSection};
ghost use Rattle.esd_index.specs.Contents.{now_of};
ghost use Rattle.esd_lists.specs.Looked.{IsNumbered};
ghost use Rattle.esd_lists.specs.Listed.{pushed};
ghost use Rattle.esd_merge.specs.Meant.{home_at};
ghost use Rattle.esd_merge.specs.Tabled.{homes_of, target_at, targets_of, home_in, means_in, term_in, constant_in, start_in, text_in};

use crate::bringing::{Standing, home, kept_means, name_means, register_number};
use esd_index::Index;
use esd_lists::{Meanings, push_some};
use le_bytes::Items;
use std::alloc::{AllocError, Global};
use sym_mod::{
    Constant, Frag, StartAt, SymConst, SymEntry, SymTarget, SymTerm, Target, Term, Terms, Text,
};

/// What the items of a module are in a program: for each the number of the section in which it is
/// kept, and what a target means that names it. Names are looked up once for each item, and not for
/// each constant.
///
/// Mostly the sections of modules that follow one another have numbers that do, and so have those to
/// which they refer: each is looked for first behind the one before it.
#[derive(Drop)]
pub(crate) struct ItemTable {
    homes: Vec<Option<u32>>,
    targets: Vec<Target>,
    likely_home: usize,
    likely_target: usize,
}

/// The number behind a section; of no section the number that was likely before.
fn behind(section: Option<u32>, before: usize) -> usize
    ensures { result ≡ option_map_or (λ n. n + 1) section before }
{
    match section {
        Some(section) => section as usize + 1,
        None => before,
    }
}

/// The number of the section that is meant, if it is one.
fn section_meant(target: &Target) -> Option<u32>
    ensures { IfSome result (λ n. target.now ≡ InSection n) }
{
    match target {
        Target::Section(section) => Some(*section),
        _ => None,
    }
}

impl ItemTable {
    /// Of no items. Takes no memory.
    pub(crate) fn new(alloc: Global) -> ItemTable {
        ItemTable {
            homes: Vec::new(alloc),
            targets: Vec::new(alloc),
            likely_home: 0,
            likely_target: 0,
        }
    }

    /// Makes it the table of a module's items.
    pub(crate) fn fill(
        &mut self,
        index: &Index,
        meanings: &Meanings,
        at: &Standing<'_>,
    ) -> Result<(), AllocError>
        requires { IsNumbered (now_of index.now) }
        ensures homes { OnOk result (self.new.homes.items ≡ homes_of (now_of index.now) at.now.number at.now.segment at.now.items.now at.now.kept.now) }
        ensures targets { OnOk result (self.new.targets.items ≡ targets_of (now_of index.now) (get name_eq meanings.now.labels) (get name_eq meanings.now.unknowns) at.now.number at.now.items.now) }
    {
        self.homes.clear();
        self.targets.clear();
        for number in 0..at.items.len() {
            self.add(index, meanings, at, number)?;
        }
        Ok(())
    }

    fn add(
        &mut self,
        index: &Index,
        meanings: &Meanings,
        at: &Standing<'_>,
        number: usize,
    ) -> Result<(), AllocError>
        requires { IsNumbered (now_of index.now) }
        ensures homes { OnOk result (self.new.homes.items ≡ self.old.homes.items ++ home_at (now_of index.now) at.now.number at.now.segment at.now.items.now at.now.kept.now number ∷ []) }
        ensures targets { OnOk result (self.new.targets.items ≡ self.old.targets.items ++ target_at (now_of index.now) (get name_eq meanings.now.labels) (get name_eq meanings.now.unknowns) at.now.number at.now.items.now number ∷ []) }
    {
        let home = home(index, at, number, self.likely_home);
        let target = kept_means(index, meanings, at, number, home, self.likely_target);
        self.likely_home = behind(home, self.likely_home);
        self.likely_target = behind(section_meant(&target), self.likely_target);
        self.homes.push(home)?;
        self.targets.push(target)?;
        Ok(())
    }

    /// The number of the section in which an item is kept.
    fn home(&self, item: u32) -> Option<u32>
        ensures { result ≡ home_in self.now.homes.items item }
    {
        match self.homes.get(item as usize) {
            Some(home) => *home,
            None => None,
        }
    }

    #[tactic(auto, unfolding(crate::specs::Tabled::means_in))]
    fn means(&self, index: &Index, meanings: &Meanings, target: SymTarget) -> Target
        requires { IsNumbered (now_of index.now) }
        ensures { result ≡ means_in (now_of index.now) (get name_eq meanings.now.labels) (get name_eq meanings.now.unknowns) self.now.targets.items target }
    {
        match target {
            SymTarget::Own(number) => match self.targets.get(number as usize) {
                Some(target) => *target,
                None => Target::Total,
            },
            SymTarget::Named(name) => name_means(index, meanings, name, self.likely_target),
            SymTarget::Register(name) => Target::Register(register_number(index, name)),
            SymTarget::Total => Target::Total,
        }
    }

    fn terms(
        &self,
        alloc: Global,
        index: &Index,
        meanings: &Meanings,
        terms: &[SymTerm],
    ) -> Result<Terms<Term>, AllocError>
        requires { IsNumbered (now_of index.now) }
        ensures { IfOk result (λ list. list ≡ map (term_in (now_of index.now) (get name_eq meanings.now.labels) (get name_eq meanings.now.unknowns) self.now.targets.items) terms.now) }
    {
        let mut list = Terms::new(alloc);
        for t in terms {
            list.push(Term {
                minus: t.minus,
                target: self.means(index, meanings, t.target),
                base: t.base,
            })?;
        }
        Ok(list)
    }

    #[tactic(auto, unfolding(crate::specs::Tabled::constant_in))]
    fn constant(
        &self,
        alloc: Global,
        index: &Index,
        meanings: &Meanings,
        x: &SymConst,
    ) -> Result<Option<Constant>, AllocError>
        requires { IsNumbered (now_of index.now) }
        ensures { IfOk result (λ constant. constant ≡ constant_in (now_of index.now) (get name_eq meanings.now.labels) (get name_eq meanings.now.unknowns) self.now.homes.items self.now.targets.items x.now) }
    {
        let Some(section) = self.home(x.item) else {
            return Ok(None);
        };
        let terms = self.terms(alloc, index, meanings, x.terms.as_slice())?;
        Ok(Some(Constant {
            section,
            offset: x.offset,
            length: x.length,
            kind: x.kind,
            terms,
        }))
    }

    /// Adds the constants of the module.
    pub(crate) fn add_constants(
        &self,
        alloc: Global,
        list: &mut Items<Constant>,
        index: &Index,
        meanings: &Meanings,
        constants: &[SymConst],
    ) -> Result<(), AllocError>
        requires { IsNumbered (now_of index.now) }
        ensures { OnOk result (list.new ≡ fold (λ xs x. pushed xs (constant_in (now_of index.now) (get name_eq meanings.now.labels) (get name_eq meanings.now.unknowns) self.now.homes.items self.now.targets.items x)) list.old constants.now) }
    {
        for x in constants {
            let constant = self.constant(alloc, index, meanings, x)?;
            push_some(list, constant)?;
        }
        Ok(())
    }

    /// The place at which the module asks to be entered.
    #[tactic(auto, unfolding(crate::specs::Tabled::start_in))]
    pub(crate) fn start(&self, entry: SymEntry) -> Option<StartAt>
        ensures { result ≡ start_in self.now.homes.items entry }
    {
        match entry {
            SymEntry::None => None,
            SymEntry::At(item, offset) => match self.home(item) {
                Some(section) => Some(StartAt::At(section, offset)),
                None => None,
            },
            SymEntry::Named(name) => Some(StartAt::Named(name)),
        }
    }

    #[tactic(auto, unfolding(crate::specs::Tabled::text_in))]
    fn text(&self, f: Frag) -> Option<Text>
        ensures { result ≡ text_in self.now.homes.items f }
    {
        match self.home(f.item) {
            Some(section) => Some(Text {
                section,
                offset: f.offset,
                bytes: f.bytes,
            }),
            None => None,
        }
    }

    /// Adds the text of the module. The bytes are not copied.
    pub(crate) fn add_texts(
        &self,
        list: &mut Items<Text>,
        fragments: Vec<Frag>,
    ) -> Result<(), AllocError>
        ensures { OnOk result (list.new ≡ fold (λ xs f. pushed xs (text_in self.now.homes.items f)) list.old fragments.items) }
    {
        for f in fragments {
            push_some(list, self.text(f))?;
        }
        Ok(())
    }
}
