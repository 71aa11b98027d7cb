//! What each statement does to what a load module gathers.
ghost use Rattle.std.specs.Prelude.{◌≡◌, ◌++◌, map, OnOk};
ghost use Rattle.link_steps.specs.Gathered.{said, with_aliases, with_segment, current};
ghost use Rattle.link_steps.specs.Answers.{Steps};
ghost use Rattle.link_steps.specs.Named.{HasNamedEdits};

use crate::gathering::Gathering;
use crate::stop::StepStop;
use ctl_cards::Statement;
use le_bytes::{CardWhat, Counted, Items, Memory, Name, Refusal, Spot};
use seg_tree::TreeFault;
use std::alloc::Global;

/// The greatest number of names of the ALIAS statements of one load module.
const MOST_ALIASES: usize = 16;

impl Gathering {
    /// A statement, by its first card. INCLUDE and NAME change nothing here.
    ///
    /// # Errors
    /// TooMany at an ALIAS statement that passes 16 names; of OVERLAY RegionNameUsed at its card, a
    /// fifth region, or a 256th segment. Out of memory.
    #[tactic(auto, unfolding(crate::specs::Gathered::said))]
    pub fn say(&mut self, alloc: Global, at: Spot, statement: &Statement) -> Result<(), StepStop>
        requires named { HasNamedEdits statement.now }
        ensures { Steps (said self.old at statement.now) result self.new }
    {
        match statement {
            Statement::Include(_) | Statement::NameOf(_, _) => Ok(()),
            Statement::Library(items) => Ok(self.rules.library(alloc, items.as_slice())?),
            Statement::Replace(items) => Ok(self.edits.push_replaced(at, items.as_slice())?),
            Statement::Change(items) => Ok(self.edits.push_changed(at, items.as_slice())?),
            Statement::Entry(name) => {
                self.entry = self.entry.or(Some(*name));
                Ok(())
            }
            Statement::Alias(names) => self.say_aliases(at, names.as_slice()),
            Statement::Insert(names) => Ok(self.say_inserts(names.as_slice())?),
            Statement::Overlay(name, region) => self.say_overlay(alloc, at, name, *region),
        }
    }

    fn say_aliases(&mut self, at: Spot, names: &[Name]) -> Result<(), StepStop>
        ensures { Steps (with_aliases self.old at names.now) result self.new }
    {
        if self.aliases.len().saturating_add(names.len()) > MOST_ALIASES {
            return Err(StepStop::Refused(Refusal::Card(at, CardWhat::TooMany)));
        }
        Ok(push_names(&mut self.aliases, names)?)
    }

    fn say_inserts(&mut self, names: &[Name]) -> Result<(), Memory>
        ensures { OnOk result (self.new ≡ record self.old { inserts = self.old.inserts ++ map (λ n. (n, current self.old)) names.now }) }
    {
        let segment = self.tree.current();
        push_inserts(&mut self.inserts, names, segment)
    }

    fn say_overlay(
        &mut self,
        alloc: Global,
        at: Spot,
        name: &Name,
        region: bool,
    ) -> Result<(), StepStop>
        ensures { Steps (with_segment self.old at name.now region) result self.new }
    {
        let refusal = match self.tree.overlay(alloc, name, region) {
            Ok(_) => return Ok(()),
            Err(TreeFault::Memory) => return Err(StepStop::Memory),
            Err(TreeFault::RegionNameUsed(name)) => {
                Refusal::Card(at, CardWhat::RegionNameUsed(name))
            }
            Err(TreeFault::TooManyRegions(n)) => Refusal::Limit(Counted::Regions, n),
            Err(TreeFault::TooManySegments(n)) => Refusal::Limit(Counted::Segments, n),
        };
        Err(StepStop::Refused(refusal))
    }
}

/// Puts names at the end of a list.
fn push_names(list: &mut Items<Name>, names: &[Name]) -> Result<(), Memory>
    ensures { OnOk result (list.new ≡ list.old ++ names.now) }
{
    for name in names {
        list.push(*name)?;
    }
    Ok(())
}

/// Puts names with a segment at the end of a list.
fn push_inserts(list: &mut Items<(Name, u8)>, names: &[Name], segment: u8) -> Result<(), Memory>
    ensures { OnOk result (list.new ≡ list.old ++ map (λ n. (n, segment)) names.now) }
{
    for name in names {
        list.push((*name, segment))?;
    }
    Ok(())
}
