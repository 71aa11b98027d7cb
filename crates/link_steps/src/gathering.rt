//! What a load module gathers, and what each step does to it.
ghost use Rattle.std.specs.Prelude.{◌≡◌, ◌<◌, IfOk};
ghost use Rattle.sym_mod.specs.Sound.{IsSoundModule};
ghost use Rattle.link_steps.specs.Gathered.{brought, merged_in, included_one};
ghost use Rattle.link_steps.specs.Answers.{Steps, IsEditStop, begun};

use crate::stop::StepStop;
use crate::waiting::WaitingEdits;
use autocall::CallRules;
use esd_merge::{MergeFault, Merged};
use le_bytes::{CardWhat, Counted, Items, Memory, Name, Refusal, SymbolWhat};
use seg_tree::SegTree;
use std::alloc::Global;
use sym_edit::{EditFault, apply_edits};
use sym_mod::SymModule;

/// The greatest number of sets and members that INCLUDE statements bring into one load module.
const MOST_INCLUDES: u32 = 4096;

/// What the cards of a load module have brought so far.
#[derive(Drop)]
pub struct Gathering {
    /// The modules, each with the segment that was current at its card.
    pub merged: Merged,
    /// The segments that OVERLAY statements began. The newest is the current one.
    pub tree: SegTree,
    /// The names of INSERT statements, each with the segment that was current.
    pub inserts: Items<(Name, u8)>,
    /// The names of ALIAS statements.
    pub aliases: Items<Name>,
    /// The name of the first ENTRY statement.
    pub entry: Option<Name>,
    /// REPLACE and CHANGE, for the next module.
    pub edits: WaitingEdits,
    /// How many sets and members INCLUDE statements brought.
    pub includes: u32,
    /// From where names are called.
    pub rules: CallRules,
    /// A module or a statement came.
    pub came: bool,
}

impl Gathering {
    /// A load module of which nothing came, with the rules of calls that hold for it.
    ///
    /// # Errors
    /// Out of memory.
    pub fn begin(alloc: Global, rules: CallRules) -> Result<Gathering, Memory>
        ensures { IfOk result (λ s. s ≡ begun rules) }
    {
        Ok(Gathering {
            merged: Merged::new(alloc),
            tree: SegTree::root(alloc)?,
            inserts: Items::new(alloc),
            aliases: Items::new(alloc),
            entry: None,
            edits: WaitingEdits::new(alloc),
            includes: 0,
            rules,
            came: false,
        })
    }

    /// A set or member is entered.
    ///
    /// # Errors
    /// Limit(Includes, 4097) where 4,096 were entered.
    pub fn enter(&mut self) -> Result<(), StepStop>
        ensures { Steps (included_one self.old) result self.new }
    {
        if self.includes >= MOST_INCLUDES {
            let number = u64::from(MOST_INCLUDES) + 1;
            return Err(StepStop::Refused(Refusal::Limit(Counted::Includes, number)));
        }
        self.includes += 1;
        Ok(())
    }

    /// A module comes: the edits that wait are applied to it, and it is merged in the current segment.
    ///
    /// # Errors
    /// The first edit that does not apply, at its own card; a name with two meanings; too many symbols.
    /// Out of memory.
    #[tactic(auto, unfolding(crate::specs::Gathered::brought))]
    pub fn bring(&mut self, alloc: Global, m: SymModule) -> Result<(), StepStop>
        requires sound { IsSoundModule m }
        ensures { Steps (brought self.old m) result self.new }
    {
        let mut module = m;
        let edits = self.edits.edits(alloc)?;
        if let Err(fault) = apply_edits(alloc, &mut module, &edits) {
            return Err(self.edit_refused(fault));
        }
        self.edits = WaitingEdits::new(alloc);
        let segment = self.tree.current();
        self.merge(alloc, module, segment)
    }

    /// Why an edit does not apply, at its own card.
    fn edit_refused(&self, fault: EditFault) -> StepStop
        ensures { IsEditStop self.now.edits fault result }
    {
        let (place, what) = match fault {
            EditFault::NotThere(place, name) => (place, CardWhat::EditNotThere(name)),
            EditFault::Clash(place, name) => (place, CardWhat::EditClash(name)),
            EditFault::Memory => return StepStop::Memory,
        };
        StepStop::Refused(Refusal::Card(self.edits.spot(place), what))
    }

    /// Merges a module in a segment.
    ///
    /// # Errors
    /// A name with two meanings; too many symbols. Out of memory.
    #[tactic(auto, unfolding(crate::specs::Gathered::merged_in))]
    pub fn merge(&mut self, alloc: Global, m: SymModule, segment: u8) -> Result<(), StepStop>
        requires sound { IsSoundModule m }
        requires numbered { 0 < segment }
        ensures { Steps (merged_in self.old m segment) result self.new }
    {
        match self.merged.add(alloc, m, segment) {
            Ok(()) => Ok(()),
            Err(MergeFault::DoubleDefinition(name)) => Err(StepStop::Refused(Refusal::Symbol(
                name,
                SymbolWhat::DoubleDefinition,
            ))),
            Err(MergeFault::TooManySymbols(n)) => {
                Err(StepStop::Refused(Refusal::Limit(Counted::Symbols, n)))
            }
            Err(MergeFault::Memory) => Err(StepStop::Memory),
        }
    }
}
