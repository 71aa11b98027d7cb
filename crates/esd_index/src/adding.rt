//! A module goes in whole.
ghost use Rattle.std.specs.Prelude.{◌≡◌, ◌+◌, ◌<◌, ◌^◌, fold, length, OnOk};
ghost use Rattle.esd_index.specs.Contents.{now_of, marked_of};
ghost use Rattle.esd_index.specs.Steps.{with_constant};
ghost use Rattle.esd_index.specs.Modules.{kept_in_order, noted_module, NotesModule};

use crate::constants::{spots_in_order, stand_in_order};
use crate::flags::Flags;
use crate::index::Index;
use crate::noting::Stop;
use std::alloc::{AllocError, Global};
use sym_mod::SymModule;

impl Index {
    #[tactic(auto, using(crate::proofs::Sorting::fold_spots, crate::proofs::Rising::fold_rising))]
    fn note_kept_constants(
        &mut self,
        alloc: Global,
        m: &SymModule,
        kept: &[bool],
    ) -> Result<(), AllocError>
        ensures noted { OnOk result (now_of self.new ≡ fold (with_constant m.now.items) (now_of self.old) (kept_in_order kept.now m.now.constants)) }
        ensures marked { marked_of self.new ≡ marked_of self.old }
    {
        if stand_in_order(m.constants.as_slice()) {
            return self.note_all_kept(m.items.as_slice(), kept, m.constants.as_slice());
        }
        let spots = spots_in_order(alloc, m.constants.as_slice(), kept)?;
        self.note_constants(m.items.as_slice(), m.constants.as_slice(), spots.as_slice())
    }

    /// Notes a module, and answers for each item whether it is a section that is kept. After a stop
    /// part of the module may be noted; what was marked stays.
    ///
    /// # Errors
    /// Clash exactly where an item gives its name a second meaning, with the name of the first. Want of
    /// memory.
    #[tactic(auto, unfolding(crate::specs::Modules::noted_module), using(crate::proofs::Seeing::seen_first))]
    pub fn note_module(
        &mut self,
        alloc: Global,
        of_module: usize,
        segment: u8,
        m: &SymModule,
    ) -> Result<Flags, Stop>
        ensures notes { NotesModule m.now (now_of self.old) (noted_module of_module segment m.now (now_of self.old)) result (now_of self.new) }
        ensures marked { marked_of self.new ≡ marked_of self.old }
    {
        let kept = self.keep_items(alloc, of_module, segment, m.items.as_slice())?;
        self.note_items(of_module, segment, m.items.as_slice(), kept.as_slice())?;
        self.note_kept_constants(alloc, m, kept.as_slice())?;
        Ok(kept)
    }

    /// How many symbols and registers there are.
    pub fn count(&self) -> u64
        ensures { result ≡ length (now_of self.now).symbols + length (now_of self.now).registers }
    {
        self.table.symbols().len() as u64 + self.registers.len() as u64
    }
}
