//! The items of a module, noted one after the other.
ghost use Rattle.std.specs.Prelude.{◌≡◌, [], Ok, Err, fold, IfOk};
ghost use Rattle.linking_model.specs.Kept.{sights_in};
ghost use Rattle.esd_index.specs.Contents.{now_of, marked_of};
ghost use Rattle.esd_index.specs.Steps.{kept_flags, with_seen, with_sights};
ghost use Rattle.esd_index.specs.Noted.{Notes};

use crate::flags::Flags;
use crate::index::Index;
use crate::key::Sighted;
use le_bytes::Name;
use std::alloc::{AllocError, AllocFailed, Global};
use sym_mod::Item;

/// Why the items of a module are not noted.
#[derive(Clone, Copy, Debug, PartialEq, Eq)]
pub enum Stop {
    /// The name of the first item that would give it a second meaning.
    Clash(Name),
    /// Want of memory.
    Memory,
}

impl From<AllocError> for Stop {
    ghost use Rattle.std.specs.Prelude.{◌≡◌};
    ghost use Rattle.esd_index.specs.declared.noting.Stop.TheVariants.{Memory};

    ghost from_gives = { λ _ e. e ≡ Memory };

    fn from(_refused: AllocError) -> Stop {
        Stop::Memory
    }
}

impl Index {
    /// For each item whether it is a section that is kept. Notes the symbols of the items, and where each
    /// was found.
    pub(crate) fn keep_items(
        &mut self,
        alloc: Global,
        of_module: usize,
        segment: u8,
        items: &[Item],
    ) -> Result<Flags, AllocError>
        ensures flags { IfOk result (λ kept. kept ≡ kept_flags (now_of self.old).controls items.now) }
        ensures noted { IfOk result (λ _. now_of self.new ≡ fold with_seen (now_of self.old) (sights_in of_module segment 0 items.now)) }
        ensures marked { marked_of self.new ≡ marked_of self.old }
    {
        let mut kept = Flags::with_capacity(alloc, items.len())?;
        self.found.clear();
        for (number, item) in items.iter().enumerate() {
            let x = Sighted {
                of_module,
                number,
                segment,
                item: *item,
            };
            kept.push(self.keep_item(&x)?)?;
        }
        Ok(kept)
    }

    /// Notes the items of a module, where none gives its name a second meaning.
    #[tactic(auto, unfolding(crate::specs::Steps::with_sights))]
    pub(crate) fn note_items(
        &mut self,
        of_module: usize,
        segment: u8,
        items: &[Item],
        kept: &[bool],
    ) -> Result<(), Stop>
        ensures notes { Notes (with_sights kept.now (now_of self.old) (sights_in of_module segment 0 items.now)) result (now_of self.new) }
        ensures marked { marked_of self.new ≡ marked_of self.old }
    {
        for (number, item) in items.iter().enumerate() {
            let x = Sighted {
                of_module,
                number,
                segment,
                item: *item,
            };
            if self.clashes(kept, &x) {
                return Err(Stop::Clash(item.name));
            }
            self.note_item(kept, &x)?;
        }
        Ok(())
    }
}
