//! A module enters an index, or leaves it as it was.
ghost use Rattle.std.specs.Prelude.{◌≡◌, OnErr};
ghost use Rattle.esd_index.specs.Contents.{now_of, marked_of};
ghost use Rattle.esd_index.specs.Modules.{noted_module};
ghost use Rattle.esd_merge.specs.Entered.{Enters};

use crate::fault::MergeFault;
use esd_index::{Flags, Index, Stop};
use std::alloc::Global;
use sym_mod::SymModule;

/// How many names, private sections and registers may appear, so that with the tables of an overlay
/// program a member numbers at most 32,767 symbols (this project's profile).
const MOST_SYMBOLS: u64 = 32_511;

fn note(
    index: &mut Index,
    alloc: Global,
    number: usize,
    segment: u8,
    m: &SymModule,
) -> Result<Flags, MergeFault>
    ensures enters { Enters m.now (now_of index.old) (noted_module number segment m.now (now_of index.old)) result (now_of index.new) }
    ensures marked { marked_of index.new ≡ marked_of index.old }
{
    match index.note_module(alloc, number, segment, m) {
        Ok(kept) => {
            let count = index.count();
            if count > MOST_SYMBOLS {
                return Err(MergeFault::TooManySymbols(count));
            }
            Ok(kept)
        }
        Err(Stop::Clash(name)) => Err(MergeFault::DoubleDefinition(name)),
        Err(Stop::Memory) => Err(MergeFault::Memory),
    }
}

/// Notes a module in an index that was marked. After a fault the index says what it said at the mark.
pub(crate) fn enter(
    index: &mut Index,
    alloc: Global,
    number: usize,
    segment: u8,
    m: &SymModule,
) -> Result<Flags, MergeFault>
    ensures enters { Enters m.now (now_of index.old) (noted_module number segment m.now (now_of index.old)) result (now_of index.new) }
    ensures marked { marked_of index.new ≡ marked_of index.old }
    ensures back { OnErr result (now_of index.new ≡ marked_of index.old) }
{
    match note(index, alloc, number, segment, m) {
        Ok(kept) => Ok(kept),
        Err(fault) => {
            index.go_back();
            Err(fault)
        }
    }
}
