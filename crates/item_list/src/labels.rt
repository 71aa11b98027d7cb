//! The rows of labels, by their sections.
ghost use Rattle.std.specs.Prelude.{◌≡◌, ◌+◌, ◌<◌, ◌≤◌, ◌^◌, [], length, map, replicate, All, IfOk, OnOk};
ghost use Rattle.std.specs.List.{range_with_len};
ghost use Rattle.item_list.specs.Maps.{StandsFrom, label_lists, noted, put_in};

use crate::symbols::label_row;
use le_bytes::{Items, Memory};
use list_text::MapRow;
use load_recs::{SymbolItem, SymbolKind};
use std::alloc::Global;

/// For each symbol item the rows of the labels of that section, in item order.
///
/// # Errors
/// Out of memory.
pub(crate) fn label_lists(
    alloc: Global,
    symbols: &[SymbolItem],
    origin: u32,
) -> Result<Vec<Items<MapRow>>, Memory>
    requires { All (StandsFrom origin) symbols.now }
    ensures { IfOk result (λ lists. lists.items ≡ label_lists origin symbols.now) }
{
    let mut lists = empty_lists(alloc, symbols.len())?;
    for x in symbols {
        note_label(&mut lists, x, origin)?;
    }
    Ok(lists)
}

fn empty_lists(alloc: Global, count: usize) -> Result<Vec<Items<MapRow>>, Memory>
    ensures { IfOk result (λ lists. lists.items ≡ replicate count []) }
{
    let mut lists = Vec::with_capacity(alloc, count)?;
    for _ in 0..count {
        lists.push(Items::new(alloc))?;
    }
    Ok(lists)
}

/// Puts the row of a label at the end of its section's list; nothing for any other item.
#[tactic(auto, unfolding(crate::specs::Maps::noted))]
fn note_label(lists: &mut Vec<Items<MapRow>>, x: &SymbolItem, origin: u32) -> Result<(), Memory>
    requires { StandsFrom origin x.now }
    ensures { OnOk result (lists.new.items ≡ noted origin lists.old.items x.now) }
{
    match x.kind {
        SymbolKind::Lr => put(lists, x.length, label_row(x, origin)),
        _ => Ok(()),
    }
}

/// Puts a row at the end of list `n`, from 1; nothing where there is no such list.
fn put(lists: &mut Vec<Items<MapRow>>, n: u32, row: MapRow) -> Result<(), Memory>
    ensures { OnOk result (lists.new.items ≡ put_in lists.old.items n row) }
{
    if 0 < n && n as usize <= lists.len() {
        lists[n as usize - 1].push(row)?;
    }
    Ok(())
}
