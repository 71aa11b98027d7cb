//! The rows of the map of a module.
ghost use Rattle.std.specs.Prelude.{◌≡◌, ◌+◌, ◌<◌, ◌^◌, ◌++◌, [], length, map, filter, flat_map, slice_index_or, All, IfOk, OnOk};
ghost use Rattle.std.specs.List.{enumerate_from};
ghost use Rattle.item_list.specs.Maps.{StandsFrom, is_register, register_row, rows_with, rows_of, map_rows};

use crate::labels::label_lists;
use crate::symbols::{register_row, section_row};
use le_bytes::{Items, Memory};
use list_text::MapRow;
use load_recs::{SymbolItem, SymbolKind};
use std::alloc::Global;

/// The rows of the map of a module that stands in storage from `origin` on: each section in item order, after
/// it its labels in item order, and at the end the registers. Linear in the number of items.
///
/// # Errors
/// Out of memory.
#[tactic(auto, unfolding(crate::specs::Maps::map_rows))]
pub fn map_rows(alloc: Global, symbols: &[SymbolItem], origin: u32) -> Result<Vec<MapRow>, Memory>
    requires { All (StandsFrom origin) symbols.now }
    ensures { IfOk result (λ rows. rows.items ≡ map_rows origin symbols.now) }
{
    let mut rows = section_rows(alloc, symbols, origin)?;
    push_registers(&mut rows, symbols)?;
    Ok(rows)
}

fn section_rows(alloc: Global, symbols: &[SymbolItem], origin: u32) -> Result<Vec<MapRow>, Memory>
    requires { All (StandsFrom origin) symbols.now }
    ensures { IfOk result (λ rows. rows.items ≡ flat_map (rows_of origin symbols.now) (enumerate_from 1 symbols.now)) }
{
    let labels = label_lists(alloc, symbols, origin)?;
    let mut rows = Vec::new(alloc);
    for (k, x) in symbols.iter().enumerate() {
        push_section(&mut rows, x, list_at(&labels, k), origin)?;
    }
    Ok(rows)
}

fn list_at(lists: &Vec<Items<MapRow>>, k: usize) -> &[MapRow]
    ensures { result.now ≡ slice_index_or lists.now.items k [] }
{
    match lists.get(k) {
        Some(list) => list.as_slice(),
        None => &[],
    }
}

/// Puts the row of a section, and those of its labels, at the end of `rows`; nothing for any other item.
fn push_section(
    rows: &mut Vec<MapRow>,
    x: &SymbolItem,
    labels: &[MapRow],
    origin: u32,
) -> Result<(), Memory>
    requires { StandsFrom origin x.now }
    ensures { OnOk result (rows.new.items ≡ rows.old.items ++ rows_with origin x.now labels.now) }
{
    if x.kind.is_section() {
        rows.push(section_row(x, origin))?;
        rows.extend_from_slice(labels)?;
    }
    Ok(())
}

fn push_registers(rows: &mut Vec<MapRow>, symbols: &[SymbolItem]) -> Result<(), Memory>
    ensures { OnOk result (rows.new.items ≡ rows.old.items ++ map register_row (filter is_register symbols.now)) }
{
    for x in symbols {
        if x.kind == SymbolKind::Pr {
            rows.push(register_row(x))?;
        }
    }
    Ok(())
}
