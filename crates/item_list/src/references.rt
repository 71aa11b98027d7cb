//! The rows of the cross-reference of a module.
ghost use Rattle.std.specs.Prelude.{◌≡◌, ◌++◌, map, filter, IfOk, OnOk};
ghost use Rattle.item_list.specs.References.{name_at, target_at, defined_at, stands_in_table, is_constant, reference_row, reference_rows};
ghost use Rattle.member_model.specs.Symbols.{address_in_module};

use crate::symbols::{is_table, printed_name, symbol_at};
use le_bytes::{Memory, Name};
use list_text::RefRow;
use load_recs::{RldItem, SymbolItem};
use std::alloc::Global;

/// The rows of a cross-reference, from the relocation items of a module's sections in their order: one for
/// each A-type or V-type item that does not stand in a table of overlay. Linear in the number of items.
///
/// # Errors
/// Out of memory.
pub fn reference_rows(
    alloc: Global,
    symbols: &[SymbolItem],
    items: &[RldItem],
) -> Result<Vec<RefRow>, Memory>
    ensures { IfOk result (λ rows. rows.items ≡ reference_rows symbols.now items.now) }
{
    let mut rows = Vec::new(alloc);
    push_reference_rows(&mut rows, symbols, items)?;
    Ok(rows)
}

/// Puts the rows for relocation items, as of one section, at the end of `rows`. After out of memory some of
/// them may stand there.
///
/// # Errors
/// Out of memory.
#[tactic(auto, unfolding(crate::specs::References::reference_rows))]
pub fn push_reference_rows(
    rows: &mut Vec<RefRow>,
    symbols: &[SymbolItem],
    items: &[RldItem],
) -> Result<(), Memory>
    ensures { OnOk result (rows.new.items ≡ rows.old.items ++ reference_rows symbols.now items.now) }
{
    for x in items {
        if is_constant(symbols, x) {
            rows.push(reference_row(symbols, x))?;
        }
    }
    Ok(())
}

/// Whether the item is a term of an A-type or V-type constant of a section.
fn is_constant(symbols: &[SymbolItem], x: &RldItem) -> bool
    ensures { result ≡ is_constant symbols.now x.now }
{
    x.is_address_kind() && !stands_in_table(symbols, x.p)
}

fn stands_in_table(symbols: &[SymbolItem], n: u32) -> bool
    ensures { result ≡ stands_in_table symbols.now n }
{
    match symbol_at(symbols, n) {
        Some(section) => is_table(section),
        None => false,
    }
}

fn reference_row(symbols: &[SymbolItem], x: &RldItem) -> RefRow
    ensures { result ≡ reference_row symbols.now x.now }
{
    RefRow {
        section: name_at(symbols, x.p),
        offset: x.address.saturating_sub(place_at(symbols, x.p)),
        branch: x.is_branch(),
        target: name_at(symbols, x.r),
        at: target_at(symbols, x.r),
    }
}

/// The printed name of item `n`.
fn name_at(symbols: &[SymbolItem], n: u32) -> Name
    ensures { result ≡ name_at symbols.now n }
{
    match symbol_at(symbols, n) {
        Some(x) => printed_name(x),
        None => Name::BLANK,
    }
}

/// The address of item `n` in the module.
fn place_at(symbols: &[SymbolItem], n: u32) -> u32
    ensures { result ≡ address_in_module symbols.now n }
{
    match symbol_at(symbols, n) {
        Some(x) => x.address,
        None => 0,
    }
}

/// The address of item `n` in the module; none where it is not defined.
fn target_at(symbols: &[SymbolItem], n: u32) -> Option<u32>
    ensures { result ≡ target_at symbols.now n }
{
    match symbol_at(symbols, n) {
        Some(x) => defined_at(x),
        None => None,
    }
}

fn defined_at(x: &SymbolItem) -> Option<u32>
    ensures { result ≡ defined_at x.now }
{
    if x.kind.is_outside() {
        None
    } else {
        Some(x.address)
    }
}
