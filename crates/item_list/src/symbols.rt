//! What a row takes from a symbol item.
ghost use Rattle.std.specs.Prelude.{◌≡◌, ◌+◌, ◌<◌, ◌^◌};
ghost use Rattle.std.specs.Option.{option_copied};
ghost use Rattle.member_model.specs.Symbols.{printed_name, symbol_at, is_table};
ghost use Rattle.item_list.specs.Maps.{row_kind, section_row, label_row, register_row};

use le_bytes::Name;
use list_text::{MapRow, RowKind};
use load_recs::{SymbolItem, SymbolKind};
use sym_mod::is_reserved;

/// The name under which a symbol is printed: private code and blank common have names of their own.
pub(crate) fn printed_name(x: &SymbolItem) -> Name
    ensures { result ≡ printed_name x.now }
{
    if !x.name.is_blank() {
        x.name
    } else if x.kind.has_text() {
        Name::PRIVATE_CODE
    } else {
        Name::BLANK_COMMON
    }
}

/// Item `n`, from 1.
pub(crate) fn symbol_at(symbols: &[SymbolItem], n: u32) -> Option<&SymbolItem>
    ensures { option_copied result ≡ symbol_at symbols.now n }
{
    if n == 0 {
        None
    } else {
        symbols.get(n as usize - 1)
    }
}

/// Whether the item is a table of overlay.
pub(crate) fn is_table(x: &SymbolItem) -> bool
    ensures { result ≡ is_table x.now }
{
    match x.kind {
        SymbolKind::Sd => is_reserved(&x.name),
        _ => false,
    }
}

/// What a section is in a map: one without a name that has text is private code.
fn row_kind(x: &SymbolItem) -> RowKind
    ensures { result ≡ row_kind x.now }
{
    match x.kind {
        SymbolKind::Cm => RowKind::Cm,
        SymbolKind::Pc => RowKind::Pc,
        _ => {
            if x.name.is_blank() {
                RowKind::Pc
            } else {
                RowKind::Sd
            }
        }
    }
}

/// The row of a section.
pub(crate) fn section_row(x: &SymbolItem, origin: u32) -> MapRow
    requires { origin + x.now.address < 2 ^ 32 }
    ensures { result ≡ section_row origin x.now }
{
    MapRow::Section(
        printed_name(x),
        row_kind(x),
        origin + x.address,
        x.length,
        x.segment,
    )
}

/// The row of a label.
pub(crate) fn label_row(x: &SymbolItem, origin: u32) -> MapRow
    requires { origin + x.now.address < 2 ^ 32 }
    ensures { result ≡ label_row origin x.now }
{
    MapRow::Label(x.name, origin + x.address)
}

/// The row of a register.
pub(crate) fn register_row(x: &SymbolItem) -> MapRow
    ensures { result ≡ register_row x.now }
{
    MapRow::Register(x.name, x.address, x.length)
}
