//! Relocation items, judged against the symbol items of the member.
ghost use Rattle.std.specs.Prelude.{◌≡◌, ◌&&◌, []};
ghost use Rattle.member_model.specs.Symbols.{is_address_kind, is_marked_outside, is_outside};
ghost use Rattle.member_model.specs.Faults.{differ, field_fault, fits};
ghost use Rattle.member_checks.specs.Segments.{symbols_in};

use crate::kinds::{is_referable_kind, is_register_kind};
use crate::segments::{lies_in, symbol_at, text_section};
use le_bytes::RecWhat;
use load_recs::{RldItem, SymbolItem};

/// What is wrong with a relocation item of this segment, apart from the fields before it: `BadEsdid`
/// where it names no section of the segment that has text, or no symbol of a kind that fits; `BadFlag`
/// where it says wrongly whether its symbol is defined; `ConstantOutside` where its field does not lie
/// in its section; tried in this order.
pub fn item_fault(symbols: &[SymbolItem], segment: u32, x: &RldItem) -> Option<RecWhat>
    ensures { result ≡ field_fault (symbols_in symbols.now segment) [] x.now }
{
    let section = text_section(symbols, segment, x.p);
    let symbol = symbol_at(symbols, x.r);
    if section.is_none() || !fits(x, symbol) {
        return Some(RecWhat::BadEsdid);
    }
    if is_marked_wrongly(x, symbol) {
        return Some(RecWhat::BadFlag);
    }
    if !lies_in(section, x.address, u32::from(x.field_length())) {
        return Some(RecWhat::ConstantOutside);
    }
    None
}

/// Whether the symbol is of a kind that fits the item. That of a total is not looked at.
fn fits(x: &RldItem, symbol: Option<SymbolItem>) -> bool
    ensures { result ≡ fits x.now symbol }
{
    let Some(symbol) = symbol else {
        return x.field_kind() > 2;
    };
    if x.is_address_kind() {
        return is_referable_kind(symbol.kind);
    }
    x.field_kind() > 2 || is_register_kind(symbol.kind)
}

/// Whether the item says of its symbol that it is defined, or is not, and is wrong.
fn is_marked_wrongly(x: &RldItem, symbol: Option<SymbolItem>) -> bool
    ensures { result ≡ (is_address_kind x.now && differ (is_marked_outside x.now) (is_outside symbol)) }
{
    x.is_address_kind() && x.is_marked_outside() != is_outside(symbol)
}

/// Whether there is a symbol, which is not defined.
fn is_outside(symbol: Option<SymbolItem>) -> bool
    ensures { result ≡ is_outside symbol }
{
    match symbol {
        Some(symbol) => symbol.kind.is_outside(),
        None => false,
    }
}
