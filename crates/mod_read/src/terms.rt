//! What a relocation item adds to a constant.
ghost use Rattle.std.specs.Prelude.{◌≡◌, false, Some};
ghost use Rattle.member_model.specs.Symbols.{field_kind};
ghost use Rattle.member_model.specs.ReadBack.{kind_of_field, reference, term_for, term_of};

use crate::numbering::Numbering;
use load_recs::{RldItem, SymbolItem};
use sym_mod::{Kind, SymTarget, SymTerm};

/// The kind of the constant of an item.
pub(crate) fn kind_of(x: &RldItem) -> Kind
    ensures { result ≡ kind_of_field (field_kind x.now) }
{
    match x.field_kind() {
        0 => Kind::Address,
        1 => Kind::Branch,
        2 => Kind::Displacement,
        _ => Kind::Total,
    }
}

/// What an item adds: its symbol, or the total of the registers.
pub(crate) fn term_of(numbering: &Numbering, x: &RldItem) -> SymTerm
    ensures { result ≡ term_of numbering.now x.now }
{
    match numbering.at(x.r) {
        Some(symbol) => term_for(numbering, x, &symbol),
        None => added(SymTarget::Total),
    }
}

/// What an item adds that has this symbol.
fn term_for(numbering: &Numbering, x: &RldItem, symbol: &SymbolItem) -> SymTerm
    ensures { result ≡ term_for numbering.now x.now (kind_of_field (field_kind x.now)) (Some symbol.now) }
{
    match kind_of(x) {
        Kind::Address | Kind::Branch => reference(numbering, x, symbol),
        Kind::Displacement => added(SymTarget::Register(symbol.name)),
        Kind::Total => added(SymTarget::Total),
    }
}

/// A target that is added, and has no address yet.
fn added(target: SymTarget) -> SymTerm
    ensures { result ≡ record { minus = false; target = target; base = 0 } }
{
    SymTerm {
        minus: false,
        target,
        base: 0,
    }
}

/// What an address or a call refers to: an item that is kept and defined, or a name.
fn reference(numbering: &Numbering, x: &RldItem, symbol: &SymbolItem) -> SymTerm
    ensures { result ≡ reference numbering.now x.now symbol.now }
{
    let (target, base) = if symbol.kind.is_outside() {
        (SymTarget::Named(symbol.name), 0)
    } else if numbering.is_gone(symbol) {
        (SymTarget::Named(symbol.name), symbol.address)
    } else {
        (SymTarget::Own(numbering.number(x.r)), symbol.address)
    };
    SymTerm {
        minus: x.is_minus(),
        target,
        base,
    }
}
