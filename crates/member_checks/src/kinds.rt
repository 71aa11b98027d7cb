//! What a relocation item asks of the kind of its symbol.
ghost use Rattle.std.specs.Prelude.{◌≡◌};
ghost use Rattle.member_model.specs.Symbols.{is_register_kind, is_referable_kind};

use load_recs::SymbolKind;

/// Whether the item is a register.
pub(crate) fn is_register_kind(kind: SymbolKind) -> bool
    ensures { result ≡ is_register_kind kind }
{
    matches!(kind, SymbolKind::Pr)
}

/// Whether an address constant may refer to the item.
pub(crate) fn is_referable_kind(kind: SymbolKind) -> bool
    ensures { result ≡ is_referable_kind kind }
{
    !matches!(kind, SymbolKind::Pr | SymbolKind::Null)
}
