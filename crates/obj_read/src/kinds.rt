//! What an item of the external symbol dictionary is, by its kind.
ghost use Rattle.std.specs.Prelude.{◌≡◌};
ghost use Rattle.obj_read.specs.Facts.{is_label, has_text, is_register, is_referable};

use obj_cards::EsdKind;

pub fn is_label(kind: EsdKind) -> bool
    ensures { result ≡ is_label kind }
{
    kind == EsdKind::Ld
}

/// Whether it is a control section, which may have text and constants.
pub fn has_text(kind: EsdKind) -> bool
    ensures { result ≡ has_text kind }
{
    matches!(kind, EsdKind::Sd | EsdKind::Pc)
}

pub fn is_register(kind: EsdKind) -> bool
    ensures { result ≡ is_register kind }
{
    kind == EsdKind::Pr
}

/// Whether an address constant may refer to it.
pub fn is_referable(kind: EsdKind) -> bool
    ensures { result ≡ is_referable kind }
{
    !is_label(kind) && !is_register(kind)
}
