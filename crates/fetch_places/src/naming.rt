//! The names under which sections are reported.
ghost use Rattle.std.specs.Prelude.{◌≡◌};
ghost use Rattle.member_model.specs.Symbols.{printed_name};

use le_bytes::Name;
use load_recs::{SymbolItem, SymbolKind};

/// The name under which a section is printed.
pub(crate) fn printed_name(section: &SymbolItem) -> Name
    ensures { result ≡ printed_name section.now }
{
    match (section.name.is_blank(), section.kind) {
        (true, SymbolKind::Sd | SymbolKind::Pc) => Name::PRIVATE_CODE,
        (true, _) => Name::BLANK_COMMON,
        (false, _) => section.name,
    }
}
