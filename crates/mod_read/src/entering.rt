//! Where the module asks to be entered.
ghost use Rattle.std.specs.Prelude.{◌≡◌, []};
ghost use Rattle.member_model.specs.ReadBack.{entry_of};
ghost use Rattle.mod_read.specs.Gathered.{holding};

use crate::numbering::Numbering;
use pds_lib::Entry;
use sym_mod::SymEntry;

/// The entry point of the directory entry, where its section is kept.
pub(crate) fn entry_of(numbering: &Numbering, e: &Entry) -> SymEntry
    ensures { result ≡ entry_of (holding numbering.now [] []) e.now }
{
    let section = u32::from(e.entry_section);
    if numbering.is_kept_at(section) {
        let offset = e.entry.saturating_sub(numbering.address(section));
        SymEntry::At(numbering.number(section), offset)
    } else {
        SymEntry::None
    }
}
