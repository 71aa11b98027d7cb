//! Texts and sections, judged against the symbol items of the member.
ghost use Rattle.std.specs.Prelude.{◌≡◌};
ghost use Rattle.member_model.specs.Symbols.{symbol_at};
ghost use Rattle.member_model.specs.Faults.{text_section, text_fault, lies_in};
ghost use Rattle.member_checks.specs.Segments.{symbols_in};

use crate::symbols::end_of;
use le_bytes::RecWhat;
use load_recs::{SymbolItem, TextHead};

/// Item `n`, from 1.
pub fn symbol_at(symbols: &[SymbolItem], n: u32) -> Option<SymbolItem>
    ensures { result ≡ symbol_at symbols.now n }
{
    if n == 0 {
        return None;
    }
    symbols.get(n as usize - 1).copied()
}

/// Item `n`, where it is a section of this segment that has text.
pub fn text_section(symbols: &[SymbolItem], segment: u32, n: u32) -> Option<SymbolItem>
    ensures { result ≡ text_section (symbols_in symbols.now segment) n }
{
    let section = symbol_at(symbols, n)?;
    if section.kind.has_text() && u32::from(section.segment) == segment {
        Some(section)
    } else {
        None
    }
}

/// Whether `length` bytes from the address on lie in the section, if there is one.
pub fn lies_in(section: Option<SymbolItem>, address: u32, length: u32) -> bool
    ensures { result ≡ lies_in section address length }
{
    match section {
        Some(x) => x.address <= address && u64::from(address) + u64::from(length) <= end_of(&x),
        None => false,
    }
}

/// What is wrong with what a record of this segment tells of its text: `TextOutside` where it does not
/// lie in a section of the segment that has text.
pub fn text_fault(symbols: &[SymbolItem], segment: u32, text: &TextHead) -> Option<RecWhat>
    ensures { result ≡ text_fault (symbols_in symbols.now segment) text.now }
{
    let section = text_section(symbols, segment, text.section);
    if lies_in(section, text.address, text.length) {
        None
    } else {
        Some(RecWhat::TextOutside)
    }
}
