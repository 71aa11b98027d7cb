//! Reading the symbol, scatter, translation and note items of a record.
ghost use Rattle.std.specs.Prelude.{◌≡◌, ◌+◌, ◌*◌, ◌≤◌, false, Some, length, slice_get};
ghost use Rattle.load_recs.specs.ItemBytes.{SpellsSymbol, SpellsNote};
ghost use Rattle.load_recs.specs.Items.{item_at, kind_of, name_of, symbol_of, symbols_of, is_alignment, is_wrong_symbol, has_wrong_symbol, scatter_of, scatters_of, translation_of, translations_of, note_of, notes_of};

use crate::items::{NoteItem, SymbolItem, SymbolKind};
use le_bytes::{Name, num16, num24};

const SYMBOL_SIZE: usize = 16;

const SCATTER_SIZE: usize = 4;

const TRANSLATION_SIZE: usize = 2;

const NOTE_SIZE: usize = 12;

/// Symbol item `k`, from 0, of a record's symbol items. What a kind does not have is told as it
/// stands, but for the name of private code, which is blank, and byte 13 of a label.
#[tactic(auto, using(crate::proofs::ItemLists::value_listed))]
pub fn symbol_item(b: &[u8], k: u32) -> SymbolItem
    requires { 16 * k + 16 ≤ length b.now }
    ensures value { result ≡ symbol_of (item_at 16 k b.now) }
    ensures listed { slice_get (symbols_of b.now) k ≡ Some result }
    ensures spelled { is_wrong_symbol (item_at 16 k b.now) ≡ false → SpellsSymbol (item_at 16 k b.now) result }
{
    symbol(item(b, SYMBOL_SIZE, k as usize))
}

/// The address in scatter item `k`, from 0, of a record's scatter items.
#[tactic(auto, using(crate::proofs::ItemLists::value_listed))]
pub fn scatter_item(b: &[u8], k: u32) -> u32
    requires { 4 * k + 4 ≤ length b.now }
    ensures value { result ≡ scatter_of (item_at 4 k b.now) }
    ensures listed { slice_get (scatters_of b.now) k ≡ Some result }
{
    num24(item(b, SCATTER_SIZE, k as usize), 1)
}

/// The number in translation item `k`, from 0, of a record's translation items.
#[tactic(auto, using(crate::proofs::ItemLists::value_listed))]
pub fn translation_item(b: &[u8], k: u32) -> u32
    requires { 2 * k + 2 ≤ length b.now }
    ensures value { result ≡ translation_of (item_at 2 k b.now) }
    ensures listed { slice_get (translations_of b.now) k ≡ Some result }
{
    num16(item(b, TRANSLATION_SIZE, k as usize), 0)
}

/// Note item `k`, from 0, of a record's note items.
#[tactic(auto, using(crate::proofs::ItemLists::value_listed))]
pub fn note_item(b: &[u8], k: u32) -> NoteItem
    requires { 12 * k + 12 ≤ length b.now }
    ensures value { result ≡ note_of (item_at 12 k b.now) }
    ensures listed { slice_get (notes_of b.now) k ≡ Some result }
    ensures spelled { SpellsNote (item_at 12 k b.now) result }
{
    note(item(b, NOTE_SIZE, k as usize))
}

/// Item `k`, from 0, of items of `size` bytes each.
fn item(bytes: &[u8], size: usize, k: usize) -> &[u8]
    requires { size * k + size ≤ length bytes.now }
    ensures { result.now ≡ item_at size k bytes.now }
{
    let at = size * k;
    &bytes[at..at + size]
}

fn note(item: &[u8]) -> NoteItem
    requires { length item.now ≡ 12 }
    ensures value { result ≡ note_of item.now }
    ensures spelled { SpellsNote item.now result }
{
    note_fields(item)
}

fn note_fields(item: &[u8]) -> NoteItem
    requires { length item.now ≡ 12 }
    ensures { result ≡ note_of item.now }
{
    NoteItem {
        first: num24(item, 0),
        origin: num24(item, 4),
        length: num24(item, 8),
    }
}

fn symbol_kind(byte: u8) -> Option<SymbolKind>
    ensures { result ≡ kind_of byte }
{
    match byte {
        0x00 => Some(SymbolKind::Sd),
        0x02 => Some(SymbolKind::Er),
        0x03 => Some(SymbolKind::Lr),
        0x04 => Some(SymbolKind::Pc),
        0x05 => Some(SymbolKind::Cm),
        0x06 => Some(SymbolKind::Pr),
        0x07 => Some(SymbolKind::Null),
        0x0A => Some(SymbolKind::Wx),
        _ => None,
    }
}

fn name(item: &[u8]) -> Name
    requires { length item.now ≡ 16 }
    ensures { result ≡ name_of item.now }
{
    let mut characters = [0; 8];
    characters.copy_from_slice(&item[..8]);
    Name(characters)
}

fn symbol(item: &[u8]) -> SymbolItem
    requires { length item.now ≡ 16 }
    ensures value { result ≡ symbol_of item.now }
    ensures spelled { is_wrong_symbol item.now ≡ false → SpellsSymbol item.now result }
{
    symbol_fields(item)
}

fn symbol_fields(item: &[u8]) -> SymbolItem
    requires { length item.now ≡ 16 }
    ensures { result ≡ symbol_of item.now }
{
    let kind = symbol_kind(item[8]).unwrap_or(SymbolKind::Null);
    let name = match kind {
        SymbolKind::Pc => Name::BLANK,
        _ => name(item),
    };
    let length = match kind {
        SymbolKind::Lr => num16(item, 14),
        _ => num24(item, 13),
    };
    SymbolItem {
        name,
        kind,
        address: num24(item, 9),
        segment: item[12],
        length,
    }
}

fn is_alignment(byte: u8) -> bool
    ensures { result ≡ is_alignment byte }
{
    matches!(byte, 0 | 1 | 3 | 7)
}

fn is_wrong_symbol(item: &[u8]) -> bool
    requires { length item.now ≡ 16 }
    ensures { result ≡ is_wrong_symbol item.now }
{
    match symbol_kind(item[8]) {
        None => true,
        Some(SymbolKind::Pr) => !is_alignment(item[12]),
        Some(SymbolKind::Er | SymbolKind::Lr | SymbolKind::Wx) => name(item).is_blank(),
        Some(_) => false,
    }
}

/// Whether one of the symbol items is of no known type, or asks for another alignment or for a name.
pub fn has_wrong_symbol(items: &[u8]) -> bool
    ensures { result ≡ has_wrong_symbol items.now }
{
    for k in 0..items.len() / SYMBOL_SIZE {
        if is_wrong_symbol(item(items, SYMBOL_SIZE, k)) {
            return true;
        }
    }
    false
}
