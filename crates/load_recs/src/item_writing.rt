//! Writing the items of a record.
ghost use Rattle.std.specs.Prelude.{◌≡◌, ◌+◌, ◌++◌, ◌∷◌, true, false, List, ℕ, length, if◌then◌else◌};
ghost use Rattle.load_recs.specs.Items.{symbol_of, note_of, is_wrong_symbol};
ghost use Rattle.load_recs.specs.Relocations.{kept_by, rlds_after};
ghost use Rattle.load_recs.specs.ItemBytes.{kind_byte, symbol_bytes, note_bytes, rld_item_bytes, kept_before, IsSymbol, IsNote, IsRld};

use crate::items::{NoteItem, RldItem, SymbolItem, SymbolKind};
use le_bytes::{put16, put24};

fn kind_byte(kind: SymbolKind) -> u8
    ensures { result ≡ kind_byte kind }
{
    match kind {
        SymbolKind::Sd => 0x00,
        SymbolKind::Er => 0x02,
        SymbolKind::Lr => 0x03,
        SymbolKind::Pc => 0x04,
        SymbolKind::Cm => 0x05,
        SymbolKind::Pr => 0x06,
        SymbolKind::Null => 0x07,
        SymbolKind::Wx => 0x0A,
    }
}

/// Writes a symbol item into the 16 bytes of `out`.
pub fn put_symbol_item(out: &mut [u8], i: &SymbolItem)
    requires size { length out.old ≡ 16 }
    requires fits { IsSymbol i.now }
    ensures bytes { out.new ≡ symbol_bytes i.now }
    ensures read_back { symbol_of out.new ≡ i.now }
    ensures accepted { is_wrong_symbol out.new ≡ false }
{
    spell_symbol(out, i);
}

fn spell_symbol(out: &mut [u8], i: &SymbolItem)
    requires size { length out.old ≡ 16 }
    requires fits { IsSymbol i.now }
    ensures { out.new ≡ symbol_bytes i.now }
{
    let mut item = [0; 16];
    item[8] = kind_byte(i.kind);
    put24(&mut item, 9, i.address);
    item[12] = i.segment;
    put24(&mut item, 13, i.length);
    item[..8].copy_from_slice(&i.name.0);
    out.copy_from_slice(&item);
}

/// Writes a note item into the 12 bytes of `out`.
pub fn put_note_item(out: &mut [u8], i: &NoteItem)
    requires size { length out.old ≡ 12 }
    requires fits { IsNote i.now }
    ensures bytes { out.new ≡ note_bytes i.now }
    ensures read_back { note_of out.new ≡ i.now }
{
    let mut item = [0; 12];
    put24(&mut item, 0, i.first);
    put24(&mut item, 4, i.origin);
    put24(&mut item, 8, i.length);
    out.copy_from_slice(&item);
}

/// Writes a relocation item into `out`, whole into 8 bytes, or where `short` its flag and address alone
/// into 4. The answer is how many bytes that is.
pub fn put_rld_item(out: &mut [u8], i: &RldItem, short: bool) -> usize
    requires size { length out.old ≡ (if short then 4 else 8) }
    requires fits { IsRld i.now }
    ensures count { result ≡ length out.new }
    ensures bytes { out.new ≡ rld_item_bytes short i.now }
    ensures read_back { (rest : List ℕ) → rlds_after (kept_before short i.now) (out.new ++ rest) ≡ i.now ∷ rlds_after (kept_by i.now) rest }
{
    if short {
        put_short(out, i);
        4
    } else {
        put_full(out, i);
        8
    }
}

fn put_short(out: &mut [u8], i: &RldItem)
    requires size { length out.old ≡ 4 }
    requires fits { IsRld i.now }
    ensures { out.new ≡ rld_item_bytes true i.now }
{
    let mut item = [i.flag, 0, 0, 0];
    put24(&mut item, 1, i.address);
    out.copy_from_slice(&item);
}

fn put_full(out: &mut [u8], i: &RldItem)
    requires size { length out.old ≡ 8 }
    requires fits { IsRld i.now }
    ensures { out.new ≡ rld_item_bytes false i.now }
{
    let mut item = [0, 0, 0, 0, i.flag, 0, 0, 0];
    put16(&mut item, 0, i.r);
    put16(&mut item, 2, i.p);
    put24(&mut item, 5, i.address);
    out.copy_from_slice(&item);
}
