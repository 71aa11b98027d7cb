//! The fields of address constants.
ghost use Rattle.std.specs.Prelude.{◌≡◌, ◌+◌, ◌-◌, ◌%◌, ◌^◌, ◌≤◌, ◌<◌, length, if◌then◌else◌};
ghost use Rattle.byteorder.specs.Endian.{big_number, big_bytes};
ghost use Rattle.member_model.specs.Symbols.{is_outside, symbol_at};
ghost use Rattle.member_model.specs.Loaded.{is_shifted};

use byteorder::{BigEndian, ByteOrder};
use le_bytes::modulus;
use load_recs::{RldItem, SymbolItem};

/// Adds a shift to the big-endian number in a field of 1 to 4 bytes, or takes it off, modulo the
/// field's size. The shift is a difference of addresses modulo 2 to the power of 32.
pub fn add_shift(field: &mut [u8], shift: u32, minus: bool)
    requires some { 1 ≤ length field.old }
    requires most { length field.old ≤ 4 }
    ensures { field.new ≡ big_bytes (length field.old) ((big_number (length field.old) field.old + (if minus then 2 ^ 32 - shift else shift)) % 256 ^ length field.old) }
{
    let length = field.len();
    let stored = BigEndian::read_uint(field, length);
    BigEndian::write_uint(
        field,
        shifted(stored, modulus(length), shift, minus),
        length,
    );
}

/// A number and a shift, or less a shift, modulo `modulus`.
#[tactic(auto, using(crate::proofs::Shifting::first_remainder))]
fn shifted(stored: u64, modulus: u64, shift: u32, minus: bool) -> u64
    requires some { 0 < modulus }
    requires few { modulus ≤ 2 ^ 32 }
    ensures value { result ≡ (stored + (if minus then 2 ^ 32 - shift else shift)) % modulus }
    ensures fits { result < modulus }
{
    let added = if minus {
        0x1_0000_0000 - u64::from(shift)
    } else {
        u64::from(shift)
    };
    (stored % modulus + added) % modulus
}

/// Whether an item adds a shift: it is of A-type or V-type, and its symbol is defined.
pub(crate) fn is_shifted(items: &[SymbolItem], item: &RldItem) -> bool
    ensures { result ≡ is_shifted items.now item.now }
{
    item.is_address_kind() && !is_outside(items, item.r)
}

/// Whether item `n`, from 1, is a name that is not defined.
fn is_outside(items: &[SymbolItem], n: u32) -> bool
    ensures { result ≡ is_outside (symbol_at items.now n) }
{
    if n == 0 {
        return false;
    }
    match items.get(n as usize - 1) {
        Some(item) => item.kind.is_outside(),
        None => false,
    }
}
