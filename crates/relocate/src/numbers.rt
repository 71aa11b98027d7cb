//! The number of a constant's field.
ghost use Rattle.std.specs.Prelude.{◌≡◌, ◌+◌, ◌%◌, ◌^◌, ◌<◌, ◌≤◌, length, sum_by};
ghost use Rattle.byteorder.specs.Endian.{big_number, big_bytes};
ghost use Rattle.linking_model.specs.Linked.{difference};
ghost use Rattle.relocate.specs.Patched.{shift_of, only_to, HasTerms, patched};

use byteorder::{BigEndian, ByteOrder};
use le_bytes::modulus;
use sym_mod::Kind;

/// How far what a term refers to has moved: from the address that it was assembled at to its
/// address now. With `minus` the term is subtracted.
#[derive(Clone, Copy, Debug, PartialEq, Eq)]
pub struct Shift {
    pub minus: bool,
    pub from: u32,
    pub to: u32,
}

/// Makes the number in a field that of the constant: an address becomes its number and the signed
/// sum of the moves, and any other constant the new address of its only term. Numbers are big-endian
/// and modulo 256 to the power of the field's length. Linear in the terms.
pub fn patch(field: &mut [u8], kind: Kind, terms: &[Shift])
    requires some { 1 ≤ length field.old }
    requires most { length field.old ≤ 4 }
    requires terms { HasTerms kind terms.now }
    ensures { field.new ≡ big_bytes (length field.old) (patched (length field.old) kind terms.now (big_number (length field.old) field.old)) }
{
    let length = field.len();
    let stored = BigEndian::read_uint(field, length);
    let number = patched(stored, length, kind, terms);
    BigEndian::write_uint(field, number, length);
}

/// The number of a field of `length` bytes in which `stored` stood.
#[tactic(auto, unfolding(crate::specs::Patched::patched))]
fn patched(stored: u64, length: usize, kind: Kind, terms: &[Shift]) -> u64
    requires some { 1 ≤ length }
    requires most { length ≤ 4 }
    requires terms { HasTerms kind terms.now }
    ensures value { result ≡ patched length kind terms.now stored }
    ensures fits { result < 256 ^ length }
{
    let modulus = modulus(length);
    match kind {
        Kind::Address => shifted_all(stored, modulus, terms),
        _ => only_to(terms) as u64 % modulus,
    }
}

/// The number and what the terms add, modulo `modulus`.
fn shifted_all(stored: u64, modulus: u64, terms: &[Shift]) -> u64
    requires some { 0 < modulus }
    requires few { modulus ≤ 2 ^ 32 }
    ensures value { result ≡ (stored + sum_by (shift_of modulus) terms.now) % modulus }
    ensures fits { result < modulus }
{
    let mut number = stored % modulus;
    for shift in terms {
        number = shifted(number, modulus, *shift);
    }
    number
}

/// The number and what one term adds, modulo `modulus`.
pub(crate) fn shifted(number: u64, modulus: u64, shift: Shift) -> u64
    requires some { 0 < modulus }
    requires few { modulus ≤ 2 ^ 32 }
    requires fits { number < modulus }
    ensures value { result ≡ (number + shift_of modulus shift) % modulus }
    ensures fits { result < modulus }
{
    let added = if shift.minus {
        difference(modulus, shift.from, shift.to)
    } else {
        difference(modulus, shift.to, shift.from)
    };
    (number + added) % modulus
}

/// `to` minus `from`, modulo `modulus`.
fn difference(modulus: u64, to: u32, from: u32) -> u64
    requires some { 0 < modulus }
    requires few { modulus ≤ 2 ^ 32 }
    ensures value { result ≡ difference modulus to from }
    ensures few { result < 2 ^ 33 }
{
    to as u64 + (modulus - from as u64 % modulus)
}

/// The new address of the first term.
fn only_to(terms: &[Shift]) -> u32
    ensures { result ≡ only_to terms.now }
{
    match terms {
        [shift, ..] => shift.to,
        [] => 0,
    }
}
