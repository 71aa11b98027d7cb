//! The constants of a program, each with its number.
ghost use Rattle.std.specs.Prelude.{◌≡◌, ◌+◌, ◌%◌, ◌^◌, ◌<◌, ◌≤◌, length, map, sum_by, All};
ghost use Rattle.byteorder.specs.Endian.{big_number, big_bytes};
ghost use Rattle.sym_mod.specs.Sound.{IsSoundConstant};
ghost use Rattle.linking_model.specs.Linked.{address_of, signed_difference};
ghost use Rattle.linking_model.specs.Tables.{only_target};
ghost use Rattle.text_store.specs.Content.{LieInContent, AreWritable, StayWritable, with_bytes};
ghost use Rattle.relocate.specs.Ready.{AreSmall, FitTogether, laid};
ghost use Rattle.relocate.specs.Relocated.{placed_at, number_over, new_field, field_of, relocated};

use crate::addresses::{address_of, displacement_at, segment_of_section};
use crate::branches::branch_address;
use crate::numbers::{Shift, shifted};
use crate::writing::write;
use byteorder::{BigEndian, ByteOrder};
use le_bytes::modulus;
use seg_tree::SegTree;
use sym_mod::{Constant, Kind, Places, Program, Tables, Target, Term};
use text_store::TextKeeper;

/// Gives every constant its number at these addresses: an address constant the number that stands in
/// it and what its terms add, a branch constant the address of its symbol or of its entry, and the
/// others the displacement of their register or the total. All other bytes stay. Takes no memory.
/// Linear in the terms; a call that goes by an entry takes as many looks as its path has segments.
pub fn relocate_all<K: TextKeeper>(
    kept: &mut K,
    p: &Program,
    a: &Places,
    tree: &SegTree,
    t: &Tables,
)
    requires fit { FitTogether (laid p.now tree.now t.now) a.now }
    requires lengths { map length (K.content kept.old) ≡ map (λ x. x.length) p.now.sections }
    requires writable { All (λ c. AreWritable (K.writable kept.old) c.section c.offset c.length) p.now.constants }
    ensures content { K.content kept.new ≡ relocated (laid p.now tree.now t.now) a.now (K.content kept.old) }
    ensures writable { StayWritable (K.writable kept.old) (K.writable kept.new) }
{
    for constant in p.constants.as_slice() {
        relocate(kept, constant, p, a, tree, t);
    }
}

/// Gives one constant its number.
fn relocate<K: TextKeeper>(
    kept: &mut K,
    c: &Constant,
    p: &Program,
    a: &Places,
    tree: &SegTree,
    t: &Tables,
)
    requires fit { FitTogether (laid p.now tree.now t.now) a.now }
    requires sound { IsSoundConstant p.now c.now }
    requires near { c.now.offset + c.now.length < 2 ^ 32 }
    requires inside { LieInContent (K.content kept.old) c.now.section c.now.offset c.now.length }
    requires writable { AreWritable (K.writable kept.old) c.now.section c.now.offset c.now.length }
    ensures content { K.content kept.new ≡ with_bytes (K.content kept.old) c.now.section c.now.offset
        (new_field (laid p.now tree.now t.now) a.now c.now (field_of (K.content kept.old) c.now)) }
    ensures writable { StayWritable (K.writable kept.old) (K.writable kept.new) }
{
    let mut bytes = [0u8; 4];
    let field = &mut bytes[..c.length as usize];
    kept.read(c.section, c.offset, field);
    fill(field, c, p, a, tree, t);
    write(kept, c.section, c.offset, field);
}

/// Makes the bytes of a constant those of its number.
#[tactic(auto, unfolding(crate::specs::Relocated::new_field))]
fn fill(field: &mut [u8], c: &Constant, p: &Program, a: &Places, tree: &SegTree, t: &Tables)
    requires fit { FitTogether (laid p.now tree.now t.now) a.now }
    requires sound { IsSoundConstant p.now c.now }
    requires whole { length field.old ≡ c.now.length }
    ensures { field.new ≡ new_field (laid p.now tree.now t.now) a.now c.now field.old }
{
    let length = c.length as usize;
    let stored = BigEndian::read_uint(field, length);
    let number = number(stored, c, p, a, tree, t);
    BigEndian::write_uint(field, number, length);
}

/// The number of a constant in which `stored` stands.
fn number(stored: u64, c: &Constant, p: &Program, a: &Places, tree: &SegTree, t: &Tables) -> u64
    requires fit { FitTogether (laid p.now tree.now t.now) a.now }
    requires sound { IsSoundConstant p.now c.now }
    ensures value { result ≡ number_over (laid p.now tree.now t.now) a.now c.now c.now.kind stored % 256 ^ c.now.length }
    ensures fits { result < 256 ^ c.now.length }
{
    let modulus = modulus(c.length as usize);
    match c.kind {
        Kind::Address => summed(stored, modulus, c.terms.as_slice(), p, a),
        Kind::Branch => {
            let segment = segment_of_section(p, c.section);
            let target = only_target(c.terms.as_slice());
            branch_address(p, a, tree, t, segment, target) as u64 % modulus
        }
        Kind::Displacement => displacement_at(a, only_target(c.terms.as_slice())) as u64 % modulus,
        Kind::Total => a.total as u64 % modulus,
    }
}

/// The number and what the terms add, modulo `modulus`.
fn summed(stored: u64, modulus: u64, terms: &[Term], p: &Program, a: &Places) -> u64
    requires some { 0 < modulus }
    requires few { modulus ≤ 2 ^ 32 }
    requires small { AreSmall p.now a.now }
    ensures value { result ≡ (stored + sum_by (λ t. signed_difference modulus t.minus (address_of p.now (placed_at a.now) t.target) t.base) terms.now) % modulus }
    ensures fits { result < modulus }
{
    let mut number = stored % modulus;
    for term in terms {
        number = shifted(number, modulus, shift_of(term, p, a));
    }
    number
}

/// How far what a term refers to has moved.
fn shift_of(term: &Term, p: &Program, a: &Places) -> Shift
    requires { AreSmall p.now a.now }
    ensures { result ≡ record { minus = term.now.minus; from = term.now.base; to = address_of p.now (placed_at a.now) term.now.target } }
{
    Shift {
        minus: term.minus,
        from: term.base,
        to: address_of(p, a, term.target),
    }
}

/// What the first of the terms refers to.
fn only_target(terms: &[Term]) -> Target
    ensures { result ≡ only_target terms.now }
{
    match terms {
        [term, ..] => term.target,
        [] => Target::Total,
    }
}
