//! What may be wrong with an item, a text card or a term in view of the cards before it.
ghost use Rattle.std.specs.Prelude.{◌≡◌};
ghost use Rattle.obj_read.specs.Flags.{kind_of_flag, length_of_flag};
ghost use Rattle.obj_read.specs.Faults.{has_bad_esdid, takes_reserved_name, item_fault, if_text, section_of, lie_in, are_outside_now, text_fault, fits_kind, joins, clashes_at, overlaps, term_fault};

use crate::dictionary::Dictionary;
use crate::flags::{kind_of, length_of};
use crate::kinds::{has_text, is_label, is_referable, is_register};
use crate::numbered::Numbered;
use crate::terms::Terms;
use le_bytes::CardWhat;
use obj_cards::{CardRld, EsdItem, EsdKind, TxtCard};
use sym_mod::{Kind, is_reserved};

/// An item in view of those before it.
pub fn item_fault(before: &Dictionary, x: &Numbered) -> Option<CardWhat>
    ensures { result ≡ item_fault before.now x.now }
{
    if has_bad_esdid(before, x) {
        Some(CardWhat::BadEsdid)
    } else if takes_reserved_name(&x.item) {
        Some(CardWhat::ReservedName)
    } else {
        None
    }
}

fn has_bad_esdid(before: &Dictionary, x: &Numbered) -> bool
    ensures { result ≡ has_bad_esdid before.now x.now }
{
    !is_label(x.item.kind) && (x.esdid == 0 || x.esdid > 65_535 || before.has(x.esdid))
}

fn takes_reserved_name(x: &EsdItem) -> bool
    ensures { result ≡ takes_reserved_name x.now.kind x.now }
{
    match x.kind {
        EsdKind::Sd | EsdKind::Ld | EsdKind::Cm => is_reserved(&x.name),
        _ => false,
    }
}

/// The control section with an ESDID.
pub fn section(items: &Dictionary, esdid: u32) -> Option<EsdItem>
    ensures { result ≡ section_of items.now esdid }
{
    match items.find(esdid) {
        Some(found) => if_text(&found.item),
        None => None,
    }
}

fn if_text(x: &Numbered) -> Option<EsdItem>
    ensures { result ≡ if_text x.now }
{
    if has_text(x.item.kind) {
        Some(x.item)
    } else {
        None
    }
}

/// Whether `n` bytes from an address on lie in the section; none lie at its end too.
pub fn lie_in(x: &EsdItem, address: u32, n: u8) -> bool
    ensures { result ≡ lie_in x.now address n }
{
    x.address <= address
        && u64::from(address) + u64::from(n) <= u64::from(x.address) + u64::from(x.length)
}

/// Whether they lie outside a section that has its length.
fn are_outside_now(x: &EsdItem, address: u32, n: u8) -> bool
    ensures { result ≡ are_outside_now x.now address n }
{
    x.length != 0 && !lie_in(x, address, n)
}

/// A text card in view of the items before it.
pub fn text_fault(items: &Dictionary, t: &TxtCard) -> Option<CardWhat>
    ensures { result ≡ text_fault items.now t.now }
{
    match section(items, t.esdid) {
        None => Some(CardWhat::UnknownEsdid),
        Some(x) => {
            if are_outside_now(&x, t.address, t.count) {
                Some(CardWhat::TextOutside)
            } else {
                None
            }
        }
    }
}

/// A term in view of the items and terms before it.
pub fn term_fault(items: &Dictionary, before: &Terms, f: &CardRld) -> Option<CardWhat>
    ensures { result ≡ term_fault items.now before.now f.now }
{
    match section(items, f.p) {
        None => Some(CardWhat::UnknownEsdid),
        Some(x) => {
            if !fits_kind(items, f) {
                Some(CardWhat::UnknownEsdid)
            } else if are_outside_now(&x, f.address, length_of(f)) {
                Some(CardWhat::ConstantOutside)
            } else if overlaps(before, f) {
                Some(CardWhat::ConstantsOverlap)
            } else {
                None
            }
        }
    }
}

/// Whether what a term of its kind refers to is there.
fn fits_kind(items: &Dictionary, f: &CardRld) -> bool
    ensures { result ≡ fits_kind items.now f.now.r (kind_of_flag f.now.flag) }
{
    match kind_of(f) {
        Kind::Total => true,
        Kind::Displacement => match items.find(f.r) {
            Some(found) => is_register(found.item.item.kind),
            None => false,
        },
        _ => match items.find(f.r) {
            Some(found) => is_referable(found.item.item.kind),
            None => false,
        },
    }
}

/// Whether both are address constants of one place and length.
fn joins(f: &CardRld, g: &CardRld) -> bool
    ensures { result ≡ joins f.now g.now }
{
    f.p == g.p
        && f.address == g.address
        && length_of(f) == length_of(g)
        && kind_of(f) == Kind::Address
        && kind_of(g) == Kind::Address
}

/// Whether a byte of the term's field stands in an earlier field that the term does not join.
fn clashes_at(before: &Terms, f: &CardRld, byte: u64) -> bool
    ensures { result ≡ clashes_at before.now f.now byte }
{
    match before.covering(f.p, byte) {
        Some(g) => !joins(f, &g),
        None => false,
    }
}

#[tactic(auto, using(crate::proofs::Apart::overlaps_none))]
fn overlaps(before: &Terms, f: &CardRld) -> bool
    ensures { result ≡ overlaps before.now f.now }
{
    // Most fields lie apart, and then no byte has to be looked for.
    if before.lie_apart(f) {
        return false;
    }
    let from = u64::from(f.address);
    (from..from + u64::from(length_of(f))).any(|byte| clashes_at(before, f, byte))
}
