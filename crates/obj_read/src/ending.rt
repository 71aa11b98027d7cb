//! What may be wrong with an END card in view of the cards before it, where the items have their lengths.
ghost use Rattle.std.specs.Prelude.{◌≡◌};
ghost use Rattle.std.specs.List.{list_any};
ghost use Rattle.obj_read.specs.Faults.{start_fault, label_fault, labels_fault, is_text_outside, is_term_outside};
ghost use Rattle.obj_read.specs.Steps.{fault_at_end};

use crate::dictionary::Dictionary;
use crate::facts::Facts;
use crate::flags::length_of;
use crate::judging::{lie_in, section};
use crate::kinds::is_label;
use le_bytes::CardWhat;
use obj_cards::{CardRld, EndStart, EsdItem, TxtCard};

/// The entry, then the labels, then the text and the constants.
pub fn fault_at_end(facts: &Facts, start: &EndStart) -> Option<CardWhat>
    ensures { result ≡ fault_at_end facts.now.items facts.now.texts facts.now.terms start.now }
{
    let items = &facts.items;
    if let Some(what) = start_fault(items, start) {
        return Some(what);
    }
    if let Some(what) = labels_fault(items) {
        return Some(what);
    }
    if is_any_text_outside(items, facts.texts.as_slice()) {
        Some(CardWhat::TextOutside)
    } else if is_any_term_outside(items, facts.terms.as_slice()) {
        Some(CardWhat::ConstantOutside)
    } else {
        None
    }
}

fn start_fault(items: &Dictionary, start: &EndStart) -> Option<CardWhat>
    ensures { result ≡ start_fault items.now start.now }
{
    match start {
        EndStart::At(address, esdid) => match section(items, *esdid) {
            None => Some(CardWhat::UnknownEsdid),
            Some(x) => {
                if lie_in(&x, *address, 0) {
                    None
                } else {
                    Some(CardWhat::EntryOutside)
                }
            }
        },
        _ => None,
    }
}

fn labels_fault(items: &Dictionary) -> Option<CardWhat>
    ensures { result ≡ labels_fault items.now items.now }
{
    for x in items.items() {
        if is_label(x.item.kind) {
            if let Some(what) = label_fault(items, &x.item) {
                return Some(what);
            }
        }
    }
    None
}

fn label_fault(items: &Dictionary, label: &EsdItem) -> Option<CardWhat>
    ensures { result ≡ label_fault items.now label.now }
{
    match section(items, label.length) {
        None => Some(CardWhat::UnknownEsdid),
        Some(x) => {
            if lie_in(&x, label.address, 0) {
                None
            } else {
                Some(CardWhat::LabelOutside)
            }
        }
    }
}

fn is_text_outside(items: &Dictionary, t: &TxtCard) -> bool
    ensures { result ≡ is_text_outside items.now t.now }
{
    match section(items, t.esdid) {
        Some(x) => !lie_in(&x, t.address, t.count),
        None => false,
    }
}

fn is_term_outside(items: &Dictionary, f: &CardRld) -> bool
    ensures { result ≡ is_term_outside items.now f.now }
{
    match section(items, f.p) {
        Some(x) => !lie_in(&x, f.address, length_of(f)),
        None => false,
    }
}

fn is_any_text_outside(items: &Dictionary, texts: &[TxtCard]) -> bool
    ensures { result ≡ list_any (is_text_outside items.now) texts.now }
{
    texts.iter().any(|t| is_text_outside(items, t))
}

fn is_any_term_outside(items: &Dictionary, terms: &[CardRld]) -> bool
    ensures { result ≡ list_any (is_term_outside items.now) terms.now }
{
    terms.iter().any(|f| is_term_outside(items, f))
}
