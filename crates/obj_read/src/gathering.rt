//! One card after others: its fault, or the facts with what it says.
ghost use Rattle.std.specs.Prelude.{◌≡◌, ◌+◌, ◌<◌, ◌≤◌, ◌^◌, ◌++◌, ◌∷◌, [], length, IfOk, Ok, OnOk};
ghost use Rattle.obj_cards.specs.declared.card.Card.TheVariants as Card;
ghost use Rattle.obj_cards.specs.Cards.{as_card, card_of};
ghost use Rattle.obj_cards.specs.End.{IsEndCard};
ghost use Rattle.obj_cards.specs.Esd.{esd_card};
ghost use Rattle.obj_cards.specs.Rld.{rld_card};
ghost use Rattle.obj_cards.specs.Txt.{txt_card};
ghost use Rattle.obj_read.specs.Facts.{numbered};
ghost use Rattle.obj_read.specs.Faults.{item_fault, items_fault, term_fault, terms_fault, text_fault};
ghost use Rattle.obj_read.specs.Kept.{StaysKept};
ghost use Rattle.obj_read.specs.Steps.{Adds, Steps, step_of, stepped};

use crate::dictionary::Dictionary;
use crate::ending::fault_at_end;
use crate::facts::Facts;
use crate::fault::Wrong;
use crate::judging::{item_fault, term_fault, text_fault};
use crate::kinds::is_label;
use crate::numbered::Numbered;
use crate::terms::Terms;
use le_bytes::CardWhat;
use obj_cards::{
    CardKind, CardRld, EndCard, EndStart, EsdCard, EsdItem, RldCard, TxtCard, kind_of_card,
    read_end, read_esd, read_rld, read_txt,
};

/// What a card makes of the facts of the cards before it: the facts with the card, and where the
/// program begins if the card ends the deck. Its items have their lengths then. Contracts speak of
/// it; the code changes the facts in their place.
#[derive(Drop)]
pub struct Step {
    pub facts: Facts,
    pub start: Option<EndStart>,
}

/// Adds a card to the facts of those before it, and answers where the program begins if the card
/// ends the deck.
///
/// # Errors
/// The fault of the card, or want of memory. The facts are of no use then.
pub fn read_step(facts: &mut Facts, bytes: &[u8; 80]) -> Result<Option<EndStart>, Wrong>
    ensures exact { Steps (step_of facts.old (card_of bytes.now)) (stepped facts.new result) }
    ensures kept { IfOk (stepped facts.new result) (StaysKept facts.old) }
    ensures few { OnOk result (length facts.new.items ≤ length facts.old.items + 3) }
{
    match kind_of_card(bytes) {
        Some(CardKind::Esd) => esd_step(facts, bytes),
        Some(CardKind::Txt) => txt_step(facts, bytes),
        Some(CardKind::Rld) => rld_step(facts, bytes),
        Some(CardKind::End) => end_step(facts, &read_end(bytes)),
        Some(CardKind::Sym) => Ok(None),
        Some(CardKind::Statement | CardKind::Comment) => Err(Wrong::Card(CardWhat::NoEnd)),
        None => Err(Wrong::Card(CardWhat::UnknownCard)),
    }
}

fn esd_step(facts: &mut Facts, bytes: &[u8; 80]) -> Result<Option<EndStart>, Wrong>
    ensures exact { Steps (step_of facts.old (as_card Card.Esd (esd_card bytes.now))) (stepped facts.new result) }
    ensures kept { IfOk (stepped facts.new result) (StaysKept facts.old) }
    ensures few { OnOk result (length facts.new.items ≤ length facts.old.items + 3) }
{
    let mut card = EsdCard::UNUSED;
    read_esd(bytes, &mut card)?;
    add_items(
        &mut facts.items,
        card.esdid,
        &card.items[..usize::from(card.count)],
    )?;
    Ok(None)
}

fn txt_step(facts: &mut Facts, bytes: &[u8; 80]) -> Result<Option<EndStart>, Wrong>
    ensures exact { Steps (step_of facts.old (as_card Card.Txt (txt_card bytes.now))) (stepped facts.new result) }
    ensures kept { IfOk (stepped facts.new result) (StaysKept facts.old) }
    ensures few { OnOk result (length facts.new.items ≡ length facts.old.items) }
{
    let mut card = TxtCard::UNUSED;
    read_txt(bytes, &mut card)?;
    add_text(facts, &card)?;
    Ok(None)
}

fn rld_step(facts: &mut Facts, bytes: &[u8; 80]) -> Result<Option<EndStart>, Wrong>
    ensures exact { Steps (step_of facts.old (as_card Card.Rld (rld_card bytes.now))) (stepped facts.new result) }
    ensures kept { IfOk (stepped facts.new result) (StaysKept facts.old) }
    ensures few { OnOk result (length facts.new.items ≡ length facts.old.items) }
{
    let mut card = RldCard::UNUSED;
    read_rld(bytes, &mut card)?;
    add_terms(
        &facts.items,
        &mut facts.terms,
        &card.items[..usize::from(card.count)],
    )?;
    Ok(None)
}

/// Adds the items of an ESD card, numbered from its ESDID on.
fn add_items(items: &mut Dictionary, esdid: u32, more: &[EsdItem]) -> Result<(), Wrong>
    requires few { length more.now ≤ 3 }
    requires esdid { esdid < 2 ^ 16 }
    ensures exact { Adds (items_fault items.old (numbered esdid more.now)) (items.old ++ numbered esdid more.now) items.new result }
    ensures few { OnOk result (length items.new ≡ length items.old + length more.now) }
{
    let mut next = esdid;
    for item in more {
        if is_label(item.kind) {
            add_item(
                items,
                Numbered {
                    esdid: 0,
                    item: *item,
                },
            )?;
        } else {
            add_item(
                items,
                Numbered {
                    esdid: next,
                    item: *item,
                },
            )?;
            next += 1;
        }
    }
    Ok(())
}

fn add_item(items: &mut Dictionary, x: Numbered) -> Result<(), Wrong>
    ensures { Adds (item_fault items.old x) (items.old ++ x ∷ []) items.new result }
{
    match item_fault(items, &x) {
        Some(what) => Err(Wrong::Card(what)),
        None => Ok(items.push(x)?),
    }
}

fn add_text(facts: &mut Facts, t: &TxtCard) -> Result<(), Wrong>
    ensures { Adds (text_fault facts.old.items t.now) (record facts.old { texts = facts.old.texts ++ t.now ∷ [] }) facts.new result }
{
    match text_fault(&facts.items, t) {
        Some(what) => Err(Wrong::Card(what)),
        None => Ok(facts.texts.push(*t)?),
    }
}

/// Adds the terms of an RLD card.
fn add_terms(items: &Dictionary, terms: &mut Terms, more: &[CardRld]) -> Result<(), Wrong>
    ensures { Adds (terms_fault items.now terms.old more.now) (terms.old ++ more.now) terms.new result }
{
    for term in more {
        match add_term(items, terms, term) {
            Ok(()) => {}
            Err(wrong) => return Err(wrong),
        }
    }
    Ok(())
}

fn add_term(items: &Dictionary, terms: &mut Terms, term: &CardRld) -> Result<(), Wrong>
    ensures { Adds (term_fault items.now terms.old term.now) (terms.old ++ term.now ∷ []) terms.new result }
{
    match term_fault(items, terms, term) {
        Some(what) => Err(Wrong::Card(what)),
        None => Ok(terms.push(*term)?),
    }
}

/// Adds the END card: the items get their lengths first.
fn end_step(facts: &mut Facts, end: &EndCard) -> Result<Option<EndStart>, Wrong>
    requires { IsEndCard end.now }
    ensures exact { Steps (step_of facts.old (Ok (Card.End end.now))) (stepped facts.new result) }
    ensures kept { IfOk (stepped facts.new result) (StaysKept facts.old) }
    ensures few { OnOk result (length facts.new.items ≡ length facts.old.items) }
{
    if let Some(length) = end.length {
        facts.items.give_length(length);
    }
    match fault_at_end(facts, &end.start) {
        Some(what) => Err(Wrong::Card(what)),
        None => Ok(Some(end.start)),
    }
}
