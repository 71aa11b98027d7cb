//! What kind of card 80 columns are.
ghost use Rattle.std.specs.Prelude.{◌≡◌, ◌≢◌, Ok, Some, slice_index};
ghost use Rattle.obj_cards.specs.declared.kind.CardKind.TheVariants.{Statement};
ghost use Rattle.obj_cards.specs.Columns.{columns};
ghost use Rattle.obj_cards.specs.Cards.{IsStatement, card_of, card_of_kind, object_card, statement_card};

use crate::layout::{ASTERISK, BLANK, END, ESD, OBJECT, RLD, SYM, TXT, is_all_blank};

/// The kinds of cards.
#[derive(Clone, Copy, Debug, PartialEq, Eq)]
pub enum CardKind {
    /// External symbols.
    Esd,
    /// Text.
    Txt,
    /// Address constants.
    Rld,
    /// The end of an object module.
    End,
    /// Symbols for testing.
    Sym,
    /// A card of a control statement.
    Statement,
    /// A comment.
    Comment,
}

/// The kind of a card, by column 1 and the type in columns 2 to 4, or None where there is no such
/// kind. A card of the kind may still have a fault.
#[tactic(auto, unfolding(crate::specs::Cards::card_of))]
pub fn kind_of_card(c: &[u8; 80]) -> Option<CardKind>
    ensures card { card_of c.now ≡ card_of_kind result c.now }
    ensures statement { result ≡ Some Statement → IsStatement c.now }
{
    match c[0] {
        OBJECT => object(c),
        BLANK => Some(blank(c)),
        ASTERISK => Some(CardKind::Comment),
        _ => None,
    }
}

/// The kind of a card that begins with a blank.
fn blank(c: &[u8; 80]) -> CardKind
    requires { slice_index c.now 0 ≡ 64 }
    ensures card { card_of_kind (Some result) c.now ≡ Ok (statement_card c.now) }
    ensures statement { result ≡ Statement → IsStatement c.now }
{
    if is_all_blank(&c[..71]) {
        CardKind::Comment
    } else {
        CardKind::Statement
    }
}

/// The kind of a card with X'02' in column 1.
fn object(c: &[u8; 80]) -> Option<CardKind>
    ensures card { object_card (columns 2 4 c.now) c.now ≡ card_of_kind result c.now }
    ensures object { result ≢ Some Statement }
{
    let kind = &c[1..4];
    if kind == ESD.as_slice() {
        Some(CardKind::Esd)
    } else if kind == TXT.as_slice() {
        Some(CardKind::Txt)
    } else if kind == RLD.as_slice() {
        Some(CardKind::Rld)
    } else if kind == END.as_slice() {
        Some(CardKind::End)
    } else if kind == SYM.as_slice() {
        Some(CardKind::Sym)
    } else {
        None
    }
}
