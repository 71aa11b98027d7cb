//! What a card between decks begins.
ghost use Rattle.std.specs.Prelude.{◌≡◌};
ghost use Rattle.obj_cards.specs.Cards.{card_of};
ghost use Rattle.link_steps.specs.Unfolding.{begun_by};

use obj_cards::{Card, read_card};

/// What a card between decks begins.
#[derive(Clone, Copy, Debug, PartialEq, Eq)]
pub enum Beginning {
    /// Nothing: it is a comment.
    Nothing,
    AStatement,
    /// A deck: any other card, a faulty one too.
    ADeck,
}

/// Column 1 of an object card.
const OBJECT: u8 = 0x02;

#[tactic(auto, using(crate::proofs::ObjectCards::object_begins))]
pub fn begun_by(card: &[u8; 80]) -> Beginning
    ensures { result ≡ begun_by (card_of card.now) }
{
    // An object card begins a deck whatever else it says, and its deck reads it.
    if card[0] == OBJECT {
        return Beginning::ADeck;
    }
    match read_card(card) {
        Ok(Card::Comment) => Beginning::Nothing,
        Ok(Card::Statement(_)) => Beginning::AStatement,
        _ => Beginning::ADeck,
    }
}
