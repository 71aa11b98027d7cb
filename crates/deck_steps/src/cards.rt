//! A sequential set as cards of 80 bytes.
ghost use Rattle.std.specs.Prelude.{◌≡◌, ◌/◌, length};
ghost use Rattle.deck_steps.specs.Cards.{whole_cards, has_short_card};

/// The cards of a set that are whole.
#[tactic(auto, using(crate::proofs::Chunks::cards_are))]
pub(crate) fn whole_cards(bytes: &[u8]) -> &[[u8; 80]]
    ensures cards { result.now ≡ whole_cards bytes.now }
    ensures number { length result.now ≡ length bytes.now / 80 }
{
    bytes.as_chunks::<80>().0
}

/// Whether a card of fewer than 80 bytes stands at the end of the set.
pub(crate) fn has_short_card(bytes: &[u8]) -> bool
    ensures { result ≡ has_short_card bytes.now }
{
    bytes.len() % 80 != 0
}
