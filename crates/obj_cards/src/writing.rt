//! Writing a card.
ghost use Rattle.std.specs.Prelude.{◌≡◌, Ok};
ghost use Rattle.obj_cards.specs.Cards.{IsCard, card_of, spelling};

use crate::card::Card;
use crate::end::write_end;
use crate::esd::write_esd;
use crate::layout::{ASTERISK, SYM, blank_head, padded_card};
use crate::rld::write_rld;
use crate::txt::write_txt;

/// The 80 columns of a card whose fields are in their ranges. Columns that its kind does not use are
/// blank, columns 73 to 80 of an object card among them. A statement stands as it is, and a comment is
/// an asterisk and blanks.
#[tactic(auto, unfolding(crate::specs::Cards::spelling, crate::specs::Cards::card_of))]
pub fn write_card(c: &Card) -> [u8; 80]
    requires { IsCard c.now }
    ensures spelled { result ≡ spelling c.now }
    // What is written is read as the same card.
    ensures read_back { card_of result ≡ Ok c.now }
{
    match c {
        Card::Esd(e) => write_esd(e),
        Card::Txt(t) => write_txt(t),
        Card::Rld(r) => write_rld(r),
        Card::End(e) => write_end(e),
        Card::Sym => padded_card(&blank_head(SYM), &[]),
        Card::Statement(text) => *text,
        Card::Comment => padded_card(&[ASTERISK], &[]),
    }
}
