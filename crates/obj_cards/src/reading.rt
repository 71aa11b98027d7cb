//! Reading a card.
ghost use Rattle.std.specs.Prelude.{◌≡◌, IfOk};
ghost use Rattle.obj_cards.specs.declared.card.Card.TheVariants.{Esd, Rld, Txt};
ghost use Rattle.obj_cards.specs.Cards.{IsCard, as_card, card_of};
ghost use Rattle.obj_cards.specs.Esd.{esd_card};
ghost use Rattle.obj_cards.specs.Rld.{rld_card};
ghost use Rattle.obj_cards.specs.Txt.{txt_card};

use crate::card::{Card, EsdCard, RldCard, TxtCard};
use crate::end::read_end;
use crate::esd::read_esd;
use crate::fault::CardFault;
use crate::kind::{CardKind, kind_of_card};
use crate::rld::read_rld;
use crate::txt::read_txt;

/// What 80 columns say. Column 1 tells the three groups of cards apart: X'02' stands in object cards, a
/// blank in control statements, and `*` in comments. A card that is blank from column 1 to 71 says
/// nothing and counts as a comment, whatever stands from column 72 on.
///
/// Of several faults the first from the left is given:
/// - UnknownCard: column 1 or the type in columns 2 to 4 is none of those.
/// - BadCount: the byte count is not 16, 32 or 48 on an ESD card, or is above 56 on a TXT or RLD card,
///   or ends inside an RLD item.
/// - BadEsdType: an ESD item has an unknown type, a pseudo-register an alignment other than 1, 2, 4 or
///   8 bytes, or a label or reference a name of blanks.
/// - BadFlag: an RLD flag has bits without a meaning, or the last item shares its pointers with one that
///   is not there.
pub fn read_card(c: &[u8; 80]) -> Result<Card, CardFault>
    ensures exact { result ≡ card_of c.now }
    // What is read can be written, so each field is in its range.
    ensures in_range { IfOk result IsCard }
{
    match kind_of_card(c) {
        Some(CardKind::Esd) => esd(c),
        Some(CardKind::Txt) => txt(c),
        Some(CardKind::Rld) => rld(c),
        Some(CardKind::End) => Ok(Card::End(read_end(c))),
        Some(CardKind::Sym) => Ok(Card::Sym),
        Some(CardKind::Statement) => Ok(Card::Statement(*c)),
        Some(CardKind::Comment) => Ok(Card::Comment),
        None => Err(CardFault::UnknownCard),
    }
}

fn esd(c: &[u8; 80]) -> Result<Card, CardFault>
    ensures exact { result ≡ as_card Esd (esd_card c.now) }
    ensures in_range { IfOk result IsCard }
{
    let mut card = EsdCard::UNUSED;
    match read_esd(c, &mut card) {
        Ok(()) => Ok(Card::Esd(card)),
        Err(fault) => Err(fault),
    }
}

fn txt(c: &[u8; 80]) -> Result<Card, CardFault>
    ensures exact { result ≡ as_card Txt (txt_card c.now) }
    ensures in_range { IfOk result IsCard }
{
    let mut card = TxtCard::UNUSED;
    match read_txt(c, &mut card) {
        Ok(()) => Ok(Card::Txt(card)),
        Err(fault) => Err(fault),
    }
}

fn rld(c: &[u8; 80]) -> Result<Card, CardFault>
    ensures exact { result ≡ as_card Rld (rld_card c.now) }
    ensures in_range { IfOk result IsCard }
{
    let mut card = RldCard::UNUSED;
    match read_rld(c, &mut card) {
        Ok(()) => Ok(Card::Rld(card)),
        Err(fault) => Err(fault),
    }
}
