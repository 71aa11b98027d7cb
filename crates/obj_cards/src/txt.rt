//! TXT cards.
ghost use Rattle.std.specs.Prelude.{◌≡◌, ◌≤◌, Ok, length, replicate, take, IfOk};
ghost use Rattle.obj_cards.specs.Columns.{card_with, filled};
ghost use Rattle.obj_cards.specs.Faults.{filled_card};
ghost use Rattle.obj_cards.specs.Txt.{IsTxtCard, txt_card, txt_text, unused_txt_card};

use crate::card::TxtCard;
use crate::fault::CardFault;
use crate::layout::{TXT, blank_head, padded_card, place};
use le_bytes::{num16, num24, put16, put24};

/// Reads a TXT card into a card that is not in use. The kind of the card is the caller's to know:
/// columns 1 to 4 are not looked at.
///
/// # Errors
/// BadCount: the byte count is above 56. The card is of no use then.
#[tactic(auto, unfolding(crate::specs::Txt::txt_card))]
pub fn read_txt(c: &[u8; 80], card: &mut TxtCard) -> Result<(), CardFault>
    requires unused { card.old ≡ unused_txt_card }
    ensures exact { filled_card card.new result ≡ txt_card c.now }
    ensures in_range { IfOk (filled_card card.new result) IsTxtCard }
{
    let count = num16(c, 10);
    if count > 56 {
        return Err(CardFault::BadCount);
    }
    card.address = num24(c, 5);
    card.esdid = num16(c, 14);
    card.count = count as u8;
    pad(&mut card.bytes, &c[16..16 + count as usize]);
    Ok(())
}

/// Puts text before zeros.
fn pad(bytes: &mut [u8; 56], text: &[u8])
    requires few { length text.now ≤ 56 }
    requires zeros { bytes.old ≡ replicate 56 0 }
    ensures { bytes.new ≡ filled 56 0 text.now }
{
    place(bytes, 0, text);
}

pub(crate) fn write_txt(t: &TxtCard) -> [u8; 80]
    requires { IsTxtCard t.now }
    ensures spelled { result ≡ card_with (txt_text t.now) }
    ensures read_back { txt_card result ≡ Ok t.now }
{
    let mut head = blank_head(TXT);
    put24(&mut head, 5, t.address);
    put16(&mut head, 10, u32::from(t.count));
    put16(&mut head, 14, t.esdid);
    padded_card(&head, text(t))
}

/// The bytes in use.
fn text(t: &TxtCard) -> &[u8]
    requires { t.now.count ≤ 56 }
    ensures value { result.now ≡ take t.now.count t.now.bytes }
    ensures len { length result.now ≡ t.now.count }
{
    &t.bytes[..t.count as usize]
}
