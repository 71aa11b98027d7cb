//! The areas of storage that a member is scattered over.
ghost use Rattle.std.specs.Prelude.{◌≡◌, ◌%◌, ◌<◌, ◌∷◌, length, IfOk, IfSome};
ghost use Rattle.command_words.specs.Lists.{pieces, later_pieces, area_in, is_area_list, one_area, areas_in, IsArea, AreAreas};

use crate::digits::hex_number;
use le_bytes::Memory;
use std::alloc::Global;

/// One area of storage: its first address, and the address after its last.
#[derive(Clone, Copy, Debug, PartialEq, Eq)]
pub struct AreaRange {
    pub from: u32,
    pub to: u32,
}

/// The area that `from-to` gives. None exactly where one of the two is not one to six hexadecimal
/// digits, or `from` is not below `to`.
#[tactic(auto, using(crate::proofs::AreaLemmas::area_known), unfolding(crate::specs::Lists::area_in, crate::specs::Digits::hex_number))]
pub(crate) fn area_in(piece: &str) -> Option<AreaRange>
    ensures value { result ≡ area_in piece.now }
    ensures known { IfSome result IsArea }
{
    let (from, to) = piece.split_once('-')?;
    let from = hex_number(from)?;
    let to = hex_number(to)?;
    if from < to {
        Some(AreaRange { from, to })
    } else {
        None
    }
}

/// Whether a comma list gives areas that ascend and do not meet.
#[tactic(auto, unfolding(crate::specs::Lists::is_area_list))]
pub(crate) fn is_area_list(text: &str) -> bool
    ensures { result ≡ is_area_list text.now }
{
    let mut low = 0;
    let mut rest = Some(text);
    while let Some(text) = rest {
        let (piece, more) = first_piece(text);
        match area_in(piece) {
            Some(area) if low <= area.from => low = area.to,
            _ => return false,
        }
        rest = more;
    }
    true
}

/// The area that a text gives, from a multiple of 8 on. None where it gives no area, or one from another
/// address.
#[tactic(auto, unfolding(crate::specs::Lists::one_area))]
pub(crate) fn one_area(text: &str) -> Option<AreaRange>
    ensures value { result ≡ one_area text.now }
    ensures known { IfSome result IsArea }
    ensures aligned { IfSome result (λ area. area.from % 8 ≡ 0) }
{
    match area_in(text) {
        Some(area) if area.from % 8 == 0 => Some(area),
        _ => None,
    }
}

/// The areas of a comma list, in order. There are none where the list is no list of areas.
#[tactic(auto, unfolding(crate::specs::Lists::areas_in))]
pub(crate) fn areas_in(alloc: Global, text: &str) -> Result<Vec<AreaRange>, Memory>
    ensures value { IfOk result (λ areas. areas.items ≡ areas_in text.now) }
    ensures in_order { IfOk result (λ areas. AreAreas 0 areas.items) }
{
    let mut areas = Vec::new(alloc);
    let mut rest = if is_area_list(text) { Some(text) } else { None };
    while let Some(text) = rest {
        let (piece, more) = first_piece(text);
        if let Some(area) = area_in(piece) {
            areas.push(area)?;
        }
        rest = more;
    }
    Ok(areas)
}

/// What stands before the first comma, and what stands after it where there is one.
fn first_piece(text: &str) -> (&str, Option<&str>)
    ensures parts { pieces text.now ≡ result.0.now ∷ later_pieces result.1 }
    ensures shorter { IfSome result.1 (λ rest. length rest.now < length text.now) }
{
    match text.split_once(',') {
        Some((piece, rest)) => (piece, Some(rest)),
        None => (text, None),
    }
}
