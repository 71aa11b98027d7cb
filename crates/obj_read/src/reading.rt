//! Reading a deck.
ghost use Rattle.std.specs.Prelude.{◌≤◌, length};
ghost use Rattle.obj_read.specs.Readings.{Reads};

use crate::building::made;
use crate::facts::Facts;
use crate::fault::ObjFault;
use crate::gathering::read_step;
use le_bytes::CardWhat;
use std::alloc::Global;
use sym_mod::SymModule;

/// The object module at the head of the cards, as far as its END card, and the number of its cards.
/// Cards after it are not looked at. The number of cards is bounded by 64 MiB of them.
///
/// The layout of each card is that of GC28-6538. SYM cards say nothing. Which of several faults
/// counts is this project's profile: the first faulty card is given by its place from 0, with its
/// own fault first and then the first of these:
/// - ESD, item by item. BadEsdid: an item that is no label has an ESDID of 0, above 65,535, or of an
///   earlier item. ReservedName: a section, label or common area has the name of an overlay table.
/// - TXT. UnknownEsdid: no earlier control section has the ESDID. TextOutside: the text does not lie
///   in the section. A section without a length may get one from END, and its text is judged there.
/// - RLD, item by item. UnknownEsdid: the position pointer is no earlier control section, or the
///   relocation pointer is nothing that the kind of constant may refer to. ConstantOutside: the field
///   does not lie in the section, which for one without a length is judged at END. ConstantsOverlap:
///   a byte of the field stands in an earlier field, and the two are not address constants of one
///   place and length, which are terms of one constant.
/// - END, after its length is given to the first control section without one. UnknownEsdid or
///   EntryOutside of the entry address, UnknownEsdid or LabelOutside of the labels in order, then
///   TextOutside and ConstantOutside of the text and constants that waited.
/// - NoEnd: a statement or a comment stands before the END card. Where the cards end without one, the
///   place is their number.
///
/// Linear in the number of cards.
///
/// # Errors
/// The first faulty card, or want of memory.
pub fn read_module(alloc: Global, cards: &[[u8; 80]]) -> Result<(SymModule, usize), ObjFault>
    requires { length cards.now ≤ 838860 }
    ensures { Reads cards.now result }
{
    let mut facts = Facts::new(alloc);
    for place in 0..cards.len() {
        match read_step(&mut facts, &cards[place]) {
            Ok(None) => {}
            Ok(Some(start)) => return Ok((made(alloc, &facts, &start)?, place + 1)),
            Err(wrong) => return Err(wrong.at(place)),
        }
    }
    Err(ObjFault::At(cards.len(), CardWhat::NoEnd))
}
