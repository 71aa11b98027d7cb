//! Decks whose module or first faulty card is known from elsewhere.
ghost use Rattle.std.specs.Prelude.{◌≤◌, length};

use le_bytes::{CardWhat, Name};
use obj_read::{ObjFault, read_module};
use std::alloc::Global;
use std::test::Fail;
use sym_mod::{Item, ItemKind, Kind, SymEntry, SymTarget, SymTerm};

const A: u8 = 0xC1;

const L: u8 = 0xD3;

/// An object card: its type, the address, count and ESDID below 256, and the bytes from column 17 on.
fn object(kind: [u8; 3], address: u8, count: u8, esdid: u8, body: &[u8]) -> [u8; 80] {
    let mut card = [0x40; 80];
    let head = [
        2, kind[0], kind[1], kind[2], 0x40, 0, 0, address, 0x40, 0x40, 0, count, 0x40, 0x40, 0,
        esdid,
    ];
    for (place, byte) in card.iter_mut().zip(&head) {
        *place = *byte;
    }
    for (place, byte) in card[16..].iter_mut().zip(body) {
        *place = *byte;
    }
    card
}

fn esd(esdid: u8, items: &[u8]) -> [u8; 80] {
    let count = if items.len() > 16 { 32 } else { 16 };
    object([0xC5, 0xE2, 0xC4], 0, count, esdid, items)
}

fn txt(esdid: u8, address: u8, count: u8) -> [u8; 80] {
    object([0xE3, 0xE7, 0xE3], address, count, esdid, &[0; 56])
}

fn rld(count: u8, items: &[u8]) -> [u8; 80] {
    object([0xD9, 0xD3, 0xC4], 0, count, 0, items)
}

/// An END card that enters at an address.
fn end_at(esdid: u8, address: u8) -> [u8; 80] {
    object([0xC5, 0xD5, 0xC4], address, 0, esdid, &[])
}

fn end() -> [u8; 80] {
    let mut card = [0x40; 80];
    card[0] = 2;
    card[1] = 0xC5;
    card[2] = 0xD5;
    card[3] = 0xC4;
    card
}

fn item(letter: u8, kind: u8, address: u8, length: u8) -> [u8; 16] {
    [
        letter, 0x40, 0x40, 0x40, 0x40, 0x40, 0x40, 0x40, kind, 0, 0, address, 0x40, 0, 0, length,
    ]
}

/// A section of eight bytes named A, and a label in it.
fn labelled(address: u8, esdid: u8) -> [u8; 32] {
    let mut items = [0; 32];
    for (place, byte) in items.iter_mut().zip(&item(A, 0, 0, 8)) {
        *place = *byte;
    }
    for (place, byte) in items[16..].iter_mut().zip(&item(L, 1, address, esdid)) {
        *place = *byte;
    }
    items
}

fn is_refused(alloc: Global, cards: &[[u8; 80]], place: usize, what: CardWhat) -> bool
    requires { length cards.now ≤ 838860 }
{
    match read_module(alloc, cards) {
        Ok(_) => false,
        Err(fault) => fault == ObjFault::At(place, what),
    }
}

#[test]
fn small_deck_is_a_module(rt: HostRuntime) -> Result<(), Fail> {
    let deck = [
        esd(1, &item(A, 0, 0, 8)),
        txt(1, 0, 8),
        rld(8, &[0, 1, 0, 1, 0x0C, 0, 0, 4]),
        end(),
        end(),
    ];
    match read_module(rt.alloc(), &deck) {
        Err(_) => assert!(rt; false),
        Ok((module, taken)) => {
            assert_eq!(rt; taken, 4);
            let section = Item {
                name: Name([A, 0x40, 0x40, 0x40, 0x40, 0x40, 0x40, 0x40]),
                kind: ItemKind::Sd,
                base: 0,
                length: 8,
                owner: 0,
                align: 0,
            };
            assert!(rt; module.items.as_slice() == [section].as_slice());
            assert_eq!(rt; module.entry, SymEntry::None);
            assert_eq!(rt; module.fragments.len(), 1);
            assert_eq!(rt; module.constants.len(), 1);
            if let Some(constant) = module.constants.get(0) {
                let own = SymTerm {
                    minus: false,
                    target: SymTarget::Own(0),
                    base: 0,
                };
                assert_eq!(rt;
                    (constant.offset, constant.length, constant.kind),
                    (4, 4, Kind::Address)
                );
                assert!(rt; constant.terms.as_slice() == [own].as_slice());
            }
        }
    }
    Ok(())
}

#[test]
fn each_fault_at_its_card(rt: HostRuntime) {
    let alloc = rt.alloc();
    let a = esd(1, &item(A, 0, 0, 8));
    let open = esd(1, &item(A, 0, 0, 0));
    let table = [
        0x5B, 0xE2, 0xC5, 0xC7, 0xE3, 0xC1, 0xC2, 0x40, 0, 0, 0, 0, 0x40, 0, 0, 8,
    ];
    let term = rld(8, &[0, 1, 0, 1, 0x0C, 0, 0, 4]);
    let other = rld(8, &[0, 2, 0, 1, 0x0C, 0, 0, 4]);
    let past = rld(8, &[0, 1, 0, 1, 0x0C, 0, 0, 6]);
    let two = rld(16, &[0, 1, 0, 1, 0x0C, 0, 0, 0, 0, 1, 0, 1, 0x0C, 0, 0, 2]);
    let cases = [
        ([a, a, end()], 1, CardWhat::BadEsdid),
        ([esd(0, &item(A, 0, 0, 8)), a, end()], 0, CardWhat::BadEsdid),
        ([a, esd(2, &table), end()], 1, CardWhat::ReservedName),
        ([a, txt(2, 0, 8), end()], 1, CardWhat::UnknownEsdid),
        ([a, txt(1, 4, 8), end()], 1, CardWhat::TextOutside),
        ([a, other, end()], 1, CardWhat::UnknownEsdid),
        ([a, past, end()], 1, CardWhat::ConstantOutside),
        ([a, two, end()], 1, CardWhat::ConstantsOverlap),
        ([a, end_at(2, 0), end()], 1, CardWhat::UnknownEsdid),
        ([a, end_at(1, 9), end()], 1, CardWhat::EntryOutside),
        (
            [esd(1, &labelled(9, 1)), end(), end()],
            1,
            CardWhat::LabelOutside,
        ),
        (
            [esd(1, &labelled(8, 3)), end(), end()],
            1,
            CardWhat::UnknownEsdid,
        ),
        ([open, txt(1, 0, 4), end()], 2, CardWhat::TextOutside),
        ([open, term, end()], 2, CardWhat::ConstantOutside),
        ([a, term, term], 3, CardWhat::NoEnd),
        ([a, [0x40; 80], end()], 1, CardWhat::NoEnd),
        ([a, [0; 80], end()], 1, CardWhat::UnknownCard),
    ];
    for (deck, place, what) in &cases {
        assert!(rt; is_refused(alloc, deck.as_slice(), *place, *what));
    }
}
