//! Cards whose bytes are known from elsewhere.
use le_bytes::{CardWhat, Name};
use obj_cards::{
    Card, CardFault, CardRld, EndCard, EndStart, EsdCard, EsdItem, RldCard, TxtCard, read_card,
    write_card,
};

const A: Name = Name([0xC1, 0x40, 0x40, 0x40, 0x40, 0x40, 0x40, 0x40]);

/// The bytes, and blanks up to column 80.
fn padded(front: &[u8]) -> [u8; 80] {
    let mut card = [0x40; 80];
    for (place, byte) in card.iter_mut().zip(front) {
        *place = *byte;
    }
    card
}

/// The first four columns and a byte count, then the bytes from column 17 on.
fn counted(kind: [u8; 3], count: u8, body: &[u8]) -> [u8; 80] {
    let mut card = padded(&[2, kind[0], kind[1], kind[2], 0x40, 0, 0, 0, 0x40, 0x40, 0]);
    card[11] = count;
    card[14] = 0;
    card[15] = 1;
    for (place, byte) in card[16..].iter_mut().zip(body) {
        *place = *byte;
    }
    card
}

const ESD: [u8; 3] = [0xC5, 0xE2, 0xC4];

const TXT: [u8; 3] = [0xE3, 0xE7, 0xE3];

const RLD: [u8; 3] = [0xD9, 0xD3, 0xC4];

fn section() -> EsdItem {
    EsdItem {
        name: A,
        length: 8,
        ..EsdItem::UNUSED
    }
}

/// The 16 bytes of an item named A with a type and a byte 12, its numbers zero but for the length 8.
fn item(kind: u8, align: u8) -> [u8; 16] {
    [
        0xC1, 0x40, 0x40, 0x40, 0x40, 0x40, 0x40, 0x40, kind, 0, 0, 0, align, 0, 0, 8,
    ]
}

#[test]
fn cards_of_a_small_deck(rt: HostRuntime) {
    let mut bytes = [0; 56];
    bytes[7] = 4;
    let mut items = [CardRld::UNUSED; 13];
    items[0] = CardRld {
        r: 1,
        p: 1,
        flag: 0x0C,
        address: 4,
    };
    let cases = [
        (
            counted(ESD, 16, &item(0, 0x40)),
            Card::Esd(EsdCard {
                esdid: 1,
                count: 1,
                items: [section(), EsdItem::UNUSED, EsdItem::UNUSED],
            }),
        ),
        (
            counted(TXT, 8, &[0, 0, 0, 0, 0, 0, 0, 4]),
            Card::Txt(TxtCard {
                address: 0,
                esdid: 1,
                count: 8,
                bytes,
            }),
        ),
        (
            counted(RLD, 8, &[0, 1, 0, 1, 0x0C, 0, 0, 4]),
            Card::Rld(RldCard { count: 1, items }),
        ),
        (
            padded(&[2, 0xC5, 0xD5, 0xC4]),
            Card::End(EndCard {
                start: EndStart::None,
                length: None,
            }),
        ),
    ];
    for (card, meaning) in cases {
        assert_eq!(rt; read_card(&card), Ok(meaning));
    }
}

#[test]
fn pointers_are_shared_by_two_items(rt: HostRuntime) {
    let shared = [0, 1, 0, 1, 0x0D, 0, 0, 0, 0x0C, 0, 0, 4];
    let mut items = [CardRld::UNUSED; 13];
    items[0] = CardRld {
        r: 1,
        p: 1,
        flag: 0x0D,
        address: 0,
    };
    items[1] = CardRld {
        r: 1,
        p: 1,
        flag: 0x0C,
        address: 4,
    };
    let both = Card::Rld(RldCard { count: 2, items });
    assert_eq!(rt; read_card(&counted(RLD, 12, &shared)), Ok(both));
    assert_eq!(rt;
        read_card(&counted(RLD, 8, &shared)),
        Err(CardFault::BadFlag)
    );
    assert_eq!(rt;
        read_card(&counted(RLD, 10, &shared)),
        Err(CardFault::BadCount)
    );
}

#[test]
fn each_fault_of_a_card(rt: HostRuntime) {
    let nameless = [0x40, 0x40, 0x40, 0x40, 0x40, 0x40, 0x40, 0x40, 2];
    let cases = [
        (padded(&[0]), CardFault::UnknownCard),
        (padded(&[2, 0xC1, 0xC2, 0xC3]), CardFault::UnknownCard),
        (counted(ESD, 17, &item(0, 0x40)), CardFault::BadCount),
        (counted(TXT, 57, &[]), CardFault::BadCount),
        (counted(RLD, 60, &[]), CardFault::BadCount),
        (counted(RLD, 4, &[0, 1, 0, 1]), CardFault::BadCount),
        (counted(ESD, 16, &item(3, 0x40)), CardFault::BadEsdType),
        (counted(ESD, 16, &item(6, 2)), CardFault::BadEsdType),
        (counted(ESD, 16, &nameless), CardFault::BadEsdType),
        (
            counted(RLD, 8, &[0, 1, 0, 1, 0x4C, 0, 0, 4]),
            CardFault::BadFlag,
        ),
        (
            counted(RLD, 8, &[0, 1, 0, 1, 0x1E, 0, 0, 4]),
            CardFault::BadFlag,
        ),
    ];
    for (card, fault) in cases {
        assert_eq!(rt; read_card(&card), Err(fault));
    }
    assert_eq!(rt; CardFault::BadFlag.what(), CardWhat::BadFlag);
}

#[test]
fn kinds_of_cards_by_their_first_columns(rt: HostRuntime) {
    let mut continued = [0x40; 80];
    continued[71] = 0xE7;
    let statement = padded(&[0x40, 0xD5]);
    let cases = [
        (continued, Card::Comment),
        (padded(&[0x5C, 0xD5]), Card::Comment),
        (statement, Card::Statement(statement)),
        (padded(&[2, 0xE2, 0xE8, 0xD4, 0, 1, 2]), Card::Sym),
        (
            padded(&[
                2, 0xC5, 0xD5, 0xC4, 0x40, 0, 0, 4, 0x40, 0x40, 0x40, 0x40, 0x40, 0x40, 0, 1,
            ]),
            Card::End(EndCard {
                start: EndStart::At(4, 1),
                length: None,
            }),
        ),
    ];
    for (card, meaning) in cases {
        assert_eq!(rt; read_card(&card), Ok(meaning));
    }
}

#[test]
fn what_was_read_is_written_again(rt: HostRuntime) {
    let register = [
        0xC1, 0x40, 0x40, 0x40, 0x40, 0x40, 0x40, 0x40, 6, 0, 0, 0, 7, 0, 0, 8,
    ];
    let mut card = counted(ESD, 16, &register);
    for place in &mut card[5..8] {
        *place = 0x40;
    }
    card[10] = 0;
    assert_eq!(rt; again(&card), Some(card));
}

/// The card that is written of what was read.
fn again(card: &[u8; 80]) -> Option<[u8; 80]> {
    match read_card(card) {
        Ok(read) => Some(write_card(&read)),
        Err(_) => None,
    }
}
