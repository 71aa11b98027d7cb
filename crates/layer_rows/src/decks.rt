//! Decks that merge, and what is refused before the top prints it.
use deck_steps::{DeckFault, DeckStop, read_decks};
use esd_merge::Merged;
use le_bytes::CardWhat;
use std::alloc::Global;
use std::test::Fail;

/// Section A of 8 bytes with ESDID 1.
const A: &[u8] =
    b"\x02\xc5\xe2\xc4@@@@@@\x00\x10@@\x00\x01\xc1@@@@@@@\x00\x00\x00\x00@\x00\x00\x08";
/// Section B of 8 bytes with ESDID 1.
const B: &[u8] =
    b"\x02\xc5\xe2\xc4@@@@@@\x00\x10@@\x00\x01\xc2@@@@@@@\x00\x00\x00\x00@\x00\x00\x08";

const END: &[u8] = b"\x02\xc5\xd5\xc4";

const COMMENT: &[u8] = b"\x5c";
/// ` ENTRY A`.
const STATEMENT: &[u8] = b"@\xc5\xd5\xe3\xd9\xe8@\xc1";

fn push_card(cards: &mut Vec<u8>, text: &[u8]) -> Result<(), Fail> {
    cards.extend_from_slice(text)?;
    let over = cards.len() % 80;
    if over != 0 {
        cards.extend_from_slice(&[0x40u8; 80][over..])?;
    }
    Ok(())
}

/// What the cards are read as.
fn read(alloc: Global, texts: &[&[u8]]) -> Result<Result<Merged, DeckStop>, Fail> {
    let mut cards = Vec::new(alloc);
    for text in texts {
        push_card(&mut cards, text)?;
    }
    let few = cards.len().min(67_108_864);
    Ok(read_decks(alloc, &cards[..few]))
}

#[test]
fn decks_merge_one_after_the_other(rt: HostRuntime) -> Result<(), Fail> {
    let alloc = rt.alloc();
    let cases: [(&[&[u8]], usize); 4] = [
        (&[], 0),
        (&[COMMENT, A, END], 1),
        (&[A, END, COMMENT, B, END, COMMENT], 2),
        (&[A, END, A, END], 1),
    ];
    for (texts, sections) in cases {
        match read(alloc, texts)? {
            Ok(merged) => match merged.program(alloc) {
                Ok(program) => assert_eq!(rt; program.sections.len(), sections),
                Err(_) => assert!(rt; false),
            },
            Err(stop) => assert_eq!(rt; Some(stop), None),
        }
    }
    Ok(())
}

#[test]
fn the_first_refusal_counts(rt: HostRuntime) -> Result<(), Fail> {
    let alloc = rt.alloc();
    let cases: [(&[&[u8]], DeckFault); 4] = [
        (&[STATEMENT], DeckFault::Statement(1)),
        (&[COMMENT, A], DeckFault::Card(3, CardWhat::NoEnd)),
        (&[A, STATEMENT, END], DeckFault::Card(2, CardWhat::NoEnd)),
        (&[END, END, STATEMENT], DeckFault::Statement(3)),
    ];
    for (texts, fault) in cases {
        match read(alloc, texts)? {
            Ok(_) => assert!(rt; false),
            Err(stop) => assert_eq!(rt; stop, DeckStop::Refused(fault)),
        }
    }
    Ok(())
}
