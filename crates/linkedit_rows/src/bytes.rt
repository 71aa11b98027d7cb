//! Bytes as text: cards, and the images of small libraries.
use le_bytes::Name;
use std::alloc::Global;
use std::test::Fail;

/// The bytes of a text, whose words are names, bytes of two digits each with a point for a blank,
/// `ESD`, `TXT`, `RLD` and `END` for the first columns of such a card, `/` for the end of a card, `|`
/// for the end of a library's header and directory of one block, and the samples below.
pub(crate) fn bytes_of(alloc: Global, text: &str) -> Result<Vec<u8>, Fail> {
    let mut bytes = Vec::new(alloc);
    for word in text.split_whitespace() {
        match sample(word) {
            Some(words) => push_words(&mut bytes, words)?,
            None => push_word(&mut bytes, word)?,
        }
    }
    Ok(bytes)
}

/// The words that the name of a sample stands for.
fn sample(word: &str) -> Option<&str> {
    match word {
        // Section A of 8 bytes, with an address constant on itself at 4 that holds 4.
        "$self" => Some(
            "ESD 0010 .. 0001 A 00000000.000008 / TXT 000000..0008.. 0001 0000000000000004 / RLD 0008 .... 000100010c000004 / END /",
        ),
        // MAIN calls X, which nothing resolves, and has the weak name W.
        "$wanting" => Some(
            "ESD 0030 .. 0001 MAIN 00000000.000008 X 02....... W 0a....... / RLD 0008 .... 000200011c000000 / END /",
        ),
        // Section A of 48 bytes with ten constants, one of them of two terms, and nine references: a deck
        // without its END card.
        "$large" => Some(
            "ESD 0010 .. 0001 A 00000000.000030 / ESD 0030 .. 0002 B 02....... C 02....... D 02....... / ESD 0030 .. 0005 E 02....... F 02....... G 02....... / ESD 0030 .. 0008 H 02....... I 02....... J 02....... / TXT 000000..0030.. 0001 000000100000002000000000000000000000000000000000000000000000000000000000000000240000000000000000 / RLD 0018 .... 000200010c000000000300010c000004000400010c000008 / RLD 0018 .... 000500010c00000c000600010c000010000700010c000014 / RLD 0018 .... 000800010c000018000900010c00001c000a00010c000020 / RLD 0010 .... 000100010c000024000400010e000004 /",
        ),
        // Another deck and a comment.
        "$before" => Some("ESD 0010 .. 0001 B 00000000.000004 / END / 5c /"),
        // The library of the first deck's member TEMPNAME alone.
        "$library" => Some(
            "d7c4e2c9d4c1c7c5 01e40000 00000001 00000005 0026 TEMPNAME 00000106 00000000 08000000 00000001 ffffffffffffffff 00000000 | 0018 2000000000010010 A 0000000001000008 0014 01000000000000040600000000000008 00010008 0008 0000000000000004 0018 0e000000000800000000000000000000 000100010c000004 0000",
        ),
        // The front of a library of that member and of its alias A, which is entered at 4.
        "$with_alias" => Some(
            "d7c4e2c9d4c1c7c5 01e40000 00000001 00000005 0046 A 0000018a 000000000800000004000001 TEMPNAME TEMPNAME 00000106 000000000800000000000001 ffffffffffffffff 00000000 |",
        ),
        // The member's records: its symbol, the text's place, the text, the constant, and the end.
        "$records" => Some(
            "0018 2000000000010010 A 0000000001000008 0014 01000000000000040600000000000008 00010008 0008 0000000000000004 0018 0e000000000800000000000000000000 000100010c000004 0000",
        ),
        _ => None,
    }
}

fn push_words(bytes: &mut Vec<u8>, text: &str) -> Result<(), Fail> {
    for word in text.split_whitespace() {
        push_word(bytes, word)?;
    }
    Ok(())
}

/// Adds a word's bytes.
fn push_word(bytes: &mut Vec<u8>, word: &str) -> Result<(), Fail> {
    match word {
        "/" => end_card(bytes),
        "|" => end_front(bytes),
        "ESD" => push_digits(bytes, "02c5e2c4......"),
        "TXT" => push_digits(bytes, "02e3e7e3."),
        "RLD" => push_digits(bytes, "02d9d3c4......"),
        "END" => push_digits(bytes, "02c5d5c4"),
        _ => match Name::from_text(word) {
            Some(name) => Ok(bytes.extend_from_slice(&name.0)?),
            None => push_digits(bytes, word),
        },
    }
}

/// Fills the last card with blanks, X'40'.
fn end_card(bytes: &mut Vec<u8>) -> Result<(), Fail> {
    let over = bytes.len() % 80;
    if over != 0 {
        bytes.extend_from_slice(&[0x40u8; 80][over..])?;
    }
    Ok(())
}

/// Fills the header and the one directory block of a library with zeros.
fn end_front(bytes: &mut Vec<u8>) -> Result<(), Fail> {
    for _ in bytes.len()..276 {
        bytes.push(0)?;
    }
    Ok(())
}

/// Adds bytes: two digits each, or a point for a blank.
fn push_digits(bytes: &mut Vec<u8>, text: &str) -> Result<(), Fail> {
    let mut first = None;
    for c in text.as_bytes() {
        match (digit(*c), first) {
            (None, _) => bytes.push(0x40)?,
            (Some(d), None) => first = Some(d),
            (Some(d), Some(high)) => {
                bytes.push(high % 16 * 16 + d % 16)?;
                first = None;
            }
        }
    }
    Ok(())
}

fn digit(c: u8) -> Option<u8> {
    match c {
        b'0'..=b'9' => Some(c - b'0'),
        b'a'..=b'f' => Some(c - b'a' + 10),
        _ => None,
    }
}
