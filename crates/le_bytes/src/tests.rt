//! What no clause says: names as keys, lists that take memory, and codes at their edges.
use crate::{
    Bytes, Items, Memory, Name, from_ascii, num16, num24, num32, put16, put24, put32, to_ascii,
};
use std::collections::{BTreeMap, HashMap};
use std::test::Fail;

fn named(text: &str) -> Name {
    Name::from_text(text).unwrap_or(Name::BLANK)
}

#[test]
fn texts_give_names_or_none(rt: HostRuntime) {
    let cases = [
        ("A", true),
        ("IBCOM#", true),
        ("$SEGTAB", true),
        ("_X12345@", true),
        ("", false),
        ("ABCDEFGHI", false),
        ("1A", false),
        ("a", false),
        ("A B", false),
    ];
    for (text, good) in cases {
        assert_eq!(rt; Name::from_text(text).is_some(), good);
    }
    assert_eq!(rt;
        named("A9").0,
        [0xC1, 0xF9, 0x40, 0x40, 0x40, 0x40, 0x40, 0x40]
    );
}

#[test]
fn names_are_keys_of_both_kinds_of_map(rt: HostRuntime) -> Result<(), Fail> {
    let mut ordered = BTreeMap::new(rt.alloc());
    let mut hashed = HashMap::new(rt.alloc());
    for (text, number) in [("B", 2u32), ("A", 1), ("A9", 3), ("AA", 4)] {
        ordered.insert(named(text), number)?;
        hashed.insert(named(text), number)?;
    }
    assert_eq!(rt; ordered.get(&named("A9")).copied(), Some(3));
    assert_eq!(rt; hashed.get(&named("AA")).copied(), Some(4));
    // Letters stand before digits in EBCDIC.
    assert!(rt; named("AA") < named("A9"));
    Ok(())
}

#[test]
fn codes_go_both_ways(rt: HostRuntime) {
    for c in 0u8..128 {
        if let Some(code) = from_ascii(c) {
            assert_eq!(rt; to_ascii(code), c);
        }
    }
    assert_eq!(rt; to_ascii(0x00), b'.');
    assert_eq!(rt; from_ascii(b'a'), None);
}

#[test]
fn numbers_are_big_endian(rt: HostRuntime) {
    let mut b = [0xFF; 9];
    put16(&mut b, 0, 0x0102);
    put24(&mut b, 2, 0x03_0405);
    put32(&mut b, 5, 0x0607_0809);
    assert_eq!(rt; b, [1, 2, 3, 4, 5, 6, 7, 8, 9]);
    assert_eq!(rt;
        (num16(&b, 1), num24(&b, 1), num32(&b, 1)),
        (0x0203, 0x02_0304, 0x0203_0405)
    );
}

#[test]
fn lists_take_memory_and_hold_what_they_are_given(rt: HostRuntime) -> Result<(), Fail> {
    let mut bytes = Bytes::from_slice(rt.alloc(), &[1, 2])?;
    bytes.extend(&[3])?;
    assert_eq!(rt; bytes.as_slice(), [1, 2, 3].as_slice());
    let mut items = Items::new(rt.alloc());
    items.push(named("A"))?;
    items.push(named("B"))?;
    items.set(0, named("C"));
    assert_eq!(rt; items.as_slice(), [named("C"), named("B")].as_slice());
    assert!(rt; Memory == Memory);
    Ok(())
}
