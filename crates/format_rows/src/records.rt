//! Records of a load module, read and written.
use le_bytes::Name;
use load_recs::{
    Ends, Expect, Rec, RecFault, RldItem, SymbolItem, SymbolKind, TextHead, put_rld_item,
    put_symbol_item, read_rec, rld_items, symbol_item, write_rec,
};
use std::process::Abort;
use std::test::Fail;

/// The records of a member with one section A of 8 bytes, whose second word is its own second word's
/// address.
const SYMBOLS: [u8; 24] = [
    0x20, 0, 0, 0, 0, 1, 0, 16, 0xC1, 0x40, 0x40, 0x40, 0x40, 0x40, 0x40, 0x40, 0, 0, 0, 0, 1, 0,
    0, 8,
];

const CONTROL: [u8; 20] = [1, 0, 0, 0, 0, 0, 0, 4, 6, 0, 0, 0, 0, 0, 0, 8, 0, 1, 0, 8];

const TEXT: [u8; 8] = [0, 0, 0, 0, 0, 0, 0, 4];

const RLD: [u8; 24] = [
    0x0E, 0, 0, 0, 0, 8, 0, 0, 0, 0, 0, 0, 0, 0, 0, 0, 0, 1, 0, 1, 0x0C, 0, 0, 4,
];

const GOES_ON: Ends = Ends {
    segment: false,
    module: false,
};

const ALL_ENDS: Ends = Ends {
    segment: true,
    module: true,
};

const SECTION: SymbolItem = SymbolItem {
    name: Name([0xC1, 0x40, 0x40, 0x40, 0x40, 0x40, 0x40, 0x40]),
    kind: SymbolKind::Sd,
    address: 0,
    segment: 1,
    length: 8,
};

const TEXT_AHEAD: TextHead = TextHead {
    address: 0,
    length: 8,
    section: 1,
};

const CONSTANT: RldItem = RldItem {
    r: 1,
    p: 1,
    flag: 0x0C,
    address: 4,
};

#[test]
fn records_of_a_small_member_are_read(rt: HostRuntime) -> Result<(), Fail> {
    assert!(rt; matches!(read_rec(&SYMBOLS, Expect::Head), Ok(Rec::Cesd(1, _))));
    assert_eq!(rt; symbol_item(&SYMBOLS[8..], 0), SECTION);
    assert!(rt;
        matches!(
            read_rec(&CONTROL, Expect::Head),
            Ok(Rec::Control(GOES_ON, TEXT_AHEAD))
        )
    );
    assert!(rt; matches!(read_rec(&TEXT, Expect::Text(8)), Ok(Rec::Text(_))));
    assert!(rt; matches!(read_rec(&RLD, Expect::Head), Ok(Rec::Rld(ALL_ENDS, _))));
    let mut items = rld_items(&RLD[16..]);
    assert_eq!(rt; items.next(), Some(CONSTANT));
    assert_eq!(rt; items.next(), None);
    Ok(())
}

#[test]
fn records_of_a_small_member_are_written(rt: HostRuntime) -> Result<(), Fail> {
    let mut item = [0; 16];
    put_symbol_item(&mut item, &SECTION);
    let symbols = write_rec(rt.alloc(), &Rec::Cesd(1, &item))
        .ok()
        .ok_or("memory")?;
    assert_eq!(rt; symbols.as_slice(), SYMBOLS.as_slice());
    let control = write_rec(rt.alloc(), &Rec::Control(GOES_ON, TEXT_AHEAD))
        .ok()
        .ok_or("memory")?;
    assert_eq!(rt; control.as_slice(), CONTROL.as_slice());
    let text = write_rec(rt.alloc(), &Rec::Text(&TEXT))
        .ok()
        .ok_or("memory")?;
    assert_eq!(rt; text.as_slice(), TEXT.as_slice());
    let mut item = [0; 8];
    let size = put_rld_item(&mut item, &CONSTANT, false);
    assert_eq!(rt; size, 8);
    let rld = write_rec(rt.alloc(), &Rec::Rld(ALL_ENDS, &item))
        .ok()
        .ok_or("memory")?;
    assert_eq!(rt; rld.as_slice(), RLD.as_slice());
    Ok(())
}

/// A control record that tells of a text of this length.
fn control(length: [u8; 2]) -> [u8; 20] {
    let [high, low] = length;
    [
        1, 0, 0, 0, 0, 0, 0, 4, 6, 0, 0, 0, 0, 0, high, low, 0, 1, high, low,
    ]
}

fn is_refused(rt: &impl Abort, bytes: &[u8], fault: RecFault) {
    match read_rec(bytes, Expect::Head) {
        Ok(_) => assert!(rt; false, "a record was read"),
        Err(found) => assert_eq!(rt; found, fault),
    }
}

#[test]
fn text_has_at_most_13030_bytes(rt: HostRuntime) {
    assert!(rt; read_rec(&control([0x32, 0xE6]), Expect::Head).is_ok());
    is_refused(&rt, &control([0x32, 0xE7]), RecFault::BadLength);
    is_refused(&rt, &control([0, 0]), RecFault::BadLength);
}

#[test]
fn damaged_records_are_refused(rt: HostRuntime) {
    // No bytes, and the module ending without its segment.
    is_refused(&rt, &[], RecFault::UnknownId);
    is_refused(&rt, &[0x09, 0, 0, 0, 0, 0, 0, 4], RecFault::UnknownId);
    // A byte short, before a bad type of its item.
    is_refused(&rt, &SYMBOLS[..23], RecFault::BadLength);
    // A subtype that is neither, before a count of 1.
    is_refused(&rt, &[0x10, 3, 0, 0, 0, 1, 0, 1, 0], RecFault::BadType);
    is_refused(&rt, &[0x10, 2, 0, 0, 0, 1, 0, 1, 0], RecFault::BadLength);
    // The last item promises a next one, with nothing after it and with a byte after it.
    is_refused(
        &rt,
        &[
            2, 0, 0, 0, 0, 8, 0, 0, 0, 0, 0, 0, 0, 0, 0, 0, 0, 1, 0, 1, 0x0D, 0, 0, 4,
        ],
        RecFault::BadFlag,
    );
    is_refused(
        &rt,
        &[
            2, 0, 0, 0, 0, 9, 0, 0, 0, 0, 0, 0, 0, 0, 0, 0, 0, 1, 0, 1, 0x0D, 0, 0, 4, 0,
        ],
        RecFault::BadLength,
    );
    // A V-type constant that is taken off.
    is_refused(
        &rt,
        &[
            2, 0, 0, 0, 0, 8, 0, 0, 0, 0, 0, 0, 0, 0, 0, 0, 0, 1, 0, 1, 0x1E, 0, 0, 4,
        ],
        RecFault::BadFlag,
    );
}
