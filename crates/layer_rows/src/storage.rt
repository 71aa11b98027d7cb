//! A section with a constant, in storage.
use fetch_places::place_block;
use fetch_storage::{Parts, add_shift};
use le_bytes::Name;
use load_recs::{SymbolItem, SymbolKind};
use std::test::Fail;

#[test]
fn constant_moves_with_its_section(rt: HostRuntime) -> Result<(), Fail> {
    let items = [SymbolItem {
        name: Name::BLANK,
        kind: SymbolKind::Sd,
        address: 0x100,
        segment: 1,
        length: 8,
    }];
    let placement = place_block(0x1000, 0x108).map_err(|_| "an origin")?;
    let parts = Parts::new(rt.alloc(), &items, &placement)?;
    let shifts = parts.shifts(rt.alloc(), &items)?;
    assert_eq!(rt; shifts.as_slice(), [0x1000].as_slice());
    let made = parts.into_items(rt.alloc())?;
    assert_eq!(rt; made.len(), 1);
    Ok(())
}

#[test]
fn shift_is_taken_modulo_the_size_of_the_field(rt: HostRuntime) {
    let mut field = [0xFF, 0xFF, 0xFC];
    add_shift(&mut field, 8, false);
    assert_eq!(rt; field, [0, 0, 4]);
    add_shift(&mut field, 0x1000_0008, true);
    assert_eq!(rt; field, [0xFF, 0xFF, 0xFC]);
}
