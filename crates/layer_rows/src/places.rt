//! Placements by their numbers.
use fetch_places::{Area, Placement, fits, place_block, place_sections};
use le_bytes::{Items, Name, PlaceWhat};
use load_recs::{SymbolItem, SymbolKind};
use std::alloc::Global;
use std::test::Fail;

fn section(length: u32) -> SymbolItem {
    SymbolItem {
        name: Name::BLANK,
        kind: SymbolKind::Sd,
        address: 0,
        segment: 1,
        length,
    }
}

fn addresses(alloc: Global, items: &[SymbolItem], areas: &[Area]) -> Result<Vec<u32>, Fail> {
    match place_sections(alloc, items, areas)? {
        Placement::Scattered(addresses) => Ok(addresses.into_vec()),
        Placement::Block(_, _) => Err("a block".into()),
    }
}

#[test]
fn sections_fill_areas_in_turn(rt: HostRuntime) -> Result<(), Fail> {
    let areas = [
        Area {
            from: 0x1000,
            to: 0x1010,
        },
        Area {
            from: 0x4000,
            to: 0x4800,
        },
    ];
    let items = [section(8), section(0x100), section(8)];
    let found = addresses(rt.alloc(), &items, &areas)?;
    assert_eq!(rt; found.as_slice(), [0x1000, 0x4000, 0x1008].as_slice());
    assert!(rt; place_sections(rt.alloc(), &items, &areas[..1]).is_err());
    Ok(())
}

#[test]
fn sections_share_no_byte(rt: HostRuntime) -> Result<(), Fail> {
    let items = [section(8), section(0), section(8)];
    for (third, fit) in [
        (0x1008, true),
        (0x1007, false),
        (0x0FF8, true),
        (0xFF_FFF8, false),
    ] {
        let addresses = Vec::from_slice(rt.alloc(), &[0x1000, 0x1004, third])?;
        let placement = Placement::Scattered(Items::from_vec(addresses));
        assert_eq!(rt; fits(rt.alloc(), &placement, &items)?, fit, "at {third}");
    }
    Ok(())
}

#[test]
fn a_block_begins_at_a_multiple_of_eight(rt: HostRuntime) {
    assert_eq!(rt;
        place_block(0xFF_FFF0, 15),
        Ok(Placement::Block(0xFF_FFF0, 15))
    );
    assert_eq!(rt; place_block(0xFF_FFF0, 16), Err(PlaceWhat::BadOrigin));
    assert_eq!(rt; place_block(4, 0), Err(PlaceWhat::BadOrigin));
}
