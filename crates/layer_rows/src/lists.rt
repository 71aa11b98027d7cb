//! Lists of a member, from its items.
use item_list::reference_rows;
use le_bytes::{Items, Name};
use list_text::{statements_text, xref_text};
use load_recs::{RldItem, SymbolItem, SymbolKind};
use relink_list::{SegmentPlace, is_writable, relink};
use std::test::Fail;

fn name(text: &str) -> Name {
    Name::from_text(text).unwrap_or(Name::BLANK)
}

fn item(text: &str, kind: SymbolKind, address: u32, segment: u8, length: u32) -> SymbolItem {
    SymbolItem {
        name: name(text),
        kind,
        address,
        segment,
        length,
    }
}

/// ROOT calls A and B, which share storage; A has two labels, and SUB2 is unresolved.
fn overlay_items() -> [SymbolItem; 10] {
    [
        item("$SEGTAB", SymbolKind::Sd, 0, 1, 0x14),
        item("ROOT", SymbolKind::Sd, 0x18, 1, 0x10),
        item("$ENTAB", SymbolKind::Sd, 0x28, 1, 0x24),
        item("A", SymbolKind::Sd, 0x50, 2, 8),
        item("B", SymbolKind::Cm, 0x50, 3, 0x10),
        item("A2", SymbolKind::Lr, 0x54, 2, 4),
        item("A1", SymbolKind::Lr, 0x50, 2, 4),
        item("SUB2", SymbolKind::Er, 0, 0, 0),
        item("P1", SymbolKind::Pr, 0, 0, 1),
        item("", SymbolKind::Sd, 0x60, 3, 4),
    ]
}

fn term(r: u32, p: u32, flag: u8, address: u32) -> RldItem {
    RldItem {
        r,
        p,
        flag,
        address,
    }
}

#[test]
fn references_are_the_terms_outside_the_tables(rt: HostRuntime) -> Result<(), Fail> {
    let alloc = rt.alloc();
    let items = [
        term(4, 2, 0x1C, 0x18),
        term(5, 2, 0x1C, 0x1C),
        term(8, 2, 0x8C, 0x20),
        term(9, 2, 0x2C, 0x24),
        term(4, 3, 0x0C, 0x34),
        term(10, 10, 0x0E, 0x62),
    ];
    let rows = reference_rows(alloc, &overlay_items(), &items)?;
    assert_eq!(rt;
        xref_text(alloc, rows.as_slice())?.as_slice(),
        b"REF ROOT+000000 V A 000050\nREF ROOT+000004 V B 000050\nREF ROOT+000008 A SUB2 UNRESOLVED\nREF $PRIVATE+000002 A $PRIVATE 000060\n".as_slice()
    );
    Ok(())
}

#[test]
fn the_statements_of_two_regions(rt: HostRuntime) -> Result<(), Fail> {
    let alloc = rt.alloc();
    let tree = [
        SegmentPlace {
            parent: 0,
            region: 1,
        },
        SegmentPlace {
            parent: 1,
            region: 1,
        },
        SegmentPlace {
            parent: 1,
            region: 2,
        },
    ];
    let mut aliases = Items::new(alloc);
    aliases.push(name("C"))?;
    let again = relink(alloc, &name("OVL"), aliases, &tree, &overlay_items())?;
    assert_eq!(rt;
        statements_text(alloc, &again)?.as_slice(),
        b" INCLUDE SYSLMOD(OVL)\n OVERLAY P001\n INSERT A\n OVERLAY R002(REGION)\n INSERT B\n ALIAS C\n NAME OVL(R)\n".as_slice()
    );
    Ok(())
}

#[test]
fn names_that_statements_can_write(rt: HostRuntime) -> Result<(), Fail> {
    assert!(rt; is_writable(&name("ABC_1#@$")));
    assert!(rt; !is_writable(&Name::BLANK));
    assert!(rt; !is_writable(&Name([0xC1, 0x40, 0xC2, 0x40, 0x40, 0x40, 0x40, 0x40])));
    assert!(rt; !is_writable(&Name([0xF1, 0xC1, 0x40, 0x40, 0x40, 0x40, 0x40, 0x40])));
    assert!(rt; !is_writable(&Name([0xC1, 0x81, 0x40, 0x40, 0x40, 0x40, 0x40, 0x40])));
    Ok(())
}
