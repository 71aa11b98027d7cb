//! Maps, cross-references, directories, statements and lines of events.
use ctl_cards::{IncludeItem, Statement, read_statement};
use le_bytes::{Items, Memory, Name, Place, from_ascii};
use list_text::{
    LONGEST_EVENT_LINE, MapRow, RefRow, Relink, RelinkSegment, RowKind, call_line, directory_text,
    dump_head, map_text, statement_cards, statements_text, store_line, where_line, xref_text,
};
use pds_lib::Entry;
use std::alloc::Global;
use std::test::Fail;

fn name(text: &str) -> Name {
    Name::from_text(text).unwrap_or(Name::BLANK)
}

fn section(text: &str, kind: RowKind, address: u32, length: u32, segment: u8) -> MapRow {
    MapRow::Section(name(text), kind, address, length, segment)
}

#[test]
fn blank_common_stands_in_the_map_by_its_printed_name(rt: HostRuntime) -> Result<(), Fail> {
    let rows = [
        section("MAIN", RowKind::Sd, 0, 4, 1),
        MapRow::Section(Name::BLANK_COMMON, RowKind::Cm, 8, 0x64, 1),
        section("SUB", RowKind::Sd, 0x70, 4, 1),
    ];
    assert_eq!(rt;
        map_text(rt.alloc(), &name("TEMPNAME"), &rows)?.as_slice(),
        b"MAP TEMPNAME\nMAIN     SD 000000 000004 1\n$BLNKCOM CM 000008 000064 1\nSUB      SD 000070 000004 1\n".as_slice()
    );
    Ok(())
}

#[test]
fn labels_stand_after_their_section(rt: HostRuntime) -> Result<(), Fail> {
    let rows = [
        section("MAIN", RowKind::Sd, 0, 0x1A4, 1),
        section("BLK", RowKind::Cm, 0x1A8, 0x58, 1),
        section("SUB1", RowKind::Sd, 0x200, 0xC8, 1),
        section("SUB2", RowKind::Sd, 0x2C8, 0x7C, 1),
        section("IHCFCOMH", RowKind::Sd, 0x348, 0x20, 1),
        MapRow::Label(name("IBCOM#"), 0x348),
    ];
    assert_eq!(rt;
        map_text(rt.alloc(), &name("PGM"), &rows)?.as_slice(),
        b"MAP PGM\nMAIN     SD 000000 0001a4 1\nBLK      CM 0001a8 000058 1\nSUB1     SD 000200 0000c8 1\nSUB2     SD 0002c8 00007c 1\nIHCFCOMH SD 000348 000020 1\n  IBCOM#   LR 000348\n".as_slice()
    );
    Ok(())
}

#[test]
fn segments_private_code_and_registers_in_a_map(rt: HostRuntime) -> Result<(), Fail> {
    let rows = [
        section("$SEGTAB", RowKind::Sd, 0, 0x14, 1),
        section("ROOT", RowKind::Sd, 0x18, 0x10, 1),
        section("$ENTAB", RowKind::Sd, 0x28, 0x24, 1),
        section("A", RowKind::Sd, 0x50, 8, 2),
        section("B", RowKind::Sd, 0x50, 0x10, 3),
        MapRow::Section(Name::PRIVATE_CODE, RowKind::Pc, 0x60, 0, 255),
        MapRow::Register(name("P1"), 0, 1),
        MapRow::Register(name("P2"), 4, 4),
    ];
    assert_eq!(rt;
        map_text(rt.alloc(), &name("OVL"), &rows)?.as_slice(),
        b"MAP OVL\n$SEGTAB  SD 000000 000014 1\nROOT     SD 000018 000010 1\n$ENTAB   SD 000028 000024 1\nA        SD 000050 000008 2\nB        SD 000050 000010 3\n$PRIVATE PC 000060 000000 255\nP1       PR 000000 000001\nP2       PR 000004 000004\n".as_slice()
    );
    Ok(())
}

/// A reference that a constant of ROOT makes.
fn reference(offset: u32, branch: bool, target: Name, at: Option<u32>) -> RefRow {
    RefRow {
        section: name("ROOT"),
        offset,
        branch,
        target,
        at,
    }
}

#[test]
fn a_reference_tells_its_target_or_that_it_is_unresolved(rt: HostRuntime) -> Result<(), Fail> {
    let rows = [
        reference(0, true, name("A"), Some(0x50)),
        reference(4, true, name("B"), Some(0x50)),
        reference(8, false, Name::PRIVATE_CODE, Some(0x60)),
        reference(12, false, name("SUB2"), None),
    ];
    assert_eq!(rt;
        xref_text(rt.alloc(), &rows)?.as_slice(),
        b"REF ROOT+000000 V A 000050\nREF ROOT+000004 V B 000050\nREF ROOT+000008 A $PRIVATE 000060\nREF ROOT+00000c A SUB2 UNRESOLVED\n".as_slice()
    );
    Ok(())
}

fn entry(text: &str, main: &str, alias: bool) -> Entry {
    Entry {
        name: name(text),
        main: name(main),
        alias,
        attr: 0,
        length: 8,
        entry: 0,
        entry_section: 1,
    }
}

#[test]
fn a_directory_lists_members_and_aliases(rt: HostRuntime) -> Result<(), Fail> {
    let mut blank = entry("C", "C", false);
    blank.name = Name::BLANK;
    let entries = [
        entry("B", "BMAIN", true),
        entry("BMAIN", "BMAIN", false),
        blank,
    ];
    assert_eq!(rt;
        directory_text(rt.alloc(), &entries)?.as_slice(),
        b"ALIAS B OF BMAIN\nMEMBER BMAIN\nMEMBER \n".as_slice()
    );
    Ok(())
}

fn segment(
    alloc: Global,
    symbol: &str,
    region: bool,
    section: &str,
) -> Result<RelinkSegment, Memory> {
    let mut inserts = Items::new(alloc);
    inserts.push(name(section))?;
    Ok(RelinkSegment {
        symbol: name(symbol),
        region,
        inserts,
    })
}

/// A member with two segments and two aliases.
fn relink(alloc: Global, symbol: &str, region: bool) -> Result<Relink, Memory> {
    let mut segments = Items::new(alloc);
    segments.push(segment(alloc, "P001", false, "A")?)?;
    segments.push(segment(alloc, symbol, region, "B")?)?;
    Ok(Relink {
        member: name("OVL"),
        aliases: Items::new(alloc),
        segments,
    })
}

#[test]
fn statements_that_link_an_overlay_member_again(rt: HostRuntime) -> Result<(), Fail> {
    let alloc = rt.alloc();
    assert_eq!(rt;
        statements_text(alloc, &relink(alloc, "P001", false)?)?.as_slice(),
        b" INCLUDE SYSLMOD(OVL)\n OVERLAY P001\n INSERT A\n OVERLAY P001\n INSERT B\n NAME OVL(R)\n".as_slice()
    );
    let mut second = relink(alloc, "R002", true)?;
    second.aliases.push(name("C"))?;
    assert_eq!(rt;
        statements_text(alloc, &second)?.as_slice(),
        b" INCLUDE SYSLMOD(OVL)\n OVERLAY P001\n INSERT A\n OVERLAY R002(REGION)\n INSERT B\n ALIAS C\n NAME OVL(R)\n".as_slice()
    );
    Ok(())
}

/// Lines as cards: their text from column 1, and blanks up to column 80.
fn cards_of(alloc: Global, lines: &[u8]) -> Result<Vec<u8>, Memory> {
    let mut cards = Vec::new(alloc);
    for c in lines {
        if *c == b'\n' {
            for _ in 0..80 {
                if cards.len() % 80 != 0 {
                    cards.push(0x40)?;
                }
            }
        } else {
            cards.push(from_ascii(*c).unwrap_or(0))?;
        }
    }
    Ok(cards)
}

#[test]
fn cards_have_the_text_of_the_lines(rt: HostRuntime) -> Result<(), Fail> {
    let alloc = rt.alloc();
    let mut member = relink(alloc, "R002", true)?;
    member.aliases.push(name("ALIAS_8#"))?;
    let cards = statement_cards(alloc, &member)?;
    assert_eq!(rt; cards.len(), 560);
    let lines = statements_text(alloc, &member)?;
    assert_eq!(rt;
        cards.as_slice(),
        cards_of(alloc, lines.as_slice())?.as_slice()
    );
    Ok(())
}

fn first_statement(alloc: Global, cards: &[[u8; 80]]) -> Option<(Statement, usize)> {
    if cards.is_empty() {
        return None;
    }
    read_statement(alloc, cards).ok()
}

#[test]
fn the_first_and_the_last_card_are_read_again(rt: HostRuntime) -> Result<(), Fail> {
    let alloc = rt.alloc();
    let cards = statement_cards(alloc, &relink(alloc, "P001", false)?)?;
    let mut members = Items::new(alloc);
    members.push(name("OVL"))?;
    let mut items = Items::new(alloc);
    items.push(IncludeItem {
        dd: name("SYSLMOD"),
        members,
    })?;
    let cards = cards.as_slice().as_chunks::<80>().0;
    assert_eq!(rt; cards.len(), 6);
    assert_eq!(rt;
        first_statement(alloc, &cards[..1]),
        Some((Statement::Include(items), 1))
    );
    assert_eq!(rt;
        first_statement(alloc, &cards[5..]),
        Some((Statement::NameOf(name("OVL"), true), 1))
    );
    Ok(())
}

#[test]
fn a_code_without_a_character_is_a_point(rt: HostRuntime) -> Result<(), Fail> {
    let alloc = rt.alloc();
    let odd = Relink {
        member: Name([0xC1, 0x81, 0x40, 0xC2, 0x40, 0x40, 0x40, 0x40]),
        aliases: Items::new(alloc),
        segments: Items::new(alloc),
    };
    assert_eq!(rt;
        statements_text(alloc, &odd)?.as_slice(),
        b" INCLUDE SYSLMOD(A. B)\n NAME A. B(R)\n".as_slice()
    );
    let cards = statement_cards(alloc, &odd)?;
    let operand = [0xC1, 0x4B, 0x40, 0xC2, 0x5D];
    assert_eq!(rt; cards.as_slice().get(17..22), Some(operand.as_slice()));
    Ok(())
}

fn place(text: &str, offset: u32) -> Place {
    Place {
        section: name(text),
        offset,
    }
}

#[test]
fn events_are_printed_with_addresses_of_six_or_eight_digits(rt: HostRuntime) -> Result<(), Fail> {
    let mut line = [0; LONGEST_EVENT_LINE];
    let end = call_line(&place("ROOT", 0), 0x1050, &mut line);
    assert_eq!(rt; &line[..end], b"CALL ROOT+000000 = 001050\n".as_slice());
    let end = call_line(&place("ROOT", 4), 0x0100_0000, &mut line);
    assert_eq!(rt; &line[..end], b"CALL ROOT+000004 = 01000000\n".as_slice());
    let end = store_line(&place("A", 4), &[0x01, 0xFE], &mut line);
    assert_eq!(rt; &line[..end], b"STORE A+000004 01fe\n".as_slice());
    let end = dump_head(&name("A"), &mut line);
    assert_eq!(rt; &line[..end], b"DUMP A\n".as_slice());
    Ok(())
}

#[test]
fn the_longest_lines_of_events(rt: HostRuntime) -> Result<(), Fail> {
    let mut line = [0; LONGEST_EVENT_LINE];
    let end = where_line(&[1, 2], &mut line);
    assert_eq!(rt; &line[..end], b"WHERE 1 2\n".as_slice());
    assert_eq!(rt; where_line(&[255; 255], &mut line), LONGEST_EVENT_LINE);
    assert_eq!(rt;
        store_line(&place("ABCDEFGH", 0xFF_FFFF), &[0; 256], &mut line),
        535
    );
    Ok(())
}
