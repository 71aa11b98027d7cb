//! Statements by their cards.
use ctl_cards::{IncludeItem, LibraryItem, Statement, StmtFault, read_statement};
use le_bytes::{Items, Name, from_ascii};
use std::alloc::{AllocError, Global};
use std::test::Fail;

/// A card with this text from column 1.
fn card(text: &str) -> [u8; 80] {
    let mut made = [0x40; 80];
    for (i, c) in text.as_bytes().iter().enumerate() {
        if i < 80 {
            made[i] = from_ascii(*c).unwrap_or(0);
        }
    }
    made
}

/// The same with a character in column 72.
fn continued(text: &str) -> [u8; 80] {
    let mut made = card(text);
    made[71] = 0xE7;
    made
}

fn name(text: &str) -> Name {
    Name::from_text(text).unwrap_or(Name::BLANK)
}

fn names(alloc: Global, texts: &[&str]) -> Result<Items<Name>, AllocError> {
    let mut made = Items::new(alloc);
    for text in texts {
        made.push(name(text))?;
    }
    Ok(made)
}

fn fault(alloc: Global, cards: &[[u8; 80]]) -> Option<StmtFault> {
    if cards.is_empty() {
        return None;
    }
    match read_statement(alloc, cards) {
        Ok(_read) => None,
        Err(e) => Some(e),
    }
}

#[test]
fn one_name_operands_and_words(rt: HostRuntime) -> Result<(), Fail> {
    let alloc = rt.alloc();
    let table = [
        (" ENTRY START", Statement::Entry(name("START"))),
        (" NAME A", Statement::NameOf(name("A"), false)),
        (
            "  NAME  PROG(R)  COMMENT",
            Statement::NameOf(name("PROG"), true),
        ),
        (" OVERLAY ONE", Statement::Overlay(name("ONE"), false)),
        (
            " OVERLAY A_B(REGION)",
            Statement::Overlay(name("A_B"), true),
        ),
        (
            " ENTRY                                                         ABCDEFGH",
            Statement::Entry(name("ABCDEFGH")),
        ),
    ];
    for (text, expected) in table {
        assert_eq!(rt;
            read_statement(alloc, &[card(text)]),
            Ok((expected, 1)),
            "{text}"
        );
    }
    Ok(())
}

/// Whether the card with this text is read as this statement, whole.
fn is_read_as(alloc: Global, text: &str, statement: Statement) -> bool {
    read_statement(alloc, &[card(text)]) == Ok((statement, 1))
}

#[test]
fn lists_have_one_item_or_several(rt: HostRuntime) -> Result<(), Fail> {
    let alloc = rt.alloc();
    let alias = Statement::Alias(names(alloc, &["A"])?);
    assert!(rt; is_read_as(alloc, " ALIAS A", alias));
    let insert = Statement::Insert(names(alloc, &["S1", "S2", "S_3"])?);
    assert!(rt; is_read_as(alloc, " INSERT S1,S2,S_3", insert));

    let mut includes = Items::new(alloc);
    includes.push(IncludeItem {
        dd: name("D"),
        members: names(alloc, &["M"])?,
    })?;
    assert!(rt; is_read_as(alloc, "   INCLUDE   D(M)  ", Statement::Include(includes)));

    let mut libraries = Items::new(alloc);
    libraries.push(LibraryItem::From(name("L"), names(alloc, &["A", "B"])?))?;
    assert!(rt; is_read_as(alloc, " LIBRARY L(A,B)", Statement::Library(libraries)));

    let mut edits = Items::new(alloc);
    edits.push((name("A"), Some(name("B"))))?;
    assert!(rt; is_read_as(alloc, " REPLACE A(B)", Statement::Replace(edits)));

    let mut changes = Items::new(alloc);
    changes.push((name("A"), name("B")))?;
    changes.push((name("B"), name("A")))?;
    changes.push((name("C"), name("C")))?;
    assert!(rt; is_read_as(alloc, " CHANGE A(B),B(A),C(C)", Statement::Change(changes)));
    Ok(())
}

#[test]
fn lists_are_read_in_order(rt: HostRuntime) -> Result<(), Fail> {
    let alloc = rt.alloc();
    let alias = Statement::Alias(names(alloc, &["A", "B", "C"])?);
    assert_eq!(rt;
        read_statement(alloc, &[card(" ALIAS A,B,C")]),
        Ok((alias, 1))
    );
    let insert = Statement::Insert(names(alloc, &["S1"])?);
    assert_eq!(rt;
        read_statement(alloc, &[card(" INSERT S1 X")]),
        Ok((insert, 1))
    );

    let mut includes = Items::new(alloc);
    includes.push(IncludeItem {
        dd: name("D"),
        members: Items::new(alloc),
    })?;
    includes.push(IncludeItem {
        dd: name("E"),
        members: names(alloc, &["M", "N"])?,
    })?;
    let include = Statement::Include(includes);
    assert_eq!(rt;
        read_statement(alloc, &[card(" INCLUDE D,E(M,N)")]),
        Ok((include, 1))
    );

    let mut libraries = Items::new(alloc);
    libraries.push(LibraryItem::From(name("L"), names(alloc, &["A"])?))?;
    libraries.push(LibraryItem::NoCall(names(alloc, &["B", "C"])?))?;
    libraries.push(LibraryItem::NeverCall(names(alloc, &["D"])?))?;
    let library = Statement::Library(libraries);
    assert_eq!(rt;
        read_statement(alloc, &[card(" LIBRARY L(A),(B,C),*(D)")]),
        Ok((library, 1))
    );

    let mut edits = Items::new(alloc);
    edits.push((name("A"), None))?;
    edits.push((name("B"), Some(name("C"))))?;
    assert_eq!(rt;
        read_statement(alloc, &[card(" REPLACE A,B(C)")]),
        Ok((Statement::Replace(edits), 1))
    );
    let mut changes = Items::new(alloc);
    changes.push((name("A"), name("B")))?;
    assert_eq!(rt;
        read_statement(alloc, &[card(" CHANGE A(B)")]),
        Ok((Statement::Change(changes), 1))
    );
    Ok(())
}

#[test]
fn faults_and_their_places(rt: HostRuntime) {
    let table = [
        (" ENTRY ABCDEFGHI", StmtFault::BadOperand(9)),
        (" ENTRY 1A", StmtFault::BadOperand(1)),
        (" ENTRY a", StmtFault::BadOperand(1)),
        (" ENTRY A,B", StmtFault::BadOperand(2)),
        (" INCLUDE", StmtFault::BadOperand(1)),
        (" INCLUDE A()", StmtFault::BadOperand(3)),
        (" INCLUDE A(B", StmtFault::BadOperand(4)),
        (" INCLUDE A,,B", StmtFault::BadOperand(3)),
        (" INSERT A(B)", StmtFault::BadOperand(2)),
        (" LIBRARY A", StmtFault::BadOperand(2)),
        (" LIBRARY *A", StmtFault::BadOperand(2)),
        (" CHANGE A(B),C", StmtFault::BadOperand(7)),
        (" REPLACE A(B,C)", StmtFault::BadOperand(4)),
        (" NAME S(X)", StmtFault::BadOperand(3)),
        (" NAME S(R", StmtFault::BadOperand(4)),
        (" OVERLAY S(REGIONS)", StmtFault::BadOperand(9)),
        (" entry A", StmtFault::UnknownOperation),
        (" LINK A", StmtFault::UnknownOperation),
        (
            " ALIAS A,B,C,D,E,F,G,H,I,J,K,L,M,N,O,P,Q",
            StmtFault::TooMany,
        ),
    ];
    for (text, expected) in table {
        assert_eq!(rt; fault(rt.alloc(), &[card(text)]), Some(expected), "{text}");
    }
    assert_eq!(rt;
        fault(
            rt.alloc(),
            &[card(" ALIAS A,B,C,D,E,F,G,H,I,J,K,L,M,N,O,P")]
        ),
        None
    );
}

#[test]
fn continuations(rt: HostRuntime) -> Result<(), Fail> {
    let alloc = rt.alloc();
    let first = continued(" ALIAS A,");
    let alias = Statement::Alias(names(alloc, &["A", "B"])?);
    let cards = [first, card("               B"), card(" ENTRY C")];
    assert_eq!(rt; read_statement(alloc, &cards), Ok((alias, 2)));

    let missing = Some(StmtFault::NoContinuation(1));
    assert_eq!(rt;
        fault(alloc, &[first, card("              B")]),
        missing,
        "column 15"
    );
    assert_eq!(rt; fault(alloc, &[first]), missing);
    let late = fault(alloc, &[first, card("                B")]);
    assert_eq!(rt; late, Some(StmtFault::BadOperand(3)), "column 17");

    let mut many = [continued(""); 33];
    many[0] = continued(" ENTRY A");
    assert_eq!(rt; fault(alloc, &many), Some(StmtFault::TooMany));
    many[31] = card("");
    assert_eq!(rt;
        read_statement(alloc, &many),
        Ok((Statement::Entry(name("A")), 32))
    );
    Ok(())
}
