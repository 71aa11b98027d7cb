//! Calls of the outside that fail, one after the other, and inputs too long for a script.
use crate::bytes::bytes_of;
use crate::script::play;
use crate::stage::Stage;
use le_io::Store;
use linkedit_top::{Fault, Status};
use std::alloc::Global;
use std::test::Fail;

#[test]
fn each_failing_call_of_the_store_is_a_fault_of_its_own(rt: HostRuntime) -> Result<(), Fail> {
    let script = "
    case two reads of SYSLIN, and no call after them
    file d $self
    fails 1
    run go SYSLIN=d ORIGIN=001000
    fault read SYSLIN
    fails 2
    run go SYSLIN=d ORIGIN=001000
    fault read SYSLIN
    fails 3
    run go SYSLIN=d ORIGIN=001000
    > LINKED TEMPNAME LENGTH 000008 ENTRY 000000
    > ENTRY 001000
    > 001000 0000000000001004
    exit 0

    case two reads of SYSLIN, one of SYSLMOD, which is not there, and its put
    file d $self
    fails 1
    run link SYSLIN=d SYSLMOD=l
    fault read SYSLIN
    kept
    fails 2
    run link SYSLIN=d SYSLMOD=l
    fault read SYSLIN
    kept
    fails 3
    run link SYSLIN=d SYSLMOD=l
    fault read SYSLMOD
    kept
    fails 4
    run link SYSLIN=d SYSLMOD=l
    fault write SYSLMOD
    kept
    absent l
    fails 5
    run link SYSLIN=d SYSLMOD=l
    > LINKED TEMPNAME LENGTH 000008 ENTRY 000000
    exit 0
    holds l $library

    case the same of `go`, which reads no set again
    file d $self
    fails 1
    run go SYSLIN=d SYSLMOD=l ORIGIN=001000
    fault read SYSLIN
    kept
    fails 2
    run go SYSLIN=d SYSLMOD=l ORIGIN=001000
    fault read SYSLIN
    kept
    fails 3
    run go SYSLIN=d SYSLMOD=l ORIGIN=001000
    fault read SYSLMOD
    kept
    fails 4
    run go SYSLIN=d SYSLMOD=l ORIGIN=001000
    fault write SYSLMOD
    kept
    absent l
    fails 5
    run go SYSLIN=d SYSLMOD=l ORIGIN=001000
    > LINKED TEMPNAME LENGTH 000008 ENTRY 000000
    > ENTRY 001000
    > 001000 0000000000001004
    exit 0
    holds l $library

    case two reads of each where SYSLMOD is there
    file d $self
    file l $library
    fails 1
    run go SYSLMOD=l SYSLIN=d MEMBER=M
    fault read SYSLMOD
    kept
    fails 2
    run go SYSLMOD=l SYSLIN=d MEMBER=M
    fault read SYSLMOD
    kept
    fails 3
    run go SYSLMOD=l SYSLIN=d MEMBER=M
    fault read SYSLIN
    kept
    fails 4
    run go SYSLMOD=l SYSLIN=d MEMBER=M
    fault read SYSLIN
    kept
    fails 5
    run go SYSLMOD=l SYSLIN=d MEMBER=M
    fault write SYSLMOD
    kept
    fails 6
    run go SYSLMOD=l SYSLIN=d MEMBER=M
    > LINKED M LENGTH 000008 ENTRY 000000
    > ENTRY 000000
    > 000000 0000000000000004
    exit 0
    holds l d7c4e2c9d4c1c7c5 01e40000 00000001 0000000a 003e M 00000106 00000000 08000000 00000001 TEMPNAME 00000606 00000000 08000000 00000001 ffffffffffffffff 00000000 | $records $records

    case two reads of SYSLMOD, and no call after them
    file l $with_alias $records
    fails 1
    run fetch SYSLMOD=l MEMBER=A ORIGIN=001000
    fault read SYSLMOD
    fails 2
    run fetch SYSLMOD=l MEMBER=A ORIGIN=001000
    fault read SYSLMOD
    fails 3
    run fetch SYSLMOD=l MEMBER=A ORIGIN=001000
    > ENTRY 001004
    > 001000 0000000000001004
    exit 0
    ";
    play(rt.alloc(), &rt, script)
}

/// Section A of 8 bytes, with an address constant on itself at 4 that holds 4.
const SELF: &str = "d $self";

#[test]
fn each_failing_write_leaves_a_piece_of_the_text_and_the_put(rt: HostRuntime) -> Result<(), Fail> {
    let alloc = rt.alloc();
    let mut put = Stage::new(alloc);
    put.put(alloc, SELF)?;
    put.run(alloc, "link SYSLIN=d SYSLMOD=l")?;
    let cases = [
        (
            "go SYSLIN=d SYSLMOD=l ORIGIN=001000",
            "LINKED TEMPNAME LENGTH 000008 ENTRY 000000\nENTRY 001000\n001000 0000000000001004\n",
        ),
        (
            "link SYSLIN=d SYSLMOD=l",
            "LINKED TEMPNAME LENGTH 000008 ENTRY 000000\n",
        ),
    ];
    for (line, text) in cases {
        for k in 1..86 {
            let mut stage = Stage::new(alloc);
            stage.put(alloc, SELF)?;
            stage.most = 1;
            stage.failing_write = k;
            stage.run(alloc, line)?;
            let whole = stage.printed.len() == text.len();
            assert_eq!(rt; stage.status == Status::Fault(Fault::Print), !whole);
            assert!(rt; text.as_bytes().starts_with(stage.printed.as_slice()));
            assert!(rt; stage.disk.bytes("l") == put.disk.bytes("l"));
        }
    }
    Ok(())
}

/// 10,837 cards of three private sections without length: 32,511 symbols in one deck.
fn symbols(alloc: Global) -> Result<Vec<u8>, Fail> {
    let mut cards = Vec::new(alloc);
    let names = bytes_of(
        alloc,
        "........ 04000000.000000 ........ 04000000.000000 ........ 04000000.000000 ................",
    )?;
    let head = bytes_of(alloc, "ESD 0030 ..")?;
    for k in 0..10837u16 {
        cards.extend_from_slice(&head)?;
        cards.extend_from_slice(&(3 * k + 1).to_be_bytes())?;
        cards.extend_from_slice(&names)?;
    }
    Ok(cards)
}

#[test]
fn symbols_have_their_limit(rt: HostRuntime) -> Result<(), Fail> {
    let alloc = rt.alloc();
    let end = bytes_of(alloc, "END /")?;
    let one_more = bytes_of(alloc, "ESD 0010 .. 0001 ........ 04000000.000000 / END /")?;
    let mut cards = symbols(alloc)?;
    cards.extend_from_slice(&end)?;
    let mut stage = Stage::new(alloc);
    stage.disk.put("d", cards.as_slice())?;
    stage.run(alloc, "go SYSLIN=d")?;
    assert_eq!(rt; stage.status, Status::Done);
    assert_eq!(rt;
        stage.printed.as_slice(),
        b"LINKED TEMPNAME LENGTH 000000 ENTRY 000000\nENTRY 000000\n".as_slice()
    );
    cards.extend_from_slice(&one_more)?;
    stage.disk.put("d", cards.as_slice())?;
    stage.run(alloc, "go SYSLIN=d")?;
    assert_eq!(rt;
        stage.printed.as_slice(),
        b"REFUSED LIMIT SYMBOLS 32512\n".as_slice()
    );
    Ok(())
}
