//! The command `link`: what it prints, and what the library then holds.
use crate::script::play;
use std::test::Fail;

#[test]
fn the_member_of_a_deck_goes_into_a_library(rt: HostRuntime) -> Result<(), Fail> {
    let script = "
    case no library: it is made, of 362 bytes
    file d $self
    run link SYSLIN=d SYSLMOD=l
    > LINKED TEMPNAME LENGTH 000008 ENTRY 000000
    exit 0
    holds l $library

    case an empty file
    file d $self
    file l
    run link SYSLMOD=l SYSLIN=d
    > LINKED TEMPNAME LENGTH 000008 ENTRY 000000
    exit 0
    holds l $library

    case a library that has the member already: it is the same again, and keeps its version
    file d $self
    file l $library
    run link SYSLIN=d SYSLMOD=l
    > LINKED TEMPNAME LENGTH 000008 ENTRY 000000
    exit 0
    holds l $library
    kept
    run link SYSLIN=d PARM=DCBS,LET SYSLMOD=l
    > LINKED TEMPNAME LENGTH 000008 ENTRY 000000
    exit 0
    holds l $library
    kept

    case a member of other content is replaced without a NAME statement
    file e ESD 0010 .. 0001 B 00000000.000004 / TXT 000000..0004.. 0001 c2c2c2c2 / END /
    run link SYSLIN=e SYSLMOD=l
    > LINKED TEMPNAME LENGTH 000004 ENTRY 000000
    exit 0
    run fetch SYSLMOD=l MEMBER=TEMPNAME
    > ENTRY 000000
    > 000000 c2c2c2c2
    exit 0
    file d $self
    run link SYSLIN=d SYSLMOD=l
    > LINKED TEMPNAME LENGTH 000008 ENTRY 000000
    exit 0
    holds l $library

    case a second member, which stands first by its name
    file d $self
    file l $library
    run link SYSLIN=d SYSLMOD=l MEMBER=M
    > LINKED M LENGTH 000008 ENTRY 000000
    exit 0
    holds l d7c4e2c9d4c1c7c5 01e40000 00000001 0000000a 003e M 00000106 00000000 08000000 00000001 TEMPNAME 00000606 00000000 08000000 00000001 ffffffffffffffff 00000000 | $records $records

    case a new library of version 2, whose records have four bytes of length
    file d $self
    run link SYSLIN=d SYSLMOD=n PARM=DCBS
    > LINKED TEMPNAME LENGTH 000008 ENTRY 000000
    exit 0
    holds n d7c4e2c9d4c1c7c5 02e40000 00000001 00000005 0026 TEMPNAME 00000106 00000000 08000000 00000001 ffffffffffffffff 00000000 | 00000018 2000000000010010 A 0000000001000008 00000014 01000000000000040600000000000008 00010008 00000008 0000000000000004 00000018 0e000000000800000000000000000000 000100010c000004 00000000
    run fetch SYSLMOD=n MEMBER=TEMPNAME ORIGIN=1000
    > ENTRY 001000
    > 001000 0000000000001004
    exit 0
    ";
    play(rt.alloc(), &rt, script)
}

#[test]
fn a_refusal_puts_nothing(rt: HostRuntime) -> Result<(), Fail> {
    let script = "
    case a library of cards, seven bytes, a deck, a header that is cut off, and one that lies
    file d $self
    file l d7c4e2c9d4c1c7c5 01c60000
    run link SYSLIN=d SYSLMOD=l
    > REFUSED SET SYSLMOD NOTLIBRARY
    exit 8
    kept
    file l d7c4e2c9d4c1c7
    run link SYSLIN=d SYSLMOD=l
    > REFUSED SET SYSLMOD NOTLIBRARY
    exit 8
    kept
    file l 02c5e2c4
    run link SYSLIN=d SYSLMOD=l
    > REFUSED SET SYSLMOD NOTLIBRARY
    exit 8
    kept
    file l d7c4e2c9d4c1c7c5
    run link SYSLIN=d SYSLMOD=l
    > REFUSED LIBRARY SYSLMOD BADHEADER
    exit 8
    kept
    file l d7c4e2c9d4c1c7c5 03e40000 00000001 00000000
    run link SYSLIN=d SYSLMOD=l
    > REFUSED LIBRARY SYSLMOD BADHEADER
    exit 8
    kept

    case the first set in the order of the words
    file d $self
    file l 02c5e2c4
    run link SYSLIN=x SYSLMOD=l
    > REFUSED SET SYSLIN ABSENT
    exit 8
    kept
    file l 02c5e2c4
    run link SYSLMOD=l SYSLIN=x
    > REFUSED SET SYSLMOD NOTLIBRARY
    exit 8
    kept

    case the sets before the cards, and the cards before the program
    file d $self
    file e $wanting
    file l
    run link SYSLIN=e SYSLMOD=l
    > REFUSED SYMBOL X UNRESOLVED
    exit 8
    kept
    file l
    run link SYSLMOD=l SYSLIN=l
    > REFUSED NOSECTION
    exit 8
    kept
    file e . NAME A /
    file l
    run link SYSLIN=e SYSLMOD=l
    > REFUSED CARD SYSLIN 1 NOTBUILT
    exit 8
    kept

    case what is not built
    file d $self
    file l
    run link SYSLIN=d SYSLMOD=l PARM=MAP
    > REFUSED NOTBUILT
    exit 8
    kept
    file l
    run link SYSLIN=d SYSLMOD=l SYSLIB=l
    > REFUSED NOTBUILT
    exit 8
    kept
    file l
    run go SYSLIN=d SYSLMOD=l PARM=RENT
    > REFUSED NOTBUILT
    exit 8
    kept

    case of `go` the same, and nothing is placed
    file d $self
    file l 02c5e2c4
    run go SYSLIN=d SYSLMOD=l
    > REFUSED SET SYSLMOD NOTLIBRARY
    exit 8
    kept
    file e $wanting
    file l
    run go SYSLIN=e SYSLMOD=l ORIGIN=4
    > REFUSED SYMBOL X UNRESOLVED
    exit 8
    kept
    ";
    play(rt.alloc(), &rt, script)
}

#[test]
fn with_let_a_member_is_put_with_unresolved_names(rt: HostRuntime) -> Result<(), Fail> {
    let script = "
    case X is wanting, and W is weak
    file e $wanting
    run link SYSLIN=e SYSLMOD=l PARM=LET
    > LINKED TEMPNAME LENGTH 000008 ENTRY 000000
    > UNRESOLVED X
    exit 4
    run fetch SYSLMOD=l MEMBER=TEMPNAME ORIGIN=8
    > ENTRY 000008
    > 000008 0000000000000000
    exit 0
    ";
    play(rt.alloc(), &rt, script)
}

#[test]
fn go_puts_the_library_and_then_places(rt: HostRuntime) -> Result<(), Fail> {
    let script = "
    case a library and an origin
    file d $self
    run go SYSLIN=d SYSLMOD=l ORIGIN=001000
    > LINKED TEMPNAME LENGTH 000008 ENTRY 000000
    > ENTRY 001000
    > 001000 0000000000001004
    exit 0
    holds l $library

    case the put is done where the origin is refused
    file d $self
    run go ORIGIN=4 SYSLMOD=l SYSLIN=d
    > LINKED TEMPNAME LENGTH 000008 ENTRY 000000
    > REFUSED PLACE BADORIGIN
    exit 8
    holds l $library

    case no library: nothing is put
    file d $self
    run go SYSLIN=d MEMBER=M PARM=DCBS
    > LINKED M LENGTH 000008 ENTRY 000000
    > ENTRY 000000
    > 000000 0000000000000004
    exit 0
    kept
    absent l
    ";
    play(rt.alloc(), &rt, script)
}
