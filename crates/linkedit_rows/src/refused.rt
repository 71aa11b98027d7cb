//! Decks that are refused: each fault at its card, the order of refusals, and the limits at their edges.
use crate::script::play;
use std::test::Fail;

#[test]
fn each_fault_of_a_module_is_told_at_its_card(rt: HostRuntime) -> Result<(), Fail> {
    let script = "
    case faults of a card itself
    file d $before 5b /
    run go SYSLIN=d
    > REFUSED CARD SYSLIN 4 UNKNOWNCARD
    exit 8
    file d $before ESD 0010 .. 0001 A 00000000.000008 / 5b /
    run go SYSLIN=d
    > REFUSED CARD SYSLIN 5 UNKNOWNCARD
    exit 8
    file d $before 02c5e2c4......0011.. 0001 A 00000000.000008 /
    run go SYSLIN=d
    > REFUSED CARD SYSLIN 4 BADCOUNT
    exit 8
    file d $before ESD 0010 .. 0001 ........ 02....... /
    run go SYSLIN=d
    > REFUSED CARD SYSLIN 4 BADESDTYPE
    exit 8
    file d $before ESD 0010 .. 0001 A 00000000.000008 / RLD 0008 .... 000100010d000000 /
    run go SYSLIN=d
    > REFUSED CARD SYSLIN 5 BADFLAG
    exit 8

    case ESD
    file d $before ESD 0010 .. 0000 A 00000000.000008 /
    run go SYSLIN=d
    > REFUSED CARD SYSLIN 4 BADESDID
    exit 8
    file d $before ESD 0010 .. 0001 A 00000000.000008 / ESD 0010 .. 0001 X 02....... /
    run go SYSLIN=d
    > REFUSED CARD SYSLIN 5 BADESDID
    exit 8
    file d $before ESD 0020 .. ffff A 00000000.000008 X 02....... /
    run go SYSLIN=d
    > REFUSED CARD SYSLIN 4 BADESDID
    exit 8
    file d $before ESD 0010 .. 0001 $ENTAB 00000000.000008 /
    run go SYSLIN=d
    > REFUSED CARD SYSLIN 4 RESERVEDNAME
    exit 8
    file d $before ESD 0010 .. 0001 A 00000000.000008 / ESD 0010 .. 0002 $ENTAB 01000000..0001 /
    run go SYSLIN=d
    > REFUSED CARD SYSLIN 5 RESERVEDNAME
    exit 8

    case TXT
    file d $before TXT 000000..0001.. 0001 11 / ESD 0010 .. 0001 A 00000000.000008 /
    run go SYSLIN=d
    > REFUSED CARD SYSLIN 4 UNKNOWNESDID
    exit 8
    file d $before ESD 0020 .. 0001 A 00000000.000008 X 02....... / TXT 000000..0001.. 0002 11 /
    run go SYSLIN=d
    > REFUSED CARD SYSLIN 5 UNKNOWNESDID
    exit 8
    file d $before ESD 0010 .. 0001 A 00000000.000008 / TXT 000007..0002.. 0001 1122 /
    run go SYSLIN=d
    > REFUSED CARD SYSLIN 5 TEXTOUTSIDE
    exit 8

    case RLD: the place, what is referred to, the field
    file d $before ESD 0010 .. 0001 A 00000000.000008 / RLD 0008 .... 000100020c000000 /
    run go SYSLIN=d
    > REFUSED CARD SYSLIN 5 UNKNOWNESDID
    exit 8
    file d $before ESD 0010 .. 0001 A 00000000.000008 / RLD 0008 .... 000200010c000000 /
    run go SYSLIN=d
    > REFUSED CARD SYSLIN 5 UNKNOWNESDID
    exit 8
    file d $before ESD 0010 .. 0001 A 00000000.000008 / RLD 0008 .... 000100012c000000 /
    run go SYSLIN=d
    > REFUSED CARD SYSLIN 5 UNKNOWNESDID
    exit 8
    file d $before ESD 0020 .. 0001 A 00000000.000008 P1 06...00000001 / RLD 0008 .... 000200010c000000 /
    run go SYSLIN=d
    > REFUSED CARD SYSLIN 5 UNKNOWNESDID
    exit 8
    file d $before ESD 0010 .. 0001 A 00000000.000008 / RLD 0008 .... 000100010c000005 /
    run go SYSLIN=d
    > REFUSED CARD SYSLIN 5 CONSTANTOUTSIDE
    exit 8
    file d $before ESD 0010 .. 0001 A 00000000.000008 / RLD 0008 .... 000100010c000000 / RLD 0008 .... 000100010c000003 /
    run go SYSLIN=d
    > REFUSED CARD SYSLIN 6 CONSTANTSOVERLAP
    exit 8
    file d $before ESD 0010 .. 0001 A 00000000.000008 / RLD 0010 .... 000100010c000000 000100011c000000 /
    run go SYSLIN=d
    > REFUSED CARD SYSLIN 5 CONSTANTSOVERLAP
    exit 8

    case faults of the tenth card, after more items and terms than are looked through one by one
    file d $large ESD 0010 .. 000a K 02....... /
    run go SYSLIN=d
    > REFUSED CARD SYSLIN 10 BADESDID
    exit 8
    file d $large ESD 0010 .. 0001 K 02....... /
    run go SYSLIN=d
    > REFUSED CARD SYSLIN 10 BADESDID
    exit 8
    file d $large ESD 0020 .. 000b K 02....... $SEGTAB 00000000.000008 /
    run go SYSLIN=d
    > REFUSED CARD SYSLIN 10 RESERVEDNAME
    exit 8
    file d $large TXT 000000..0008.. 000b 0000000000000000 /
    run go SYSLIN=d
    > REFUSED CARD SYSLIN 10 UNKNOWNESDID
    exit 8
    file d $large TXT 000000..0008.. 0002 0000000000000000 /
    run go SYSLIN=d
    > REFUSED CARD SYSLIN 10 UNKNOWNESDID
    exit 8
    file d $large TXT 00002f..0002.. 0001 0000 /
    run go SYSLIN=d
    > REFUSED CARD SYSLIN 10 TEXTOUTSIDE
    exit 8
    file d $large RLD 0008 .... 000b00010c000028 /
    run go SYSLIN=d
    > REFUSED CARD SYSLIN 10 UNKNOWNESDID
    exit 8
    file d $large RLD 0008 .... 000100020c000028 /
    run go SYSLIN=d
    > REFUSED CARD SYSLIN 10 UNKNOWNESDID
    exit 8
    file d $large RLD 0008 .... 000200010c000001 /
    run go SYSLIN=d
    > REFUSED CARD SYSLIN 10 CONSTANTSOVERLAP
    exit 8
    file d $large RLD 0008 .... 000200010c000027 /
    run go SYSLIN=d
    > REFUSED CARD SYSLIN 10 CONSTANTSOVERLAP
    exit 8
    file d $large RLD 0008 .... 0002000108000000 /
    run go SYSLIN=d
    > REFUSED CARD SYSLIN 10 CONSTANTSOVERLAP
    exit 8
    file d $large RLD 0008 .... 000200011c000020 /
    run go SYSLIN=d
    > REFUSED CARD SYSLIN 10 CONSTANTSOVERLAP
    exit 8
    file d $large RLD 0008 .... 000200010c00002d /
    run go SYSLIN=d
    > REFUSED CARD SYSLIN 10 CONSTANTOUTSIDE
    exit 8

    case END: the entry, the labels, and what waited for the length
    file d $before ESD 0010 .. 0001 A 00000000.000008 / END .000000...... 0002 /
    run go SYSLIN=d
    > REFUSED CARD SYSLIN 5 UNKNOWNESDID
    exit 8
    file d $before ESD 0010 .. 0001 A 00000000.000008 / END .000009...... 0001 /
    run go SYSLIN=d
    > REFUSED CARD SYSLIN 5 ENTRYOUTSIDE
    exit 8
    file d $before ESD 0010 .. 0001 A 00000000.000008 / ESD 0010 .. 0002 Q 01000000..0007 / END /
    run go SYSLIN=d
    > REFUSED CARD SYSLIN 6 UNKNOWNESDID
    exit 8
    file d $before ESD 0010 .. 0001 A 00000000.000008 / ESD 0010 .. 0002 Q 01000009..0001 / END /
    run go SYSLIN=d
    > REFUSED CARD SYSLIN 6 LABELOUTSIDE
    exit 8
    file d $before ESD 0010 .. 0001 A 00000000.000000 / TXT 000000..0004.. 0001 01020304 / END ........................00000002 /
    run go SYSLIN=d
    > REFUSED CARD SYSLIN 6 TEXTOUTSIDE
    exit 8
    file d $before ESD 0010 .. 0001 A 00000000.000000 / RLD 0008 .... 000100010c000000 / END ........................00000002 /
    run go SYSLIN=d
    > REFUSED CARD SYSLIN 6 CONSTANTOUTSIDE
    exit 8

    case A deck without its END card
    file d $before ESD 0010 .. 0001 A 00000000.000008 /
    run go SYSLIN=d
    > REFUSED CARD SYSLIN 5 NOEND
    exit 8
    file d $before ESD 0010 .. 0001 A 00000000.000008 / 5c /
    run go SYSLIN=d
    > REFUSED CARD SYSLIN 5 NOEND
    exit 8
    file d $before ESD 0010 .. 0001 A 00000000.000008 / . ENTRY A /
    run go SYSLIN=d
    > REFUSED CARD SYSLIN 5 NOEND
    exit 8

    case what is no deck
    file d $before . ENTRY A /
    run go SYSLIN=d
    > REFUSED CARD SYSLIN 4 NOTBUILT
    exit 8
    file d $before ESD 0010 .. 0001 A 00000000.000008 / END / 5c / . ENTRY A /
    run go SYSLIN=d
    > REFUSED CARD SYSLIN 7 NOTBUILT
    exit 8

    case A second meaning of the first deck's section
    file d $before ESD 0010 .. 0001 A 00000000.000008 / ESD 0010 .. 0002 B 01000000..0001 / END /
    run go SYSLIN=d
    > REFUSED SYMBOL B DOUBLEDEFINITION
    exit 8
    ";
    play(rt.alloc(), &rt, script)
}

#[test]
fn refusals_come_in_their_order(rt: HostRuntime) -> Result<(), Fail> {
    let script = "
    case
    file d
    run go SYSLIN=d
    > REFUSED NOSECTION
    exit 8
    file d 5c / 5c /
    run go SYSLIN=d
    > REFUSED NOSECTION
    exit 8

    case no section before an unresolved name
    file d ESD 0010 .. 0001 X 02....... / END /
    run go SYSLIN=d
    > REFUSED NOSECTION
    exit 8

    case the RLD card of twelve bytes, cut to eight, promises an item that does not come
    file d ESD 0010 .. 0001 A 00000000.000008 / RLD 0008 .... 000100010d000000 / END /
    run go SYSLIN=d
    > REFUSED CARD SYSLIN 2 BADFLAG
    exit 8

    case text past the length that END gives
    file d ESD 0010 .. 0001 A 00000000.000000 / TXT 000000..0004.. 0001 01020304 / END ........................00000002 /
    run go SYSLIN=d
    > REFUSED CARD SYSLIN 3 TEXTOUTSIDE
    exit 8

    case two labels of one name in two kept sections, before the fault of a later card
    file d ESD 0020 .. 0001 MAIN 00000000.000004 Q 01000000..0001 / END / ESD 0020 .. 0001 SUB 00000000.000004 Q 01000004..0001 / END / . ENTRY A /
    run go SYSLIN=d
    > REFUSED SYMBOL Q DOUBLEDEFINITION
    exit 8

    case A label with the name of its own section
    file d ESD 0020 .. 0001 A 00000000.000004 A 01000000..0001 / END /
    run go SYSLIN=d
    > REFUSED SYMBOL A DOUBLEDEFINITION
    exit 8

    case the fault of a later card before a name that stays unresolved
    file d ESD 0020 .. 0001 A 00000000.000004 X 02....... / END / ESD 0010 .. 0001 B 00000000.000004 /
    run go SYSLIN=d
    > REFUSED CARD SYSLIN 4 NOEND
    exit 8

    case an unresolved name before the registers
    file d ESD 0030 .. 0001 A 00000000.000004 P1 06...00ffffff P2 06...00000001 / ESD 0010 .. 0004 X 02....... / END /
    run go SYSLIN=d
    > REFUSED SYMBOL X UNRESOLVED
    exit 8

    case the registers before the length
    file d ESD 0030 .. 0001 A 00000000..0001 P1 06...00ffffff P2 06...00000001 / END /
    run go SYSLIN=d
    > REFUSED LIMIT REGISTERS 16777216
    exit 8

    case A label of a dropped section is none, so that it has no second meaning
    file d ESD 0010 .. 0001 SUB 00000000.000004 / END / ESD 0020 .. 0001 SUB 00000000.000004 SUB 01000000..0001 / END / ESD 0010 .. 0001 X 02....... / END /
    run go SYSLIN=d
    > REFUSED SYMBOL X UNRESOLVED
    exit 8
    ";
    play(rt.alloc(), &rt, script)
}

#[test]
fn a_short_card_is_refused_where_it_is_reached(rt: HostRuntime) -> Result<(), Fail> {
    let script = "
    case an ESD card, a text card and 40 bytes
    file d ESD 0010 .. 0001 A 00000000.000008 / TXT 000000..0008.. 0001 0000000000000004 / 40404040404040404040404040404040404040404040404040404040404040404040404040404040
    run go SYSLIN=d
    > REFUSED CARD SYSLIN 3 SHORTCARD
    exit 8

    case 40 bytes that are no card begun
    file d 02020202020202020202020202020202020202020202020202020202020202020202020202020202
    run go SYSLIN=d
    > REFUSED CARD SYSLIN 1 SHORTCARD
    exit 8
    file d ESD 0010 .. 0001 A 00000000.000008 / END / 02020202020202020202020202020202020202020202020202020202020202020202020202020202
    run go SYSLIN=d
    > REFUSED CARD SYSLIN 3 SHORTCARD
    exit 8
    file d ESD 0010 .. 0001 A 00000000.000008 / END / ESD 0010 .. 0001 B 00000000.000008 / 02020202020202020202020202020202020202020202020202020202020202020202020202020202
    run go SYSLIN=d
    > REFUSED CARD SYSLIN 4 SHORTCARD
    exit 8
    file d ESD 0020 .. 0001 A 00000000.000008 A 01000000..0001 / END / 02020202020202020202020202020202020202020202020202020202020202020202020202020202
    run go SYSLIN=d
    > REFUSED SYMBOL A DOUBLEDEFINITION
    exit 8
    ";
    play(rt.alloc(), &rt, script)
}

#[test]
fn registers_and_lengths_have_their_limits(rt: HostRuntime) -> Result<(), Fail> {
    let script = "
    case
    file d ESD 0020 .. 0001 A 00000000.000004 P1 06...00ffffff / END /
    run go SYSLIN=d ORIGIN=4
    > LINKED TEMPNAME LENGTH 000004 ENTRY 000000
    > REFUSED PLACE BADORIGIN
    exit 8
    file d ESD 0030 .. 0001 A 00000000.000004 P1 06...00ffffff P2 06...00000001 / END /
    run go SYSLIN=d ORIGIN=4
    > REFUSED LIMIT REGISTERS 16777216
    exit 8
    file d ESD 0010 .. 0001 A 00000000..0000 / END /
    run go SYSLIN=d ORIGIN=4
    > LINKED TEMPNAME LENGTH 400000 ENTRY 000000
    > REFUSED PLACE BADORIGIN
    exit 8
    file d ESD 0010 .. 0001 A 00000000..0001 / END /
    run go SYSLIN=d ORIGIN=4
    > REFUSED LIMIT MODULELENGTH 4194305
    exit 8
    ";
    play(rt.alloc(), &rt, script)
}

#[test]
fn cards_that_are_refused_have_their_line(rt: HostRuntime) -> Result<(), Fail> {
    let script = "
    case
    file d 5c /
    run go SYSLIN=d
    > REFUSED NOSECTION
    exit 8
    file d 5c / . ENTRY A /
    run go SYSLIN=d
    > REFUSED CARD SYSLIN 2 NOTBUILT
    exit 8
    file d 5b /
    run go SYSLIN=d
    > REFUSED CARD SYSLIN 1 UNKNOWNCARD
    exit 8
    file d ESD 0010 .. 0001 A 00000000.000008 / TXT 000000..0008.. 0001 0000000000000004 / RLD 0008 .... 000100010c000004 /
    run go SYSLIN=d
    > REFUSED CARD SYSLIN 4 NOEND
    exit 8
    file d ESD 0010 .. 0001 A 00000000.000008 / . ENTRY A /
    run go SYSLIN=d
    > REFUSED CARD SYSLIN 2 NOEND
    exit 8
    file d TXT 000000..0008.. 0001 0000000000000004 /
    run go SYSLIN=d
    > REFUSED CARD SYSLIN 1 UNKNOWNESDID
    exit 8
    file d ESD 0010 .. 0001 A 00000000.000008 / TXT 000100..0008.. 0001 0000000000000104 /
    run go SYSLIN=d
    > REFUSED CARD SYSLIN 2 TEXTOUTSIDE
    exit 8
    file d ESD 0010 .. 0001 A 00000000.000008 / RLD 0010 .... 000100010c000004 000100010c000003 /
    run go SYSLIN=d
    > REFUSED CARD SYSLIN 2 CONSTANTSOVERLAP
    exit 8
    ";
    play(rt.alloc(), &rt, script)
}
