//! Bad words, words for what is not built, and sets that are not there.
use crate::script::play;
use std::test::Fail;

#[test]
fn each_bad_word_has_its_line(rt: HostRuntime) -> Result<(), Fail> {
    let script = "
    case
    run
    > WORDS 1 NOCOMMAND
    exit 12
    run lnik SYSLIN=d
    > WORDS 1 UNKNOWNCOMMAND
    exit 12
    run GO SYSLIN=d
    > WORDS 1 UNKNOWNCOMMAND
    exit 12
    run go SYSLIN
    > WORDS 2 NOTKEYVALUE
    exit 12
    run go SYSLIN=
    > WORDS 2 NOTKEYVALUE
    exit 12
    run go SYSLIN=d NINELONGS=x
    > WORDS 3 NOTKEYVALUE
    exit 12
    run go SYSLIN=d SYSLIN=e
    > WORDS 3 REPEATED
    exit 12
    run fetch SYSLMOD=l MEMBER=M SYSLIN=d
    > WORDS 4 NOTUSED
    exit 12
    run link SYSLIN=d SYSLMOD=l ORIGIN=0
    > WORDS 4 NOTUSED
    exit 12
    run go SYSLIN=d AREAS=1-2 ORIGIN=0
    > WORDS 4 EXCLUDED
    exit 12
    run go SYSLIN=d ORIGIN=0 AREAS=1-2
    > WORDS 4 EXCLUDED
    exit 12
    run go SYSLIN=d ORIGIN=0001000
    > WORDS 3 BADVALUE
    exit 12
    run go SYSLIN=d ORIGIN=100G
    > WORDS 3 BADVALUE
    exit 12
    run go SYSLIN=d MEMBER=NINECHARS
    > WORDS 3 BADVALUE
    exit 12
    run go SYSLIN=d MEMBER=1A
    > WORDS 3 BADVALUE
    exit 12
    run go SYSLIN=d AREAS=8-8
    > WORDS 3 BADVALUE
    exit 12
    run link SYSLIN=d SYSLMOD=l PARM=OVLY,SCTR
    > WORDS 4 BADVALUE
    exit 12
    run gen PARM=20001
    > WORDS 2 BADVALUE
    exit 12
    run link SYSLIN=d
    > WORDS 3 MISSING SYSLMOD
    exit 12
    run list SYSLMOD=l SYSPUNCH=p
    > WORDS 4 MISSING MEMBER
    exit 12
    run replay SYSLMOD=l MEMBER=M
    > WORDS 4 MISSING EVENTS
    exit 12
    run go ORIGIN=G SYSLIN=d SYSLIN
    > WORDS 2 BADVALUE
    exit 12
    run go SYSLIN=d ORIGIN=0 ORIGIN=0001000
    > WORDS 4 REPEATED
    exit 12
    ";
    play(rt.alloc(), &rt, script)
}

#[test]
fn what_is_not_built_is_refused_and_so_is_an_absent_set(rt: HostRuntime) -> Result<(), Fail> {
    let script = "
    case a deck without text
    file d ESD 0010 .. 0001 A 00000000.000008 / END /
    run link SYSLIN=d
    > WORDS 3 MISSING SYSLMOD
    exit 12
    run go SYSLIN=d SYSLIN=d
    > WORDS 3 REPEATED
    exit 12
    run go SYSLIN=d AREAS=1-2 ORIGIN=0
    > WORDS 4 EXCLUDED
    exit 12
    run link SYSLIN=d SYSLMOD=l XLIB=l
    > REFUSED NOTBUILT
    exit 8
    run go SYSLIN=d EVENTS=M
    > REFUSED NOTBUILT
    exit 8
    run go SYSLIN=d AREAS=0-100
    > REFUSED NOTBUILT
    exit 8
    run go SYSLIN=d SYSLIB=l PARM=LET
    > REFUSED NOTBUILT
    exit 8
    run go SYSLIN=d PARM=LET,MAP
    > REFUSED NOTBUILT
    exit 8
    run go SYSLIN=d PARM=NCAL
    > REFUSED NOTBUILT
    exit 8
    run go SYSLIN=d PARM=LET,
    > WORDS 3 BADVALUE
    exit 12
    run go SYSLIN=e
    > REFUSED SET SYSLIN ABSENT
    exit 8
    ";
    play(rt.alloc(), &rt, script)
}
