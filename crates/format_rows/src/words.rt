//! The words of whole command lines.
use command_words::{AreaRange, BadWord, Command, data_set_in, keys, read_words};
use le_bytes::{Name, WordWhat};
use std::alloc::{AllocError, Global};
use std::process::Abort;
use std::test::Fail;

/// The words of a line, cut at its blanks.
fn words_of(alloc: Global, line: &str) -> Result<Vec<String>, AllocError> {
    let mut words = Vec::new(alloc);
    for word in line.split(' ') {
        if !word.is_empty() {
            words.push(String::from_str(alloc, word)?)?;
        }
    }
    Ok(words)
}

/// What is wrong with the words of a line, and where.
fn fault_of(alloc: Global, line: &str) -> Result<Option<BadWord>, AllocError> {
    Ok(read_words(words_of(alloc, line)?.as_slice()).err())
}

/// Whether the words of a line are refused so.
fn assert_refused(
    rt: &impl Abort,
    alloc: Global,
    line: &str,
    word: usize,
    what: WordWhat,
) -> Result<(), AllocError> {
    assert_eq!(rt;
        fault_of(alloc, line)?,
        Some(BadWord { word, what }),
        "{line}"
    );
    Ok(())
}

#[test]
fn bad_words_are_told(rt: HostRuntime) -> Result<(), Fail> {
    for (line, word, what) in [
        ("", 1, WordWhat::NoCommand),
        ("lnik SYSLIN=a", 1, WordWhat::UnknownCommand),
        ("LINK SYSLIN=a", 1, WordWhat::UnknownCommand),
        ("link SYSLIN", 2, WordWhat::NotKeyValue),
        ("link SYSLIN=a SYSLMOD=", 3, WordWhat::NotKeyValue),
        ("link =a", 2, WordWhat::NotKeyValue),
        ("link syslin=a", 2, WordWhat::NotKeyValue),
        ("link TOOLONGDD=a", 2, WordWhat::NotKeyValue),
        ("link SYSLIN=a SYSLMOD=b SYSLIN=c", 4, WordWhat::Repeated),
        ("fetch SYSLMOD=a MEMBER=A SYSLIN=b", 4, WordWhat::NotUsed),
        ("link SYSLIN=a SYSLMOD=b ORIGIN=0", 4, WordWhat::NotUsed),
        ("migrate SYSLMOD=a NEWLMOD=b MEMBER=A", 4, WordWhat::NotUsed),
        ("ldr SYSLIN=a SYSLMOD=b", 3, WordWhat::NotUsed),
        ("go SYSLIN=a ORIGIN=0 AREAS=0-8", 4, WordWhat::Excluded),
        ("go SYSLIN=a AREAS=0-8 ORIGIN=0", 4, WordWhat::Excluded),
        ("go SYSLIN=a MEMBER=a", 3, WordWhat::BadValue),
        ("link SYSLIN=a", 3, WordWhat::Missing(keys::SYSLMOD)),
        ("link", 2, WordWhat::Missing(keys::SYSLIN)),
        (
            "list SYSLMOD=a SYSPUNCH=b",
            4,
            WordWhat::Missing(keys::MEMBER),
        ),
        ("replay EVENTS=e", 3, WordWhat::Missing(keys::SYSLMOD)),
        (
            "ahead SYSLMOD=a EVENTS=e",
            4,
            WordWhat::Missing(keys::MEMBER),
        ),
        ("gen", 2, WordWhat::Missing(keys::PARM)),
        ("migrate SYSLMOD=a", 3, WordWhat::Missing(keys::NEWLMOD)),
        ("tasks SYSLMOD=a TASKS=b", 4, WordWhat::Missing(keys::AREAS)),
        ("link A B=c SYSLIN=a", 2, WordWhat::NotKeyValue),
    ] {
        assert_refused(&rt, rt.alloc(), line, word, what)?;
    }
    Ok(())
}

#[test]
fn values_have_their_forms(rt: HostRuntime) -> Result<(), Fail> {
    for (line, is_good) in [
        ("gen PARM=1", true),
        ("gen PARM=20000", true),
        ("gen PARM=0", false),
        ("gen PARM=01", false),
        ("gen PARM=20001", false),
        ("gen PARM=1a", false),
        ("go SYSLIN=a ORIGIN=1", true),
        ("go SYSLIN=a ORIGIN=00FFff", true),
        ("go SYSLIN=a ORIGIN=1234567", false),
        ("go SYSLIN=a ORIGIN=G", false),
        ("go SYSLIN=a AREAS=0-8,8-10,FF0-ffffff", true),
        ("go SYSLIN=a AREAS=0-8,7-10", false),
        ("go SYSLIN=a AREAS=8-8", false),
        ("go SYSLIN=a AREAS=0-8,", false),
        ("go SYSLIN=a AREAS=0-1000000", false),
        ("tasks SYSLMOD=a TASKS=b AREAS=1000-1003", true),
        ("tasks SYSLMOD=a TASKS=b AREAS=1004-1010", false),
        ("tasks SYSLMOD=a TASKS=b AREAS=0-8,8-10", false),
        (
            "link SYSLIN=a SYSLMOD=b PARM=MAP,XREF,LET,NCAL,XCAL,OVLY,DCBS,MAP",
            true,
        ),
        ("link SYSLIN=a SYSLMOD=b PARM=SCTR,RENT", true),
        ("link SYSLIN=a SYSLMOD=b PARM=OVLY,SCTR", false),
        ("link SYSLIN=a SYSLMOD=b PARM=RENT,MAP,OVLY", false),
        ("link SYSLIN=a SYSLMOD=b PARM=MAP,", false),
        ("link SYSLIN=a SYSLMOD=b PARM=map", false),
        ("ldr SYSLIN=a SYSLIB=b PARM=MAP,LET,NCAL ORIGIN=0", true),
        ("ldr SYSLIN=a PARM=XREF", false),
    ] {
        assert_eq!(rt; fault_of(rt.alloc(), line)?.is_none(), is_good, "{line}");
    }
    Ok(())
}

#[test]
fn good_words_are_understood(rt: HostRuntime) -> Result<(), Fail> {
    let line = "go SYSLIN=a=b EVENTS=e AREAS=10-20,20-f00 PARM=LET,OVLY MEMBER=M1";
    let words = words_of(rt.alloc(), line)?;
    let request = read_words(words.as_slice()).ok().ok_or("good words")?;
    assert_eq!(rt; request.command, Command::Go);
    assert_eq!(rt; request.path(keys::SYSLIN), Some("a=b"));
    assert_eq!(rt; request.path(keys::SYSLIB), None);
    assert_eq!(rt; request.path(keys::PARM), None);
    assert_eq!(rt;
        request.module_name(),
        Name::from_text("M1").ok_or("a name")?
    );
    assert_eq!(rt; request.origin(), 0);
    let areas = request.areas(rt.alloc()).ok().ok_or("memory")?;
    let wanted = [
        AreaRange {
            from: 0x10,
            to: 0x20,
        },
        AreaRange {
            from: 0x20,
            to: 0xf00,
        },
    ];
    assert_eq!(rt; areas.as_slice(), wanted.as_slice());
    let options = request.options();
    assert!(rt; options.let_on && options.ovly && !options.map && !options.ncal);
    let set = data_set_in("EVENTS=e").ok_or("a data set")?;
    assert_eq!(rt; (set.dd, set.path), (keys::EVENTS, "e"));
    assert!(rt; data_set_in("PARM=LET,OVLY").is_none());
    Ok(())
}

#[test]
fn what_is_not_given_has_a_default(rt: HostRuntime) -> Result<(), Fail> {
    let words = words_of(rt.alloc(), "ldr SYSLIN=a ORIGIN=00fFfE")?;
    let request = read_words(words.as_slice()).ok().ok_or("good words")?;
    assert_eq!(rt; request.origin(), 0xfffe);
    assert_eq!(rt; request.member(), None);
    assert_eq!(rt; request.module_name(), keys::TEMPNAME);
    assert!(rt; !request.options().map);
    let words = words_of(rt.alloc(), "gen PARM=20000")?;
    let request = read_words(words.as_slice()).ok().ok_or("good words")?;
    assert_eq!(rt; request.size(), 20_000);
    let words = words_of(rt.alloc(), "tasks SYSLMOD=a TASKS=b AREAS=1000-1003")?;
    let request = read_words(words.as_slice()).ok().ok_or("good words")?;
    assert_eq!(rt;
        request.storage(),
        AreaRange {
            from: 0x1000,
            to: 0x1003
        }
    );
    Ok(())
}

#[test]
fn keys_are_their_texts(rt: HostRuntime) {
    for (text, name) in [
        ("PARM", keys::PARM),
        ("MEMBER", keys::MEMBER),
        ("ORIGIN", keys::ORIGIN),
        ("AREAS", keys::AREAS),
        ("SYSLIN", keys::SYSLIN),
        ("SYSLMOD", keys::SYSLMOD),
        ("SYSLIB", keys::SYSLIB),
        ("SYSPUNCH", keys::SYSPUNCH),
        ("EVENTS", keys::EVENTS),
        ("NEWLMOD", keys::NEWLMOD),
        ("TASKS", keys::TASKS),
        ("TEMPNAME", keys::TEMPNAME),
    ] {
        assert_eq!(rt; Name::from_text(text), Some(name));
    }
}
