//! Cases as lines of text.
use crate::bytes::bytes_of;
use crate::stage::Stage;
use command_words::keys::{SYSLIN, SYSLMOD};
use le_io::Store;
use linkedit_top::{Fault, Status};
use std::alloc::Global;
use std::process::Abort;
use std::test::Fail;

/// Plays a script, line by line. Blanks at both ends of a line count for nothing.
///
/// | Line | Meaning |
/// |---|---|
/// | `case ..` | there are no files |
/// | `file PATH WORDS` | the file at this path has these bytes ([`bytes_of`]) |
/// | `byte PATH N HH` | its byte at N, from 0, is HH |
/// | `cut PATH N` | it ends after N bytes |
/// | `fails N` | the N-th call of the store fails in the next run |
/// | `run WORDS` | runs a command |
/// | `> TEXT` | the run printed this line next |
/// | `exit N` | it printed no more, and its exit number is N |
/// | `fault WHAT` | it printed no more, and this call of the outside failed |
/// | `kept` | no file has other bytes than before the run |
/// | `holds PATH WORDS` | the file at this path has these bytes now |
/// | `absent PATH` | there is no file at this path |
pub(crate) fn play(alloc: Global, rt: &impl Abort, script: &str) -> Result<(), Fail> {
    let mut stage = Stage::new(alloc);
    for line in script.lines() {
        let line = line.trim();
        let (word, rest) = line.split_once(' ').unwrap_or((line, ""));
        if word == "case" {
            stage = Stage::new(alloc);
        } else if !prepares(alloc, &mut stage, word, rest)? {
            assert!(rt; is_so(alloc, &mut stage, word, rest)?, "{line}");
        }
    }
    Ok(())
}

/// Takes a line that sets something up or runs a command; whether it is one.
fn prepares(alloc: Global, stage: &mut Stage, word: &str, rest: &str) -> Result<bool, Fail> {
    match word {
        "" => {}
        "file" => stage.put(alloc, rest)?,
        "byte" => alter(alloc, stage, rest)?,
        "cut" => cut(alloc, stage, rest)?,
        "fails" => stage.failing_call = rest.parse::<u64>()?,
        "run" => stage.run(alloc, rest)?,
        _ => return Ok(false),
    }
    Ok(true)
}

/// Sets one byte of a file.
fn alter(alloc: Global, stage: &mut Stage, text: &str) -> Result<(), Fail> {
    let (path, rest) = text.split_once(' ').ok_or("path")?;
    let (at, byte) = rest.split_once(' ').ok_or("place")?;
    let mut bytes = stage.file(alloc, path)?;
    let new = bytes_of(alloc, byte)?;
    let at = at.parse::<usize>()?;
    let place = bytes.get_mut(at).ok_or("no such byte")?;
    *place = *new.first().ok_or("byte")?;
    stage.disk.put(path, bytes.as_slice())?;
    Ok(())
}

/// Leaves so many bytes of a file.
fn cut(alloc: Global, stage: &mut Stage, text: &str) -> Result<(), Fail> {
    let (path, length) = text.split_once(' ').ok_or("path")?;
    let mut bytes = stage.file(alloc, path)?;
    bytes.truncate(length.parse::<usize>()?);
    stage.disk.put(path, bytes.as_slice())?;
    Ok(())
}

/// Whether a line tells the truth of the last run.
fn is_so(alloc: Global, stage: &mut Stage, word: &str, rest: &str) -> Result<bool, Fail> {
    match word {
        ">" => Ok(stage.next_line() == Some(rest.as_bytes())),
        "exit" => Ok(stage.untold().is_empty() && stage.status.exit() == rest.parse::<u8>()?),
        "fault" => Ok(stage.untold().is_empty() && fault(rest) == Some(stage.status)),
        "kept" => Ok(!stage.changed),
        "holds" => holds(alloc, stage, rest),
        "absent" => Ok(stage.disk.bytes(rest).is_none()),
        _ => Ok(false),
    }
}

/// The status of a run that this call of the outside ended.
fn fault(call: &str) -> Option<Status> {
    match call {
        "read SYSLIN" => Some(Status::Fault(Fault::Read(SYSLIN))),
        "read SYSLMOD" => Some(Status::Fault(Fault::Read(SYSLMOD))),
        "write SYSLMOD" => Some(Status::Fault(Fault::Write(SYSLMOD))),
        _ => None,
    }
}

/// Whether the file at the path that is the first word has the bytes of the others.
fn holds(alloc: Global, stage: &Stage, text: &str) -> Result<bool, Fail> {
    let (path, words) = text.split_once(' ').unwrap_or((text, ""));
    let bytes = bytes_of(alloc, words)?;
    Ok(stage.disk.bytes(path) == Some(bytes.as_slice()))
}
