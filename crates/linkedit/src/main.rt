//! `linkedit command KEY=value ..`: links object decks into a load module, and fetches load modules.
//!
//! The line that a command prints goes to standard output. Standard error has a line more where the words of the
//! command line are bad, where a call of the outside failed, and where memory ran out.
#![tactic(auto)]

use le_bytes::Name;
use le_io::{FileStore, OutSink};
use linkedit_top::{Fault, Status, linkedit};
use map_list::name_text;
use std::process::ExitCode;
use std::{env, io, str};

fn main(rt: HostRuntime) -> ExitCode {
    let status = run(&rt);
    // Standard error is the last resort: where it cannot be written, the exit status alone tells.
    let _ = explain(&rt, status);
    ExitCode::from(status.exit())
}

/// Does what the words of the command line ask for, on the files of the host and standard output.
fn run(rt: &HostRuntime) -> Status {
    match words(rt) {
        Ok(words) => {
            let mut store = FileStore::new(rt.alloc(), rt);
            let mut print = OutSink::new(rt);
            linkedit(rt.alloc(), &words, &mut store, &mut print)
        }
        Err(_) => Status::Memory,
    }
}

/// The words after the program's own name.
fn words(rt: &HostRuntime) -> io::Result<Vec<String>> {
    let mut words = Vec::new(rt.alloc());
    for word in env::args(rt)?.skip(1) {
        words.push(word)?;
    }
    Ok(words)
}

/// Writes on standard error what standard output does not say: the commands after a bad word, the call of the
/// outside that failed, and that memory ran out.
fn explain(rt: &impl Eprint, status: Status) -> io::Result<()> {
    match status {
        Status::BadWords(_, _) => eprintln!(rt;
            "usage: linkedit link|go|fetch|list|replay|gen|migrate|ldr|ahead|tasks KEY=value .. (see man linkedit)"
        ),
        Status::Fault(Fault::Read(dd)) => explain_set(rt, "reading", &dd),
        Status::Fault(Fault::Write(dd)) => explain_set(rt, "writing", &dd),
        Status::Fault(Fault::Print) => eprintln!(rt;
            "linkedit: printing on standard output failed"
        ),
        Status::Memory => eprintln!(rt; "linkedit: out of memory"),
        Status::Done | Status::DoneWithUnresolved | Status::Refused(_) | Status::NotBuilt(_) => Ok(
            (),
        ),
    }
}

/// Writes on standard error which data set could not be read or written.
fn explain_set(rt: &impl Eprint, call: &str, dd: &Name) -> io::Result<()> {
    let (text, written) = name_text(dd);
    let name = str::from_utf8(&text[..written]).unwrap_or("");
    eprintln!(rt; "linkedit: {call} the data set {name} failed")
}
