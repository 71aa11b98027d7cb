//! An answer carried out: what it puts is put, and its text printed.
ghost use Rattle.command_words.specs.Seen.{words_of};
ghost use Rattle.std.specs.Prelude.{◌≡◌, true, IfSome, IsSomeAnd};
ghost use Rattle.le_io.specs.Counts.{NoneFalls, WhereTold};
ghost use Rattle.command_words.specs.Keys.{syslmod};
ghost use Rattle.command_sets.specs.Causes.{FilesAfter, IsFinal, KeepsQuiet, PrintedStatus, Prints, SinkHasCause};
ghost use Rattle.command_sets.specs.Libraries.{PutsOutput};
ghost use Rattle.command_sets.specs.Ending.{EndHasCause, EndsAs, PutHasCause, PutTold};
ghost use Rattle.command_sets.specs.Sets.{names_output};

use crate::answer::{Answer, Put};
use crate::reading::path_for;
use crate::status::{Fault, Status};
use command_words::Request;
use command_words::keys::SYSLMOD;
use le_io::{Failed, Sink, Store, write_all};

/// Puts what the answer puts, and then prints its text. Where the put fails nothing is printed.
pub fn carry_out<S: Store, K: Sink>(
    request: &Request<'_>,
    store: &mut S,
    print: &mut K,
    answer: &Answer,
) -> Status
    requires status { IsFinal answer.now.status }
    requires put { PutsOutput (names_output (words_of request.now)) answer.now }
    ensures status { EndsAs answer.now.status result }
    ensures text { WhereTold (K.held print.old) (λ held. Prints held (K.held print.new) answer.now result) }
    ensures quiet { KeepsQuiet (K.held print.old) (K.held print.new) result }
    ensures files { WhereTold (S.told store.old) (λ files. IsSomeAnd (S.told store.new) (λ now. FilesAfter (words_of request.now) files now answer.now result)) }
    ensures counts { NoneFalls (S.counts store.old) (S.counts store.new) }
    ensures store_cause { EndHasCause (S.counts store.old) (S.counts store.new) (words_of request.now) result }
    ensures sink_cause { SinkHasCause (K.faults print.old) (K.faults print.new) result }
{
    match put(request, store, &answer.put) {
        Ok(()) => printed(print, answer),
        Err(_) => Status::Fault(Fault::Write(SYSLMOD)),
    }
}

/// Puts an image at the path of its data set, if there is one to put.
fn put<S: Store>(request: &Request<'_>, store: &mut S, put: &Option<Put>) -> Result<(), Failed>
    requires { IfSome put.now (λ put. (put.dd ≡ syslmod) × (names_output (words_of request.now) ≡ true)) }
    ensures told { WhereTold (S.told store.old) (λ files. IsSomeAnd (S.told store.new) (λ now. PutTold (words_of request.now) files now put.now result)) }
    ensures counts { NoneFalls (S.counts store.old) (S.counts store.new) }
    ensures cause { PutHasCause (S.counts store.old) (S.counts store.new) (words_of request.now) result }
{
    match put {
        Some(put) => store.put(path_for(request, put.dd), put.image.as_slice()),
        None => Ok(()),
    }
}

/// Prints the text of an answer.
#[tactic(auto, using(crate::proofs::Statuses::printed_quiet))]
pub fn printed<K: Sink>(print: &mut K, answer: &Answer) -> Status
    requires { IsFinal answer.now.status }
    ensures status { PrintedStatus answer.now.status result }
    ensures text { WhereTold (K.held print.old) (λ held. Prints held (K.held print.new) answer.now result) }
    ensures quiet { KeepsQuiet (K.held print.old) (K.held print.new) result }
    ensures cause { SinkHasCause (K.faults print.old) (K.faults print.new) result }
{
    match write_all(print, answer.text.as_slice()) {
        Ok(()) => answer.status,
        Err(_) => Status::Fault(Fault::Print),
    }
}
