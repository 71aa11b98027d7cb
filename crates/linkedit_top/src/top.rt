//! The top call.
ghost use Rattle.command_words.specs.Seen.{words_of};
ghost use Rattle.std.specs.Prelude.{◌≡◌, IfSome, IsSomeAnd, map, string_bytes};
ghost use Rattle.le_io.specs.Counts.{NoneFalls, WhereTold};
ghost use Rattle.command_words.specs.Judged.{bad_word};
ghost use Rattle.linkedit_top.specs.Outcome.{good_words, outcome};
ghost use Rattle.command_sets.specs.Refusing.{bad_words};
ghost use Rattle.command_sets.specs.Causes.{Completes, FilesAfter, HasStatus, KeepsQuiet, Prints, StoreHasCause, SinkHasCause};
ghost use Rattle.command_sets.specs.Ending.{IsOfGoodWords, JudgesWords, RefusesAs};
ghost use Rattle.linkedit_top.specs.Headline.{IsJudged, IsReadAgain, LinksAsPromised};

use crate::deciding::answer;
use command_sets::{Fault, Status, Stop, bad_words, carry_out, printed};
use command_words::{BadWord, Request, read_words};
use le_io::{Sink, Store};
use std::alloc::Global;

/// Does all that the program does: judges the words, reads the sets that they name, links, places, puts,
/// and prints. `words` are those after the program's own name.
///
/// At most one set is put, once, after all that may be refused was judged and all memory was taken; the
/// text is printed in one piece after that. So after a fault of a read and after want of memory nothing
/// was put and nothing was printed, and after a fault of the put nothing was printed.
///
/// What `link` and `go` put and print is said of the program of their cards too (`promised`): it stands in the
/// member that is put, and `go` prints its entry point and its linked bytes.
#[tactic(auto, using(command_sets::proofs::Statuses::completes, command_sets::proofs::Statuses::has_status_refused), unfolding(crate::specs::Outcome::outcome))]
pub fn linkedit<S: Store, K: Sink>(
    alloc: Global,
    words: &[String],
    store: &mut S,
    print: &mut K,
) -> Status
    ensures exact { WhereTold (S.told store.old) (λ files. WhereTold (K.held print.old)
        (λ held. Prints held (K.held print.new) (outcome (map string_bytes words.now) files) result)) }
    ensures files { WhereTold (S.told store.old) (λ files. IsSomeAnd (S.told store.new)
        (λ now. FilesAfter (map string_bytes words.now) files now (outcome (map string_bytes words.now) files) result)) }
    ensures promised { WhereTold (S.told store.old) (λ files. IsJudged result → LinksAsPromised (map string_bytes words.now) files (outcome (map string_bytes words.now) files)) }
    ensures again { WhereTold (S.told store.old) (λ files. IsJudged result → IsReadAgain (map string_bytes words.now) files (outcome (map string_bytes words.now) files)) }
    ensures quiet { KeepsQuiet (K.held print.old) (K.held print.new) result }
    ensures words { JudgesWords (bad_word (map string_bytes words.now)) result }
    ensures refused { IfSome (bad_word (map string_bytes words.now)) (λ bad. WhereTold (K.held print.old) (λ held. Prints held (K.held print.new) (bad_words bad) result)) }
    ensures untouched { IfSome (bad_word (map string_bytes words.now)) (λ _. store.new ≡ store.old) }
    ensures complete { WhereTold (S.told store.old) (λ files. Completes (S.counts store.old) (S.counts store.new) (K.faults print.old) (K.faults print.new) (outcome (map string_bytes words.now) files).status result) }
    ensures counts { NoneFalls (S.counts store.old) (S.counts store.new) }
    ensures store_cause { StoreHasCause (S.counts store.old) (S.counts store.new) (map string_bytes words.now) result }
    ensures sink_cause { SinkHasCause (K.faults print.old) (K.faults print.new) result }
{
    match read_words(words) {
        Ok(request) => run(alloc, &request, store, print),
        Err(bad) => refuse_words(alloc, bad, print),
    }
}

/// Does what good words ask for.
#[tactic(auto, using(command_sets::proofs::Statuses::has_status, command_sets::proofs::Statuses::good_end))]
fn run<S: Store, K: Sink>(
    alloc: Global,
    request: &Request<'_>,
    store: &mut S,
    print: &mut K,
) -> Status
    ensures exact { WhereTold (S.told store.old) (λ files. WhereTold (K.held print.old)
        (λ held. Prints held (K.held print.new) (good_words (words_of request.now) files) result)) }
    ensures files { WhereTold (S.told store.old) (λ files. IsSomeAnd (S.told store.new)
        (λ now. FilesAfter (words_of request.now) files now (good_words (words_of request.now) files) result)) }
    ensures promised { WhereTold (S.told store.old) (λ files. IsJudged result → LinksAsPromised (words_of request.now) files (good_words (words_of request.now) files)) }
    ensures again { WhereTold (S.told store.old) (λ files. IsJudged result → IsReadAgain (words_of request.now) files (good_words (words_of request.now) files)) }
    ensures quiet { KeepsQuiet (K.held print.old) (K.held print.new) result }
    ensures good { IsOfGoodWords result }
    ensures status { WhereTold (S.told store.old) (λ files. HasStatus (good_words (words_of request.now) files).status result) }
    ensures counts { NoneFalls (S.counts store.old) (S.counts store.new) }
    ensures store_cause { StoreHasCause (S.counts store.old) (S.counts store.new) (words_of request.now) result }
    ensures sink_cause { SinkHasCause (K.faults print.old) (K.faults print.new) result }
{
    match answer(alloc, request, store) {
        Ok(answer) => carry_out(request, store, print, &answer),
        Err(Stop::Read(dd)) => Status::Fault(Fault::Read(dd)),
        Err(Stop::Memory) => Status::Memory,
    }
}

/// Prints the line of a bad word.
fn refuse_words<K: Sink>(alloc: Global, bad: BadWord, print: &mut K) -> Status
    ensures status { RefusesAs (bad_words bad).status result }
    ensures text { WhereTold (K.held print.old) (λ held. Prints held (K.held print.new) (bad_words bad) result) }
    ensures quiet { KeepsQuiet (K.held print.old) (K.held print.new) result }
    ensures cause { SinkHasCause (K.faults print.old) (K.faults print.new) result }
{
    match bad_words(alloc, bad) {
        Ok(answer) => printed(print, &answer),
        Err(_) => Status::Memory,
    }
}
