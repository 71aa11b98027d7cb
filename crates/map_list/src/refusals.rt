//! The lines of refusals.
ghost use Rattle.std.specs.Prelude.{◌≡◌, ◌++◌, ◌∷◌, [], OnOk, IfOk, Some};
ghost use Rattle.map_list.specs.Printed.{printed_name, fields};
ghost use Rattle.map_list.specs.Lines.{refusal_line, words_line, refusal_words, spot_words, set_and_member, line_text};

use crate::card_faults::card_words;
use crate::other_faults::{count_word, library_words, symbol_words, word_words};
use crate::printed::push_name;
use crate::record_faults::record_words;
use crate::run_faults::{event_words, place_words, start_words};
use crate::words::{
    push_blank, push_line_end, push_name_field, push_number_field, push_texts, push_word,
};
use le_bytes::{Memory, Name, Refusal, Spot, WordWhat};
use std::alloc::Global;

/// What ends a command that is not done: a refusal, or a bad word of the command line, the words
/// counted from 1. A section without a name and blank common stand in a refusal by their printed names.
#[derive(Clone, Copy, Debug, PartialEq, Eq)]
pub enum Line {
    Refused(Refusal),
    Words(usize, WordWhat),
}

/// The line of a refusal, with its line feed.
///
/// # Errors
/// Want of memory.
pub fn refusal_text(alloc: Global, r: &Line) -> Result<Vec<u8>, Memory>
    ensures { IfOk result (λ text. text.items ≡ line_text r.now) }
{
    let mut out = Vec::new(alloc);
    match r {
        Line::Refused(refusal) => push_refusal(&mut out, refusal)?,
        Line::Words(n, what) => push_words(&mut out, *n, *what)?,
    }
    Ok(out)
}

/// Puts the line of a refusal at the end of `out`. After want of memory a part of the line may stand
/// there.
///
/// # Errors
/// Want of memory.
#[tactic(auto, unfolding(crate::specs::Lines::refusal_line))]
pub fn push_refusal(out: &mut Vec<u8>, refusal: &Refusal) -> Result<(), Memory>
    ensures { OnOk result (out.new.items ≡ out.old.items ++ refusal_line refusal.now) }
{
    out.extend_from_slice(b"REFUSED")?;
    push_what_is_refused(out, refusal)?;
    push_line_end(out)
}

/// Puts the line of a bad word of the command line at the end of `out`; `n` is its number, from 1. After
/// want of memory a part of the line may stand there.
///
/// # Errors
/// Want of memory.
#[tactic(auto, unfolding(crate::specs::Lines::words_line))]
pub fn push_words(out: &mut Vec<u8>, n: usize, what: WordWhat) -> Result<(), Memory>
    ensures { OnOk result (out.new.items ≡ out.old.items ++ words_line n what) }
{
    out.extend_from_slice(b"WORDS")?;
    push_number_field(out, n as u64)?;
    push_texts(out, &word_words(what))?;
    push_line_end(out)
}

fn push_what_is_refused(out: &mut Vec<u8>, refusal: &Refusal) -> Result<(), Memory>
    ensures { OnOk result (out.new.items ≡ out.old.items ++ fields (refusal_words refusal.now)) }
{
    match refusal {
        Refusal::SetAbsent(set) => push_named(out, "SET", set, "ABSENT"),
        Refusal::TooLong(set) => push_named(out, "SET", set, "TOOLONG"),
        Refusal::NotLibrary(set) => push_named(out, "SET", set, "NOTLIBRARY"),
        Refusal::Library(set, what) => {
            push_word(out, "LIBRARY")?;
            push_name_field(out, set)?;
            push_texts(out, &library_words(*what))
        }
        Refusal::BadEvent(n) => {
            push_word(out, "EVENTS")?;
            push_word(out, "LINE")?;
            push_number_field(out, *n as u64)
        }
        Refusal::Card(spot, what) => {
            push_word(out, "CARD")?;
            push_spot(out, spot)?;
            push_texts(out, &card_words(*what))
        }
        Refusal::Module(spot, what) => {
            push_word(out, "RECORD")?;
            push_spot(out, spot)?;
            push_texts(out, &record_words(*what))
        }
        Refusal::Overlay(set, member, what) => {
            push_word(out, "OVERLAY")?;
            push_blank(out)?;
            push_member(out, set, member)?;
            push_texts(out, &start_words(*what))
        }
        Refusal::NoSection => push_word(out, "NOSECTION"),
        Refusal::Symbol(name, what) => {
            push_word(out, "SYMBOL")?;
            push_name_field(out, name)?;
            push_texts(out, &symbol_words(*what))
        }
        Refusal::Limit(what, n) => {
            push_word(out, "LIMIT")?;
            push_word(out, count_word(*what))?;
            push_number_field(out, *n)
        }
        Refusal::MemberExists(name) => push_named(out, "MEMBER", name, "EXISTS"),
        Refusal::MemberAbsent(name) => push_named(out, "MEMBER", name, "ABSENT"),
        Refusal::Place(what) => {
            push_word(out, "PLACE")?;
            push_texts(out, &place_words(*what))
        }
        Refusal::Event(n, what) => {
            push_word(out, "EVENT")?;
            push_number_field(out, *n as u64)?;
            push_texts(out, &event_words(*what))
        }
    }
}

fn push_named(out: &mut Vec<u8>, kind: &str, name: &Name, what: &str) -> Result<(), Memory>
    ensures { OnOk result (out.new.items ≡ out.old.items ++ fields (kind.now ∷ printed_name name.now ∷ what.now ∷ [])) }
{
    push_word(out, kind)?;
    push_name_field(out, name)?;
    push_word(out, what)
}

/// Puts a data set and a member of it at the end of `out`, as `dd(member)`.
fn push_member(out: &mut Vec<u8>, set: &Name, member: &Name) -> Result<(), Memory>
    ensures { OnOk result (out.new.items ≡ out.old.items ++ set_and_member set.now (Some member.now)) }
{
    push_name(out, set)?;
    out.extend_from_slice(b"(")?;
    push_name(out, member)?;
    out.extend_from_slice(b")")?;
    Ok(())
}

fn push_spot(out: &mut Vec<u8>, spot: &Spot) -> Result<(), Memory>
    ensures { OnOk result (out.new.items ≡ out.old.items ++ fields (spot_words spot.now)) }
{
    push_blank(out)?;
    match &spot.member {
        Some(member) => push_member(out, &spot.set, member)?,
        None => push_name(out, &spot.set)?,
    }
    push_number_field(out, spot.number as u64)
}
