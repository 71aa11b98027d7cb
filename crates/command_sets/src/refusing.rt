//! Answers that refuse.
ghost use Rattle.std.specs.Prelude.{◌≡◌, None, Some, IfOk};
ghost use Rattle.command_sets.specs.Refusing.{bad_words, refused, unbuilt, unbuilt_card, unbuilt_line, unbuilt_card_line};
ghost use Rattle.command_sets.specs.Causes.{IsOwn, IsOwnRefusal};

use crate::answer::Answer;
use crate::status::Status;
use command_words::BadWord;
use command_words::keys::SYSLIN;
use le_bytes::{Bytes, Memory, Refusal};
use map_list::{Line, push_name, push_number, refusal_text};
use std::alloc::Global;

/// The answer of a refusal: its line.
///
/// # Errors
/// Want of memory.
#[tactic(auto, unfolding(crate::specs::Refusing::refused))]
pub fn refused(alloc: Global, refusal: Refusal) -> Result<Answer, Memory>
    ensures answer { IfOk result (λ answer. answer ≡ refused refusal) }
    ensures status { IfOk result (λ answer. answer.status ≡ Status.Refused refusal) }
    ensures own { IsOwnRefusal refusal → IfOk result (λ answer. IsOwn answer.status) }
    ensures put { IfOk result (λ answer. answer.put ≡ None) }
{
    let text = refusal_text(alloc, &Line::Refused(refusal))?;
    Ok(Answer {
        status: Status::Refused(refusal),
        text: Bytes::from_vec(text),
        put: None,
    })
}

/// The answer of a bad word.
///
/// # Errors
/// Want of memory.
pub fn bad_words(alloc: Global, bad: BadWord) -> Result<Answer, Memory>
    ensures { IfOk result (λ answer. answer ≡ bad_words bad) }
{
    let text = refusal_text(alloc, &Line::Words(bad.word, bad.what))?;
    Ok(Answer {
        status: Status::BadWords(bad.word, bad.what),
        text: Bytes::from_vec(text),
        put: None,
    })
}

/// The answer of words that ask for what is not built yet.
///
/// # Errors
/// Want of memory.
#[tactic(auto, unfolding(crate::specs::Refusing::unbuilt))]
pub fn unbuilt(alloc: Global) -> Result<Answer, Memory>
    ensures answer { IfOk result (λ answer. answer ≡ unbuilt) }
    ensures status { IfOk result (λ answer. answer.status ≡ Status.NotBuilt None) }
    ensures put { IfOk result (λ answer. answer.put ≡ None) }
{
    let mut text = Vec::new(alloc);
    text.extend_from_slice(b"REFUSED NOTBUILT\n")?;
    Ok(Answer {
        status: Status::NotBuilt(None),
        text: Bytes::from_vec(text),
        put: None,
    })
}

/// The answer of the card of this number, which begins something that is not built yet.
///
/// # Errors
/// Want of memory.
#[tactic(auto, unfolding(crate::specs::Refusing::unbuilt_card))]
pub fn unbuilt_card(alloc: Global, number: u32) -> Result<Answer, Memory>
    ensures answer { IfOk result (λ answer. answer ≡ unbuilt_card number) }
    ensures status { IfOk result (λ answer. answer.status ≡ Status.NotBuilt (Some number)) }
    ensures put { IfOk result (λ answer. answer.put ≡ None) }
{
    let mut text = Vec::new(alloc);
    text.extend_from_slice(b"REFUSED CARD ")?;
    push_name(&mut text, &SYSLIN)?;
    text.extend_from_slice(b" ")?;
    push_number(&mut text, number as u64)?;
    text.extend_from_slice(b" NOTBUILT\n")?;
    Ok(Answer {
        status: Status::NotBuilt(Some(number)),
        text: Bytes::from_vec(text),
        put: None,
    })
}
