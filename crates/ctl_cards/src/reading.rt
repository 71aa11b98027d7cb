//! Statements from cards.
ghost use Rattle.std.specs.Prelude.{◌≡◌, ℕ, take, ◌+◌, ◌*◌, ◌<◌, ◌≤◌, List, [], ◌∷◌, ◌++◌, length, IfOk, IfErr, MatchBool, MatchResult, Result};
ghost use Rattle.std.specs.List.{flat_map, prefix_len};
ghost use Rattle.ctl_cards.specs.Cards.{IsWhole, continued_count, is_continued, has_margin, operand_on, continuation_on};
ghost use Rattle.ctl_cards.specs.Meaning.{statement_of, IsDue};
ghost use Rattle.ctl_cards.specs.Grammar.{IsStatement, HasFault, AnswersUnlessMemory};
ghost use Rattle.ctl_cards.specs.Reads.{ReadsStatement, ReadsOperand, CountsCards};
ghost use Rattle.ctl_cards.specs.Statements.{HasFewAliases};
ghost use Rattle.ctl_cards.specs.declared.statement.Statement.{Statement};

use crate::card::{Card, continuation_on, has_margin, is_continued, operand_on, operation_on};
use crate::operand::{Operand, Stop};
use crate::operand_item::{items, marked_name, one_name};
use crate::operation::Operation;
use crate::statement::{Statement, StmtFault};
use std::alloc::{AllocError, Global};

/// The most cards that a statement has.
const MOST_CARDS: usize = 32;

/// The most names that an ALIAS statement has.
const MOST_ALIASES: usize = 16;

/// The words in parentheses of NAME and OVERLAY, in EBCDIC.
const REPLACE_WORD: &[u8] = &[0xD9];

const REGION_WORD: &[u8] = &[0xD9, 0xC5, 0xC7, 0xC9, 0xD6, 0xD5];

/// Reads the statement that the cards begin with, and says how many of them it takes.
///
/// The first card is meant to be a statement card: column 1 blank, and a character in columns 2 to 71.
/// Cards after the statement are not looked at. An operand that is absent is the empty operand.
///
/// # Errors
/// In this order: `TooMany` where the 32nd card is continued and `NoContinuation` where a continued card
/// is not followed by one with blank columns 1 to 15, whichever comes first card by card;
/// `UnknownOperation`; `BadOperand`; `TooMany` where ALIAS has more than 16 names. `Memory` at any time.
pub fn read_statement(alloc: Global, cards: &[[u8; 80]]) -> Result<(Statement, usize), StmtFault>
    requires { 0 < length cards.now }
    // What is read is spelled on the cards.
    ensures read { IfOk result (λ r. IsStatement cards.now r.0 r.1) }
    ensures within { IfOk result (λ r. (1 ≤ r.1) × (r.1 ≤ length cards.now)) }
    // What is spelled on the cards is read.
    ensures again { (s : Statement) (n : ℕ) → IsStatement cards.now s n → AnswersUnlessMemory result s n }
    // Which fault it is.
    ensures faults { IfErr result (HasFault cards.now) }
    // And all of it is one function of the cards.
    ensures due { IsDue (statement_of cards.now) result }
{
    statement_on(alloc, cards)
}

fn statement_on(alloc: Global, cards: &[[u8; 80]]) -> Result<(Statement, usize), StmtFault>
    requires { 0 < length cards.now }
    ensures read { IfOk result (λ r. IsStatement cards.now r.0 r.1) }
    ensures faults { IfErr result (HasFault cards.now) }
{
    let count = card_count(cards)?;
    let Some(operation) = Operation::named(operation_on(&cards[0])) else {
        return Err(StmtFault::UnknownOperation);
    };
    let text = joined_operand(alloc, &cards[0], &cards[1..count])?;
    let statement = statement_with(alloc, operation, text.as_slice())?;
    if has_few_aliases(&statement) {
        Ok((statement, count))
    } else {
        Err(StmtFault::TooMany)
    }
}

fn has_few_aliases(statement: &Statement) -> bool
    ensures { MatchBool result (HasFewAliases statement.now) (HasFewAliases statement.now → ⊥) }
{
    match statement {
        Statement::Alias(names) => names.len() <= MOST_ALIASES,
        _ => true,
    }
}

/// The statement of this operation with this operand.
fn statement_with(alloc: Global, operation: Operation, text: &[u8]) -> Result<Statement, StmtFault>
    requires { length text.now ≤ 70 + 56 * 31 }
    ensures { ReadsOperand operation text.now result }
{
    let mut operand = Operand { rest: text };
    match statement(alloc, operation, &mut operand) {
        Ok(statement) => Ok(statement),
        Err(Stop::Bad) => Err(StmtFault::BadOperand((text.len() - operand.rest.len() + 1) as u32)),
        Err(Stop::Memory) => Err(StmtFault::Memory),
    }
}

/// How many cards the statement takes.
fn card_count(cards: &[Card]) -> Result<usize, StmtFault>
    requires { 0 < length cards.now }
    ensures { CountsCards cards.now result }
{
    let near = first_cards(cards);
    let continued = continued(near);
    let fit = 1 + fit(&near[1..]);
    if continued < fit {
        Ok(continued + 1)
    } else if fit == MOST_CARDS {
        Err(StmtFault::TooMany)
    } else {
        Err(StmtFault::NoContinuation(fit))
    }
}

/// No more cards than a statement may have.
fn first_cards(cards: &[Card]) -> &[Card]
    ensures { result.now ≡ take 32 cards.now }
{
    if cards.len() < MOST_CARDS {
        cards
    } else {
        &cards[..MOST_CARDS]
    }
}

/// How many cards from the first on say that they are continued.
fn continued(cards: &[Card]) -> usize
    ensures { result ≡ prefix_len is_continued cards.now }
{
    cards.iter().take_while(|card| is_continued(card)).count()
}

/// How many cards from the first on can continue another.
fn fit(cards: &[Card]) -> usize
    ensures { result ≡ prefix_len has_margin cards.now }
{
    cards.iter().take_while(|card| has_margin(card)).count()
}

/// The operand: what the first card has of it, and what each continuation adds.
fn joined_operand(alloc: Global, first: &Card, more: &[Card]) -> Result<Vec<u8>, AllocError>
    ensures operand { IfOk result (λ v. v.items ≡ operand_on first.now ++ flat_map continuation_on more.now) }
    ensures short { IfOk result (λ v. length v.items ≤ 70 + 56 * length more.now) }
{
    let mut text = Vec::from_slice(alloc, operand_on(first))?;
    for card in more {
        text.extend_from_slice(continuation_on(card))?;
    }
    Ok(text)
}

/// The statement of this operation whose operand is what is left.
fn statement(
    alloc: Global,
    operation: Operation,
    operand: &mut Operand<'_>,
) -> Result<Statement, Stop>
    ensures { ReadsStatement operation operand.old.rest.now result operand.new.rest.now }
{
    match operation {
        Operation::Include => Ok(Statement::Include(items(alloc, operand)?)),
        Operation::Library => Ok(Statement::Library(items(alloc, operand)?)),
        Operation::Replace => Ok(Statement::Replace(items(alloc, operand)?)),
        Operation::Change => Ok(Statement::Change(items(alloc, operand)?)),
        Operation::Entry => Ok(Statement::Entry(one_name(operand)?)),
        Operation::Alias => Ok(Statement::Alias(items(alloc, operand)?)),
        Operation::NameOf => {
            let marked = marked_name(operand, REPLACE_WORD)?;
            Ok(Statement::NameOf(marked.0, marked.1))
        }
        Operation::Insert => Ok(Statement::Insert(items(alloc, operand)?)),
        Operation::Overlay => {
            let marked = marked_name(operand, REGION_WORD)?;
            Ok(Statement::Overlay(marked.0, marked.1))
        }
    }
}
