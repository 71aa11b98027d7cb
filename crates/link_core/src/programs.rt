//! From the cards of the primary input to a linked program.
ghost use Rattle.std.specs.Prelude.{◌≡◌, ◌≤◌, Ok, All, IfOk, length};
ghost use Rattle.sym_mod.specs.Sound.{IsSoundProgram};
ghost use Rattle.linking_model.specs.Places.{module_length};
ghost use Rattle.linking_model.specs.Points.{default_point};
ghost use Rattle.block_storage.specs.Storage.{alone};
ghost use Rattle.addr_assign.specs.Seen.{seen};
ghost use Rattle.deck_steps.specs.Answers.{IsInRoot};
ghost use Rattle.mod_write.specs.Naming.{IsPoint, seen as seen_point};
ghost use Rattle.link_core.specs.Programs.{deck_fault, entry_address, faulty_card, program_of_cards, program_of_decks};
ghost use Rattle.link_core.specs.Links.{GivesProgram, IsLinked};

use crate::program::{LinkedProgram, ProgramFault, ProgramStop};
use crate::resolving::{LinkStop, resolved};
use addr_assign::{Point, entry_point as entry_of};
use command_words::keys::SYSLIN;
use deck_steps::{DeckFault, DeckStop, read_decks};
use esd_merge::Merged;
use le_bytes::{CardWhat, Counted, Memory, Refusal, Spot, SymbolWhat};
use mod_write::PointAt;
use std::alloc::Global;
use sym_mod::Program;

/// The linked program of the cards of the primary input, with or without leave for unresolved names.
/// Linear in the cards, but for the look-ups of the merge.
///
/// # Errors
/// The first refusal in the order of the cards, then of the program: no section; without leave the
/// first name that has to be resolved and is not; registers of more than 16,777,215 bytes; a module of
/// more than 4,194,304. A statement card is told where it is reached. Want of memory.
pub fn link_program(
    alloc: Global,
    cards: &[u8],
    may_be_unresolved: bool,
) -> Result<LinkedProgram, ProgramStop>
    requires { length cards.now ≤ 67108864 }
    ensures { GivesProgram (program_of_cards cards.now may_be_unresolved) result }
{
    match read_decks(alloc, cards) {
        Ok(merged) => merged_program(alloc, merged, may_be_unresolved),
        Err(DeckStop::Refused(fault)) => Err(ProgramStop::Fault(deck_fault(fault))),
        Err(DeckStop::Memory) => Err(ProgramStop::Memory),
    }
}

/// The linked program of merged modules.
fn merged_program(
    alloc: Global,
    merged: Merged,
    may_be_unresolved: bool,
) -> Result<LinkedProgram, ProgramStop>
    requires { All IsInRoot merged }
    ensures { GivesProgram (program_of_decks may_be_unresolved (Ok merged)) result }
{
    match resolved(alloc, merged, may_be_unresolved) {
        Ok(linked) => Ok(linked),
        Err(LinkStop::Refused(refusal)) => {
            Err(ProgramStop::Fault(ProgramFault::Refused(refusal)))
        }
        Err(LinkStop::Memory) => Err(ProgramStop::Memory),
    }
}

/// What is refused of decks, or the statement card among them.
fn deck_fault(fault: DeckFault) -> ProgramFault
    ensures { result ≡ deck_fault fault }
{
    match fault {
        DeckFault::Card(number, what) => ProgramFault::Refused(faulty_card(number, what)),
        DeckFault::Statement(number) => ProgramFault::Statement(number),
        DeckFault::DoubleDefinition(name) => {
            ProgramFault::Refused(Refusal::Symbol(name, SymbolWhat::DoubleDefinition))
        }
        DeckFault::TooManySymbols(n) => ProgramFault::Refused(Refusal::Limit(Counted::Symbols, n)),
    }
}

/// A faulty card of the primary input, by its number.
fn faulty_card(number: u32, what: CardWhat) -> Refusal
    ensures { result ≡ faulty_card number what }
{
    Refusal::Card(
        Spot {
            set: SYSLIN,
            member: None,
            number,
        },
        what,
    )
}

/// Where a linked program is entered: at the first entry that a deck gives and that is in the root, or
/// else at the first byte of its first section. Linear in sections, labels and entries.
///
/// # Errors
/// Want of memory.
pub fn entry_point(alloc: Global, linked: &LinkedProgram) -> Result<PointAt, Memory>
    requires { IsLinked linked.now }
    ensures point { IfOk result (λ x. seen_point (alone linked.now.program) x ≡ default_point linked.now.program) }
    ensures inside { IfOk result (IsPoint (alone linked.now.program)) }
    ensures address { IfOk result (λ x. x.address ≡ entry_address linked.now.program 0) }
    ensures within { IfOk result (λ x. x.address ≤ module_length (alone linked.now.program)) }
{
    let point = default_point(alloc, &linked.program)?;
    let start = linked.places.sections.as_slice()[point.section as usize];
    Ok(PointAt {
        section: point.section,
        address: start + point.offset,
    })
}

/// Where a program without an ENTRY statement is entered.
#[tactic(auto, unfolding(linking_model::specs::Points::entry_point))]
fn default_point(alloc: Global, program: &Program) -> Result<Point, Memory>
    requires { IsSoundProgram program.now }
    ensures { IfOk result (λ point. seen point ≡ default_point program.now) }
{
    match entry_of(alloc, program, None)? {
        Some(point) => Ok(point),
        None => Ok(Point {
            section: 0,
            offset: 0,
        }),
    }
}
