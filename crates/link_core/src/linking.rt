//! One run of linking.
ghost use Rattle.std.specs.Prelude.{◌≡◌, ◌≤◌, Ok, true, false, All, IfOk, length};
ghost use Rattle.le_bytes.specs.Names.{name_eq};
ghost use Rattle.pds_lib.specs.Stow.{last_name};
ghost use Rattle.member_laws.specs.Linkable.{HasEightBytes};
ghost use Rattle.command_words.specs.Keys.{syslib};
ghost use Rattle.link_core.specs.Sets.{has_set, primary_cards};
ghost use Rattle.link_core.specs.Links.{IsLinked};
ghost use Rattle.link_core.specs.Programs.{program_of_cards};
ghost use Rattle.link_core.specs.Linking.{are_heeded, linking, linking_of, LinksAs, StandFor};
ghost use Rattle.link_core.specs.Modules.{IsStowable, may_be_unresolved};

use crate::linked::{LinkFault, Linked};
use crate::modules::linked_module;
use crate::options::Options;
use crate::program::{LinkedProgram, ProgramFault, ProgramStop};
use crate::programs::link_program;
use crate::sets::primary_cards;
use le_bytes::Items;
use pds_lib::Set;
use std::alloc::Global;

/// Links the primary input, which is the set named SYSLIN, and gives every load module in order. It is a
/// list of object decks yet, and gives one load module. Nothing is printed but the listing, nothing is
/// called automatically and there is no overlay tree: so neither MAP, XREF, XCAL nor OVLY may be asked for,
/// and no set may be named SYSLIB. Each load module may be stowed in every library of load
/// modules, unless the name of the options is eight X'FF'; and each stands for its program: its member is
/// good, and has in storage what the program has there linked. The cost is linear in the cards and in the
/// records, but for the look-ups of the merge.
///
/// # Errors
/// Refused: the first refusal in the order of the cards, then of the program: no section; a name that has
/// to be resolved and is not, with neither LET nor NCAL; registers of more than 16,777,215 bytes; a
/// module of more than 4,194,304. Statement: a statement card stands there, where decks are expected.
/// Want of memory.
#[tactic(auto, unfolding(crate::specs::Linking::linking))]
pub fn link(alloc: Global, sets: &[Set], o: &Options) -> Result<Items<Linked>, LinkFault>
    requires short { length (primary_cards sets.now) ≤ 67108864 }
    requires options { are_heeded o.now ≡ true }
    requires library { has_set syslib sets.now ≡ false }
    ensures modules { LinksAs (linking o.now (primary_cards sets.now)) result }
    ensures stowable { name_eq last_name o.now.member ≡ false → IfOk result (All IsStowable) }
    ensures stands { IfOk result (StandFor o.now (program_of_cards (primary_cards sets.now) (may_be_unresolved o.now))) }
{
    match link_program(alloc, primary_cards(sets), may_be_unresolved(o)) {
        Ok(linked) => one_module(alloc, &linked, o),
        Err(ProgramStop::Fault(ProgramFault::Refused(refusal))) => {
            Err(LinkFault::Refused(refusal, Items::new(alloc)))
        }
        Err(ProgramStop::Fault(ProgramFault::Statement(number))) => {
            Err(LinkFault::Statement(number))
        }
        Err(ProgramStop::Memory) => Err(LinkFault::Memory),
    }
}

/// LET and NCAL give leave for unresolved names.
fn may_be_unresolved(o: &Options) -> bool
    ensures { result ≡ may_be_unresolved o.now }
{
    o.let_on || o.ncal
}

/// The one load module of a linked program.
fn one_module(
    alloc: Global,
    linked: &LinkedProgram,
    o: &Options,
) -> Result<Items<Linked>, LinkFault>
    requires { IsLinked linked.now }
    ensures modules { LinksAs (linking_of o.now (Ok linked.now.program)) result }
    ensures stowable { name_eq last_name o.now.member ≡ false → IfOk result (All IsStowable) }
    ensures eight { IfOk result (λ _. HasEightBytes o.now.member) }
{
    let Ok(module) = linked_module(alloc, linked, o) else {
        return Err(LinkFault::Memory);
    };
    let mut modules = Items::new(alloc);
    match modules.push(module) {
        Ok(()) => Ok(modules),
        Err(_) => Err(LinkFault::Memory),
    }
}
