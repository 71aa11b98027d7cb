//! Merged modules linked: resolved, and given addresses.
ghost use Rattle.std.specs.Prelude.{◌≡◌, ◌∷◌, [], All, IfOk, IsTrue, option_map};
ghost use Rattle.sym_mod.specs.Sound.{IsSoundProgram};
ghost use Rattle.linking_model.specs.Tree.{plain};
ghost use Rattle.addr_assign.specs.Laid.{are_in_tree};
ghost use Rattle.deck_steps.specs.Answers.{IsInRoot};
ghost use Rattle.link_core.specs.Programs.{first_wanting, name_refusal};
ghost use Rattle.link_core.specs.Links.{Settles, Assigns, Links};

use crate::program::LinkedProgram;
use addr_assign::{AssignFault, SettleFault, assign, settle};
use esd_merge::Merged;
use le_bytes::{Counted, Items, Memory, Name, Refusal, SymbolWhat};
use seg_tree::SegTree;
use std::alloc::Global;
use sym_mod::{Places, Program, Tables};

/// Why merged modules are not linked.
#[derive(Clone, Copy, Debug, PartialEq, Eq)]
pub(crate) enum LinkStop {
    Refused(Refusal),
    Memory,
}

impl From<Memory> for LinkStop {
    ghost use Rattle.std.specs.Prelude.{◌≡◌};
    ghost use Rattle.link_core.specs.declared.resolving.LinkStop.TheVariants.{Memory as NoMemory};

    ghost from_gives = { λ _ e. e ≡ NoMemory };

    fn from(_refused: Memory) -> LinkStop {
        LinkStop::Memory
    }
}

/// Merged modules as a linked program, with or without leave for unresolved names.
///
/// Cost: that of the merge's program, of settling and of assigning, and linear in the unresolved names.
///
/// # Errors
/// The first of these refusals, or want of memory: there is no section; without leave a name is not
/// resolved that has to be, the first of these; the registers have more than 16,777,215 bytes; the
/// module has more than 4,194,304.
#[tactic(auto, unfolding(crate::specs::Programs::link_refusal))]
pub(crate) fn resolved(
    alloc: Global,
    merged: Merged,
    may_be_unresolved: bool,
) -> Result<LinkedProgram, LinkStop>
    requires { All IsInRoot merged }
    ensures { Links merged may_be_unresolved result }
{
    let tree = match SegTree::root(alloc) {
        Ok(tree) => tree,
        Err(_) => return Err(LinkStop::Memory),
    };
    let program = settled_program(alloc, merged, &tree)?;
    if let Some(refusal) = name_refusal(&program, may_be_unresolved) {
        return Err(LinkStop::Refused(refusal));
    }
    let tables = no_tables(alloc)?;
    let places = assigned(alloc, &program, &tree, &tables)?;
    Ok(LinkedProgram {
        program,
        tree,
        tables,
        places,
    })
}

/// The program of the modules, its sections in the root.
fn settled_program(alloc: Global, merged: Merged, tree: &SegTree) -> Result<Program, LinkStop>
    requires root { All IsInRoot merged }
    requires plain { tree.now ≡ plain }
    ensures { Settles merged result }
{
    let mut program = merged.program(alloc)?;
    match settle(alloc, &mut program, tree, &[]) {
        Ok(()) => Ok(program),
        Err(SettleFault::InsertUnknown(name)) => Err(LinkStop::Refused(Refusal::Symbol(
            name,
            SymbolWhat::InsertUnknown,
        ))),
        Err(SettleFault::NoSection) => Err(LinkStop::Refused(Refusal::NoSection)),
        Err(SettleFault::Memory) => Err(LinkStop::Memory),
    }
}

/// The refusal of the first name that has to be resolved and is not; none with leave for such names.
fn name_refusal(program: &Program, may_be_unresolved: bool) -> Option<Refusal>
    ensures { result ≡ name_refusal program.now may_be_unresolved }
{
    if may_be_unresolved {
        return None;
    }
    let name = first_wanting(program)?;
    Some(Refusal::Symbol(name, SymbolWhat::Unresolved))
}

/// The first name that has to be resolved and is not.
fn first_wanting(program: &Program) -> Option<Name>
    ensures { result ≡ option_map (λ x. x.name) (first_wanting program.now) }
{
    let first = program.unresolved.as_slice().iter().find(|x| !x.weak)?;
    Some(first.name)
}

/// The addresses of a program in the root alone.
fn assigned(
    alloc: Global,
    program: &Program,
    tree: &SegTree,
    tables: &Tables,
) -> Result<Places, LinkStop>
    requires sound { IsSoundProgram program.now }
    requires in_tree { IsTrue (are_in_tree plain.tree program.now) }
    requires plain { tree.now ≡ plain }
    requires empty { tables.now.entries ≡ [] ∷ [] }
    ensures { Assigns program.now result }
{
    match assign(alloc, program, tree, tables) {
        Ok(places) => Ok(places),
        Err(AssignFault::Registers(n)) => {
            Err(LinkStop::Refused(Refusal::Limit(Counted::Registers, n)))
        }
        Err(AssignFault::ModuleLength(n)) => {
            Err(LinkStop::Refused(Refusal::Limit(Counted::ModuleLength, n)))
        }
        Err(AssignFault::Memory) => Err(LinkStop::Memory),
    }
}

/// The tables of one segment without entries.
fn no_tables(alloc: Global) -> Result<Tables, Memory>
    ensures { IfOk result (λ tables. tables.entries ≡ [] ∷ []) }
{
    let mut entries = Items::new(alloc);
    entries.push(Items::new(alloc))?;
    Ok(Tables { entries })
}
