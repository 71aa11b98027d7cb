//! Addresses in a module.
ghost use Rattle.std.specs.Prelude.{◌≡◌, ◌&&◌, nat_le, None, IsTrue, IfOk, All, map, ◌≤◌};
ghost use Rattle.sym_mod.specs.Sound.{IsSoundProgram};
ghost use Rattle.linking_model.specs.Tree.{segments};
ghost use Rattle.linking_model.specs.Places.{origin, end_of};
ghost use Rattle.linking_model.specs.Tables.{crowd_in};
ghost use Rattle.addr_assign.specs.Laid.{are_in_tree};
ghost use Rattle.addr_assign.specs.Reach.{laid};
ghost use Rattle.addr_assign.specs.Answers.{AssignAnswer};

use crate::measuring::sizes;
use crate::origins::origins;
use crate::placing::{addresses, ends, greatest, narrowed};
use crate::registers::{register_places, registers_end};
use le_bytes::{Items, Memory};
use seg_tree::SegTree;
use std::alloc::Global;
use sym_mod::{Places, Program, Section, Tables};

/// The greatest total of registers in bytes.
const MOST_REGISTERS: u64 = 16_777_215;
/// The greatest length of a module in bytes.
const MOST_BYTES: u64 = 4_194_304;

/// Why there are no addresses. The limits are this project's profile.
#[derive(Clone, Copy, Debug, PartialEq, Eq)]
pub enum AssignFault {
    /// The registers take this many bytes; there are at most 16,777,215.
    Registers(u64),
    /// The module is this many bytes long; it has at most 4,194,304.
    ModuleLength(u64),
    Memory,
}

impl From<Memory> for AssignFault {
    ghost use Rattle.addr_assign.specs.declared.assigning.AssignFault.TheVariants.{Memory as NoMemory};

    ghost from_gives = { λ _ e. e ≡ NoMemory };

    fn from(_: Memory) -> AssignFault {
        AssignFault::Memory
    }
}

/// Whether every section stands in a segment of the tree.
pub fn are_in_tree(p: &Program, t: &SegTree) -> bool
    ensures { result ≡ are_in_tree t.now.tree p.now }
{
    let count = t.count();
    p.sections.as_slice().iter().all(|x| is_in_tree(x, count))
}

fn is_in_tree(x: &Section, count: u8) -> bool
    ensures { result ≡ (nat_le 1 x.now.segment && nat_le x.now.segment count) }
{
    1 <= x.segment && x.segment <= count
}

/// The addresses of all that stands in a module, in bytes from its origin.
/// Linear in sections, entries and registers, but for the number of segments.
///
/// # Errors
/// `Registers` exactly where the registers take more than 16,777,215 bytes, `ModuleLength` exactly where
/// they do not and the module is longer than 4,194,304 bytes; want of memory.
pub fn assign(
    alloc: Global,
    p: &Program,
    t: &SegTree,
    tables: &Tables,
) -> Result<Places, AssignFault>
    requires sound { IsSoundProgram p.now }
    requires in_tree { IsTrue (are_in_tree t.now.tree p.now) }
    requires few { crowd_in tables.now.entries 1 ≡ None }
    ensures { AssignAnswer (record { program = p.now; tree = t.now.tree; entries = tables.now.entries }) result }
{
    let total = registers_end(p.registers.as_slice());
    if total > MOST_REGISTERS {
        return Err(AssignFault::Registers(total));
    }
    let spans = spans(alloc, p, t, tables)?;
    let length = greatest(&spans.ends);
    if length > MOST_BYTES {
        return Err(AssignFault::ModuleLength(length));
    }
    let at = addresses(alloc, p.sections.as_slice(), t, &spans.origins)?;
    Ok(Places {
        sections: narrowed(alloc, &at.sections)?,
        tables: narrowed(alloc, &at.tables)?,
        origins: narrowed(alloc, &spans.origins)?,
        ends: narrowed(alloc, &spans.ends)?,
        registers: Items::from_vec(register_places(alloc, p.registers.as_slice())?),
        total: total as u32,
        length: length as u32,
    })
}

/// Where each segment begins, and where it ends.
#[derive(Drop)]
struct Bounds {
    origins: Vec<u64>,
    ends: Vec<u64>,
}

fn spans(alloc: Global, p: &Program, t: &SegTree, tables: &Tables) -> Result<Bounds, Memory>
    requires sound { IsSoundProgram p.now }
    requires in_tree { IsTrue (are_in_tree t.now.tree p.now) }
    requires few { crowd_in tables.now.entries 1 ≡ None }
    ensures origins { IfOk result (λ spans. spans.origins.items ≡ map (origin (laid p.now t.now.tree tables.now.entries)) (segments t.now.tree)) }
    ensures ends { IfOk result (λ spans. spans.ends.items ≡ map (end_of (laid p.now t.now.tree tables.now.entries)) (segments t.now.tree)) }
    ensures bounded { IfOk result (λ spans. All (λ n. n ≤ 4503599627370496) spans.origins.items) }
{
    let sizes = sizes(alloc, p, t, tables)?;
    let origins = origins(alloc, t, &sizes)?;
    let ends = ends(alloc, &origins, &sizes)?;
    Ok(Bounds { origins, ends })
}
