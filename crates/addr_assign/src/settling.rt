//! The segments of sections.
ghost use Rattle.std.specs.Prelude.{◌≡◌, ◌∷◌, ◌==◌, not, if◌then◌else◌, map, IfOk, OnOk, Some, None};
ghost use Rattle.std.specs.Option.{option_map_or};
ghost use Rattle.std.specs.List.{list_any};
ghost use Rattle.std.specs.HashMap.{get};
ghost use Rattle.le_bytes.specs.declared.name.Name.{Name};
ghost use Rattle.le_bytes.specs.Names.{name_eq};
ghost use Rattle.sym_mod.specs.Sound.{IsSoundProgram};
ghost use Rattle.linking_model.specs.Tree.{lowest_common};
ghost use Rattle.linking_model.specs.Settled.{has_root_section, inserted_or, is_section_named, settled, settled_segment, unknown_insert};
ghost use Rattle.addr_assign.specs.Answers.{SettleAnswer};
ghost use Rattle.addr_assign.specs.Maps.{first_insert, HoldsInserts, HoldsSections, moved};

use le_bytes::{Items, Name};
use seg_tree::SegTree;
use std::alloc::{AllocError, Global};
use std::collections::HashMap;
use std::mem;
use sym_mod::{Program, SecKind, Section};

/// Why sections get no segments.
#[derive(Clone, Copy, Debug, PartialEq, Eq)]
pub enum SettleFault {
    /// An INSERT names no named section.
    InsertUnknown(Name),
    /// No section stands in the root.
    NoSection,
    Memory,
}

/// Puts each section into its segment: where the first INSERT of its name says, else a common area into
/// the lowest segment on the paths of all that brought it, and any other section where it is.
/// Linear in sections, names and users, but for the number of segments.
///
/// # Errors
/// The first name of an INSERT that no named section has; `NoSection` where none is unknown and the root
/// would be empty; want of memory. The program is then as before.
pub fn settle(
    alloc: Global,
    p: &mut Program,
    t: &SegTree,
    inserts: &[(Name, u8)],
) -> Result<(), SettleFault>
    ensures answer { SettleAnswer t.now.tree inserts.now p.old result p.new }
    ensures sound { IsSoundProgram p.old → IsSoundProgram p.new }
{
    match first_unknown(alloc, p, inserts) {
        Ok(None) => {}
        Ok(Some(name)) => return Err(SettleFault::InsertUnknown(name)),
        Err(_) => return Err(SettleFault::Memory),
    }
    let Ok(moves) = first_inserts(alloc, inserts) else {
        return Err(SettleFault::Memory);
    };
    if !fills_root(p, t, inserts, &moves) {
        return Err(SettleFault::NoSection);
    }
    move_sections(alloc, p, t, inserts, &moves);
    Ok(())
}

/// The first name in an INSERT that no named section has. A program without INSERTs has all its sections
/// at hand, and no map of them is made.
fn first_unknown(
    alloc: Global,
    p: &Program,
    inserts: &[(Name, u8)],
) -> Result<Option<Name>, AllocError>
    ensures { IfOk result (λ name. name ≡ unknown_insert p.now inserts.now) }
{
    if inserts.is_empty() {
        return Ok(None);
    }
    let named = section_numbers(alloc, p.sections.as_slice())?;
    Ok(unknown_insert(p, &named, inserts))
}

/// The first section of each name.
pub(crate) fn section_numbers(
    alloc: Global,
    sections: &[Section],
) -> Result<HashMap<Name, usize>, AllocError>
    ensures { IfOk result (λ m. HoldsSections m sections.now) }
{
    let mut named = HashMap::with_capacity(alloc, sections.len())?;
    for done in 0..sections.len() {
        let at = sections.len() - 1 - done;
        put_section(&mut named, &sections[at], at)?;
    }
    Ok(named)
}

fn put_section(named: &mut HashMap<Name, usize>, x: &Section, at: usize) -> Result<(), AllocError>
    ensures { OnOk result ((n : Name) → get name_eq named.new n ≡ (if is_section_named n x.now then Some at else get name_eq named.old n)) }
{
    if x.kind != SecKind::Pc {
        let _ = named.insert(x.name, at)?;
    }
    Ok(())
}

/// The first name in an INSERT that no named section has.
fn unknown_insert(p: &Program, named: &HashMap<Name, usize>, inserts: &[(Name, u8)]) -> Option<Name>
    requires { HoldsSections named.now p.now.sections }
    ensures { result ≡ unknown_insert p.now inserts.now }
{
    for (name, _) in inserts {
        if is_unknown(p, named, name) {
            return Some(*name);
        }
    }
    None
}

#[tactic(auto, using(crate::proofs::Maps::section_there))]
fn is_unknown(p: &Program, named: &HashMap<Name, usize>, name: &Name) -> bool
    requires { HoldsSections named.now p.now.sections }
    ensures { result ≡ not (list_any (is_section_named name.now) p.now.sections) }
{
    !named.contains_key(name)
}

/// Whether a section will stand in the root.
#[tactic(auto, using(crate::proofs::Moved::root_filled))]
fn fills_root(p: &Program, t: &SegTree, inserts: &[(Name, u8)], moves: &HashMap<Name, u8>) -> bool
    requires { HoldsInserts moves.now inserts.now }
    ensures { result ≡ has_root_section (settled t.now.tree inserts.now p.now) }
{
    any_in_root(p, t, inserts, moves)
}

fn any_in_root(p: &Program, t: &SegTree, inserts: &[(Name, u8)], moves: &HashMap<Name, u8>) -> bool
    requires { HoldsInserts moves.now inserts.now }
    ensures { result ≡ list_any (λ x. settled_segment t.now.tree inserts.now x x.kind == 1) p.now.sections }
{
    for x in p.sections.as_slice() {
        if settled_segment(x, t, inserts, moves) == 1 {
            return true;
        }
    }
    false
}

#[tactic(auto, using(crate::proofs::Moved::settled_is, crate::proofs::Moved::stays_sound))]
fn move_sections(
    alloc: Global,
    p: &mut Program,
    t: &SegTree,
    inserts: &[(Name, u8)],
    moves: &HashMap<Name, u8>,
)
    requires { HoldsInserts moves.now inserts.now }
    ensures settled { p.new ≡ settled t.now.tree inserts.now p.old }
    ensures sound { IsSoundProgram p.old → IsSoundProgram p.new }
{
    let sections = mem::replace(&mut p.sections, Items::new(alloc));
    p.sections = moved(sections, t, inserts, moves);
}

fn moved(
    sections: Items<Section>,
    t: &SegTree,
    inserts: &[(Name, u8)],
    moves: &HashMap<Name, u8>,
) -> Items<Section>
    requires { HoldsInserts moves.now inserts.now }
    ensures { result ≡ map (moved t.now.tree inserts.now) sections }
{
    let mut list = sections.into_vec();
    for i in 0..list.len() {
        move_one(&mut list[i], t, inserts, moves);
    }
    Items::from_vec(list)
}

#[tactic(auto, unfolding(crate::specs::Maps::moved))]
fn move_one(x: &mut Section, t: &SegTree, inserts: &[(Name, u8)], moves: &HashMap<Name, u8>)
    requires { HoldsInserts moves.now inserts.now }
    ensures { x.new ≡ moved t.now.tree inserts.now x.old }
{
    x.segment = settled_segment(x, t, inserts, moves);
}

/// The segment of the first INSERT of each name.
fn first_inserts(alloc: Global, inserts: &[(Name, u8)]) -> Result<HashMap<Name, u8>, AllocError>
    ensures { IfOk result (λ m. HoldsInserts m inserts.now) }
{
    let mut moves = HashMap::new(alloc);
    // From the end, so that the first of a name is put last.
    for done in 0..inserts.len() {
        let (name, segment) = inserts[inserts.len() - 1 - done];
        let _ = moves.insert(name, segment)?;
    }
    Ok(moves)
}

/// The segment in which a section stands.
fn settled_segment(
    x: &Section,
    t: &SegTree,
    inserts: &[(Name, u8)],
    moves: &HashMap<Name, u8>,
) -> u8
    requires { HoldsInserts moves.now inserts.now }
    ensures { result ≡ settled_segment t.now.tree inserts.now x.now x.now.kind }
{
    match x.kind {
        SecKind::Sd => inserted_or(inserts, moves, &x.name, x.segment),
        SecKind::Pc => x.segment,
        SecKind::Cm => {
            let lowest = lowest(t, x.users.as_slice());
            inserted_or(inserts, moves, &x.name, lowest)
        }
    }
}

#[tactic(auto, unfolding(crate::specs::Maps::first_insert))]
fn inserted_or(inserts: &[(Name, u8)], moves: &HashMap<Name, u8>, name: &Name, other: u8) -> u8
    requires { HoldsInserts moves.now inserts.now }
    ensures { result ≡ inserted_or inserts.now name.now other }
{
    // Where there are no INSERTs no name has to be hashed.
    if inserts.is_empty() {
        return other;
    }
    match moves.get(name) {
        Some(segment) => *segment,
        None => other,
    }
}

/// The lowest segment on the paths of all users.
#[tactic(auto, using(crate::proofs::Lowest::lowest_empty))]
fn lowest(t: &SegTree, users: &[u8]) -> u8
    ensures { result ≡ lowest_common t.now.tree users.now }
{
    match users {
        [] => 1,
        [first, rest @ ..] => lowest_from(t, *first, rest),
    }
}

fn lowest_from(t: &SegTree, first: u8, rest: &[u8]) -> u8
    ensures { result ≡ lowest_common t.now.tree (first ∷ rest.now) }
{
    let _count = t.count();
    let mut on = t.common(first, first);
    for user in rest {
        on = t.common(on, *user);
    }
    on
}
