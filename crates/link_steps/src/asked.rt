//! What INCLUDE and LIBRARY statements ask for.
ghost use Rattle.std.specs.Prelude.{◌≡◌, ◌++◌, map, flat_map, Some, IfOk, OnOk};
ghost use Rattle.std.specs.Option.{option_copied};
ghost use Rattle.pds_lib.specs.Contents.{find_entry};
ghost use Rattle.link_steps.specs.Asked.{asked, asked_fault, libraries_fault, library_fault, body_of, unless_found};

use ctl_cards::{IncludeItem, LibraryItem};
use le_bytes::{CardWhat, Memory, Name};
use pds_lib::{Body, Library, Set};
use std::alloc::Global;

/// A sequential set, or a member of a library.
#[derive(Clone, Copy, Debug, PartialEq, Eq)]
pub struct Asked {
    pub dd: Name,
    pub member: Option<Name>,
}

/// What the items of an INCLUDE statement ask for, in their order: of an item without members the set
/// itself, and else each of the members.
pub fn asked_of(alloc: Global, items: &[IncludeItem]) -> Result<Vec<Asked>, Memory>
    ensures { IfOk result (λ all. all.items ≡ flat_map asked items.now) }
{
    let mut all = Vec::new(alloc);
    for item in items {
        push_asked(&mut all, item)?;
    }
    Ok(all)
}

fn push_asked(all: &mut Vec<Asked>, item: &IncludeItem) -> Result<(), Memory>
    ensures { OnOk result (all.new.items ≡ all.old.items ++ asked item.now) }
{
    if item.members.is_empty() {
        all.push(Asked {
            dd: item.dd,
            member: None,
        })?;
        return Ok(());
    }
    push_members(all, item.dd, item.members.as_slice())
}

fn push_members(all: &mut Vec<Asked>, dd: Name, members: &[Name]) -> Result<(), Memory>
    ensures { OnOk result (all.new.items ≡ all.old.items ++ map (λ n. record { dd = dd; member = Some n }) members.now) }
{
    for member in members {
        all.push(Asked {
            dd,
            member: Some(*member),
        })?;
    }
    Ok(())
}

/// The body of the first set of this name.
pub fn body_of<'a>(sets: &'a [Set], dd: &Name) -> Option<&'a Body>
    ensures { option_copied result ≡ body_of sets.now dd.now }
{
    let set = sets.iter().find(|set| set.dd == *dd)?;
    Some(&set.body)
}

/// What is wrong with a set or member that is asked for: there is no such set; it is a library and no
/// member is named, or it is none and one is named; the library has no such member.
#[tactic(auto, unfolding(crate::specs::Asked::asked_fault))]
pub fn asked_fault(sets: &[Set], asked: Asked) -> Option<CardWhat>
    ensures { result ≡ asked_fault sets.now asked }
{
    match (body_of(sets, &asked.dd), asked.member) {
        (None, _) => Some(CardWhat::NoSuchDd(asked.dd)),
        (Some(Body::Cards(_)), None) => None,
        (Some(Body::Lib(_)), None) | (Some(Body::Cards(_)), Some(_)) => {
            Some(CardWhat::BadDd(asked.dd))
        }
        (Some(Body::Lib(library)), Some(member)) => unless_found(library, member),
    }
}

fn unless_found(library: &Library, member: Name) -> Option<CardWhat>
    ensures { result ≡ unless_found member (find_entry library.now member) }
{
    match library.find(&member) {
        None => Some(CardWhat::MemberAbsent(member)),
        Some(_) => None,
    }
}

/// What is wrong with the first item of a LIBRARY statement with which something is: there is no set of
/// its data definition name, or that is no library.
#[tactic(auto, unfolding(crate::specs::Asked::libraries_fault))]
pub fn libraries_fault(sets: &[Set], items: &[LibraryItem]) -> Option<CardWhat>
    ensures { result ≡ libraries_fault sets.now items.now }
{
    for item in items {
        if let Some(what) = library_fault(sets, item) {
            return Some(what);
        }
    }
    None
}

fn library_fault(sets: &[Set], item: &LibraryItem) -> Option<CardWhat>
    ensures { result ≡ library_fault sets.now item.now }
{
    match item {
        LibraryItem::From(dd, _) => match body_of(sets, dd) {
            None => Some(CardWhat::NoSuchDd(*dd)),
            Some(Body::Cards(_)) => Some(CardWhat::BadDd(*dd)),
            Some(Body::Lib(_)) => None,
        },
        LibraryItem::NoCall(_) | LibraryItem::NeverCall(_) => None,
    }
}
