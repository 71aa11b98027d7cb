//! A linked program as a load module.
ghost use Rattle.std.specs.Prelude.{◌≡◌, false, map, filter, IfOk};
ghost use Rattle.le_bytes.specs.Names.{name_eq};
ghost use Rattle.linking_model.specs.Points.{default_point};
ghost use Rattle.pds_lib.specs.Stow.{last_name};
ghost use Rattle.member_model.specs.Written.{member_written};
ghost use Rattle.block_storage.specs.Storage.{alone};
ghost use Rattle.mod_segments.specs.Pieces.{IsPieceLength};
ghost use Rattle.mod_write.specs.Naming.{IsPoint, seen};
ghost use Rattle.mod_write.specs.Stowable.{IsStowable as CanBeStowed};
ghost use Rattle.member_laws.specs.Linkable.{HasEightBytes};
ghost use Rattle.link_core.specs.Programs.{is_wanting};
ghost use Rattle.link_core.specs.Links.{IsLinked};
ghost use Rattle.link_core.specs.Modules.{IsStowable, linked_module, naming, piece_of, wanting_names};

use crate::linked::Linked;
use crate::options::Options;
use crate::printing::listing;
use crate::program::LinkedProgram;
use crate::programs::entry_point;
use block_storage::linked_text;
use le_bytes::{Bytes, Items, Memory, Name};
use mod_write::{Format, Naming, PointAt, write_member};
use pds_lib::{Member, Version};
use std::alloc::Global;
use sym_mod::Unknown;

/// A linked program as the load module that no NAME statement ends: under the name of the options,
/// which it replaces in a library.
///
/// # Errors
/// Want of memory.
#[tactic(auto, unfolding(crate::specs::Modules::linked_module))]
pub fn linked_module(alloc: Global, linked: &LinkedProgram, o: &Options) -> Result<Linked, Memory>
    requires { IsLinked linked.now }
    ensures module { IfOk result (λ x. x ≡ linked_module o.now linked.now.program) }
    ensures stowable { name_eq last_name o.now.member ≡ false → IfOk result IsStowable }
    ensures eight { IfOk result (λ _. HasEightBytes o.now.member) }
{
    let point = entry_point(alloc, linked)?;
    let listing = listing(alloc, linked, &o.member, point.address)?;
    let unresolved = wanting_names(alloc, linked.program.unresolved.as_slice())?;
    let member = written_member(alloc, linked, o, point)?;
    Ok(Linked {
        member,
        replace: true,
        unresolved,
        listing: Bytes::from_vec(listing),
    })
}

/// The member that a linked program is written as.
fn written_member(
    alloc: Global,
    linked: &LinkedProgram,
    o: &Options,
    point: PointAt,
) -> Result<Member, Memory>
    requires linked { IsLinked linked.now }
    requires point { seen (alone linked.now.program) point ≡ default_point linked.now.program }
    requires inside { IsPoint (alone linked.now.program) point }
    ensures member { IfOk result (λ m. m ≡ member_written (alone linked.now.program) o.now.sctr (piece_of o.now.version) (naming o.now.member linked.now.program)) }
    ensures stowable { IfOk result CanBeStowed }
    ensures eight { IfOk result (λ _. HasEightBytes o.now.member) }
{
    let text = linked_text(alloc, &linked.program, &linked.tree, &linked.places, 0)?;
    let format = Format {
        overlay: false,
        scatter: o.sctr,
        piece: piece_of(o.version),
    };
    let who = Naming {
        name: same_name(&o.member),
        point,
        aliases: Items::new(alloc),
    };
    write_member(
        alloc,
        &text,
        &linked.program,
        &linked.places,
        &linked.tree,
        &linked.tables,
        format,
        who,
    )
}

/// The same name, whose letters are eight.
fn same_name(n: &Name) -> Name
    ensures name { result ≡ n.now }
    ensures eight { HasEightBytes n.now }
{
    Name(n.0)
}

/// The greatest length of a text record in a library of this version.
fn piece_of(version: Version) -> u32
    ensures piece { result ≡ piece_of version }
    ensures length { IsPieceLength result }
{
    match version {
        Version::One => 1024,
        Version::Two => 13_030,
    }
}

/// The names of those that have to be resolved and are not.
fn wanting_names(alloc: Global, unresolved: &[Unknown]) -> Result<Items<Name>, Memory>
    ensures { IfOk result (λ names. names ≡ map (λ x. x.name) (filter is_wanting unresolved.now)) }
{
    let mut names = Items::new(alloc);
    for unknown in unresolved {
        if !unknown.weak {
            names.push(unknown.name)?;
        }
    }
    Ok(names)
}
