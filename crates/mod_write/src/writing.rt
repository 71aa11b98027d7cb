//! A member written.
ghost use Rattle.std.specs.Prelude.{◌≡◌, ◌+◌, All, map, if◌then◌else◌, IfOk};
ghost use Rattle.relocate.specs.Ready.{laid};
ghost use Rattle.member_model.specs.Parts.{OneSection, part_number};
ghost use Rattle.member_model.specs.Written.{member_written};
ghost use Rattle.mod_write.specs.Naming.{named, IsPoint, ArePoints};
ghost use Rattle.mod_write.specs.Ready.{IsLinked, IsFormat};
ghost use Rattle.mod_write.specs.Stowable.{IsStowable};
ghost use Rattle.mod_write.specs.Written.{alias_at};

use crate::items::chains;
use crate::naming::{AliasPoint, Format, Naming, PointAt};
use crate::records::records;
use crate::segments::Source;
use le_bytes::{Items, Memory};
use mod_parts::{Part, PartList};
use pds_lib::{AliasAt, Member};
use seg_tree::SegTree;
use std::alloc::{AllocError, Global};
use sym_mod::{Places, Program, Tables};
use text_store::TextKeeper;

/// The attribute of an overlay member.
const OVERLAY: u8 = 0x20;
/// The attribute of a member that can be scattered.
const SCATTER: u8 = 0x04;

/// The member of a linked program: the records of its names, with the scatter records where the format
/// asks for them, the note list of an overlay program, and the records of each segment, segment 1 first;
/// beside them the length, the entry point, the aliases and the attribute for the directory. The program
/// has to be linked for a block at 0, with the addresses and the tables that are its own, and each entry
/// point has to lie in a section of segment 1, or at its end. Its definition, `member_written`, stands in
/// `member_model`.
/// n log n in the constants of a section, else linear in sections, labels, constants and bytes of text.
///
/// # Errors
/// Want of memory.
pub fn write_member<K: TextKeeper>(
    alloc: Global,
    k: &K,
    p: &Program,
    a: &Places,
    tree: &SegTree,
    t: &Tables,
    fmt: Format,
    who: Naming,
) -> Result<Member, Memory>
    requires linked { IsLinked (laid p.now tree.now t.now) a.now (K.content k.now) }
    requires format { IsFormat (laid p.now tree.now t.now) fmt }
    requires points { ArePoints (laid p.now tree.now t.now) who }
    ensures member { IfOk result (λ m. m ≡ member_written (laid p.now tree.now t.now) fmt.scatter fmt.piece (named (laid p.now tree.now t.now) who)) }
    ensures stowable { IfOk result IsStowable }
{
    let list = PartList::new(alloc, p, tree, t)?;
    let chains = chains(alloc, &list)?;
    let from = Source {
        kept: k,
        list: &list,
        places: a,
        chains: &chains,
        piece: fmt.piece,
    };
    let records = records(alloc, &from, fmt)?;
    let aliases = aliases(alloc, &list, who.aliases.as_slice())?;
    Ok(Member {
        name: who.name,
        aliases,
        attr: attribute(fmt),
        length: a.length,
        entry: who.point.address,
        entry_section: item_of(&list, who.point),
        records,
    })
}

/// X'20' of an overlay program, X'04' of one that can be scattered.
fn attribute(fmt: Format) -> u8
    ensures { result ≡ (if fmt.overlay then 32 else 0) + (if fmt.scatter then 4 else 0) }
{
    let overlay = if fmt.overlay { OVERLAY } else { 0 };
    let scatter = if fmt.scatter { SCATTER } else { 0 };
    overlay + scatter
}

/// The item number of the section of an entry point.
fn item_of(list: &PartList<'_>, point: PointAt) -> u16
    requires { IsPoint list.now point }
    ensures { result ≡ part_number list.now (OneSection point.section) }
{
    list.number_of(Part::Section(point.section))
}

/// The aliases with the item numbers of their sections.
fn aliases(
    alloc: Global,
    list: &PartList<'_>,
    points: &[AliasPoint],
) -> Result<Items<AliasAt>, AllocError>
    requires { All (λ x. IsPoint list.now x.point) points.now }
    ensures { IfOk result (λ aliases. aliases ≡ map (alias_at list.now) points.now) }
{
    let mut aliases = Items::new(alloc);
    for alias in points {
        aliases.push(AliasAt {
            name: alias.name,
            entry: alias.point.address,
            entry_section: item_of(list, alias.point),
        })?;
    }
    Ok(aliases)
}
