//! The segments of a member other than the root, by their statements.
ghost use Rattle.std.specs.Prelude.{◌≡◌, ◌==◌, ◌&&◌, nat_lt, ◌+◌, ◌≤◌, ◌<◌, ◌++◌, not, length, map, filter, IfOk, OnOk};
ghost use Rattle.std.specs.List.{list_any, range_with_len};
ghost use Rattle.le_bytes.specs.Names.{is_writable};
ghost use Rattle.member_model.specs.Symbols.{is_table, is_named_kind};
ghost use Rattle.member_model.specs.Relink.{is_inserted, overlay_statement};
ghost use Rattle.member_model.specs.Starting.{later_segments};
ghost use Rattle.relink_list.specs.Segments.{parent_of, region_of, has_region, inserts_of, begun, segment_of, relink_segments, relink_of};

use crate::names::{is_writable, symbol_name};
use crate::tree::SegmentPlace;
use le_bytes::{Items, Memory, Name};
use list_text::{Relink, RelinkSegment};
use load_recs::{SymbolItem, SymbolKind};
use std::alloc::Global;
use sym_mod::is_reserved;

/// `P` and `R` in EBCDIC, which the symbols of OVERLAY statements begin with: at a parent, or at a region.
const AT_PARENT: u8 = 0xD7;

const AT_REGION: u8 = 0xD9;

/// The statements that link the member `name` with these other names again. `tree` has the places of its
/// segments, segment 1 first, and one place alone where it has no overlay. The time is that of the number of
/// segments, at most 255, times that of items.
///
/// # Errors
/// Out of memory.
pub fn relink(
    alloc: Global,
    name: &Name,
    aliases: Items<Name>,
    tree: &[SegmentPlace],
    symbols: &[SymbolItem],
) -> Result<Relink, Memory>
    requires { length tree.now ≤ 255 }
    ensures { IfOk result (λ r. r ≡ relink_of name.now aliases tree.now symbols.now) }
{
    let segments = relink_segments(alloc, tree, symbols)?;
    Ok(Relink {
        member: *name,
        aliases,
        segments,
    })
}

/// The segments from 2 on, each with its OVERLAY symbol and the sections that INSERT statements name: those
/// that a statement can write and that are no tables, in item order.
///
/// # Errors
/// Out of memory.
#[tactic(auto, unfolding(crate::specs::Segments::relink_segments))]
pub fn relink_segments(
    alloc: Global,
    tree: &[SegmentPlace],
    symbols: &[SymbolItem],
) -> Result<Items<RelinkSegment>, Memory>
    requires { length tree.now ≤ 255 }
    ensures { IfOk result (λ segments. segments ≡ relink_segments tree.now symbols.now) }
{
    let mut segments = Items::new(alloc);
    for k in 0..tree.len().saturating_sub(1) {
        segments.push(segment(alloc, tree, k + 1, symbols)?)?;
    }
    Ok(segments)
}

/// The segment after `k` of them.
fn segment(
    alloc: Global,
    tree: &[SegmentPlace],
    k: usize,
    symbols: &[SymbolItem],
) -> Result<RelinkSegment, Memory>
    requires first { 1 ≤ k }
    requires there { k < length tree.now }
    requires few { length tree.now ≤ 255 }
    ensures { IfOk result (λ segment. segment ≡ segment_of tree.now symbols.now (k + 1)) }
{
    let place = tree[k];
    let inserts = inserts(alloc, symbols, k as u8 + 1)?;
    if stands_at_region(&place) {
        Ok(RelinkSegment {
            symbol: symbol_name(AT_REGION, place.region),
            region: !has_region(&tree[..k], place.region),
            inserts,
        })
    } else {
        Ok(RelinkSegment {
            symbol: symbol_name(AT_PARENT, place.parent),
            region: false,
            inserts,
        })
    }
}

/// Whether the segment stands below the root in a region above the first.
fn stands_at_region(place: &SegmentPlace) -> bool
    ensures { result ≡ (place.now.parent == 1 && nat_lt 1 place.now.region) }
{
    place.parent == 1 && 1 < place.region
}

/// Whether one of the segments is in the region.
fn has_region(places: &[SegmentPlace], region: u8) -> bool
    ensures { result ≡ has_region places.now region }
{
    places.iter().any(|x| x.region == region)
}

/// The names of the sections of segment `s` that INSERT statements name.
fn inserts(alloc: Global, symbols: &[SymbolItem], s: u8) -> Result<Items<Name>, Memory>
    ensures { IfOk result (λ names. names ≡ inserts_of symbols.now s) }
{
    let mut names = Items::new(alloc);
    for x in symbols {
        if is_inserted(x, s) {
            names.push(x.name)?;
        }
    }
    Ok(names)
}

/// Whether the item is a named section of segment `s`, no table, whose name a statement can write.
fn is_inserted(x: &SymbolItem, s: u8) -> bool
    ensures { result ≡ is_inserted s x.now }
{
    is_named_section(x) && x.segment == s && !is_table(x) && is_writable(&x.name)
}

fn is_named_section(x: &SymbolItem) -> bool
    ensures { result ≡ is_named_kind x.now.kind }
{
    matches!(x.kind, SymbolKind::Sd | SymbolKind::Cm)
}

fn is_table(x: &SymbolItem) -> bool
    ensures { result ≡ is_table x.now }
{
    match x.kind {
        SymbolKind::Sd => is_reserved(&x.name),
        _ => false,
    }
}
