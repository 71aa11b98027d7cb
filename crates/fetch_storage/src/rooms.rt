//! The bytes of parts.
ghost use Rattle.std.specs.Prelude.{◌≡◌, ◌-◌, ◌^◌, ◌≤◌, ◌∷◌, [], IfOk, map, replicate, length, if◌then◌else◌};
ghost use Rattle.member_model.specs.Placing.{sections_of};
ghost use Rattle.text_store.specs.Content.{with_bytes, LieInContent};
ghost use Rattle.fetch_storage.specs.Homes.{sizes_by};
ghost use Rattle.fetch_storage.specs.Kept.{shifted_in};

use crate::fields::add_shift;
use fetch_places::Placement;
use le_bytes::Memory;
use load_recs::SymbolItem;
use std::alloc::Global;

/// The bytes of each part, all zero.
///
/// # Errors
/// Want of memory.
pub(crate) fn rooms(
    alloc: Global,
    items: &[SymbolItem],
    p: &Placement,
) -> Result<Vec<Vec<u8>>, Memory>
    ensures { IfOk result (λ rooms. map (λ room. room.items) rooms.items ≡ map (λ n. replicate n 0) (sizes_by items.now p.now)) }
{
    match p {
        Placement::Block(_, size) => block_room(alloc, *size),
        Placement::Scattered(_) => section_rooms(alloc, items),
    }
}

fn block_room(alloc: Global, size: u32) -> Result<Vec<Vec<u8>>, Memory>
    ensures { IfOk result (λ rooms. map (λ room. room.items) rooms.items ≡ replicate size 0 ∷ []) }
{
    let mut rooms = Vec::with_capacity(alloc, 1)?;
    rooms.push(vec![in alloc; 0u8; size as usize]?)?;
    Ok(rooms)
}

fn section_rooms(alloc: Global, items: &[SymbolItem]) -> Result<Vec<Vec<u8>>, Memory>
    ensures { IfOk result (λ rooms. map (λ room. room.items) rooms.items ≡ map (λ n. replicate n 0) (map (λ x. x.length) (sections_of items.now))) }
{
    let mut rooms = Vec::new(alloc);
    for item in items {
        if item.kind.is_section() {
            rooms.push(vec![in alloc; 0u8; item.length as usize]?)?;
        }
    }
    Ok(rooms)
}

/// Puts bytes into a part, from a place on.
pub(crate) fn write(rooms: &mut [Vec<u8>], part: usize, from: usize, bytes: &[u8])
    requires { LieInContent (map (λ room. room.items) rooms.old) part from (length bytes.now) }
    ensures { map (λ room. room.items) rooms.new ≡ with_bytes (map (λ room. room.items) rooms.old) part from bytes.now }
{
    let room = &mut rooms[part];
    let places = room.slice_mut(from..from + bytes.len());
    places.copy_from_slice(bytes);
}

/// Adds a shift to the number in `count` bytes of a part, from a place on, or takes it off.
pub(crate) fn shift_field(
    rooms: &mut [Vec<u8>],
    part: usize,
    from: usize,
    count: usize,
    shift: u32,
    minus: bool,
)
    requires some { 1 ≤ count }
    requires most { count ≤ 4 }
    requires inside { LieInContent (map (λ room. room.items) rooms.old) part from count }
    ensures { map (λ room. room.items) rooms.new ≡ shifted_in (map (λ room. room.items) rooms.old) part from count (if minus then 2 ^ 32 - shift else shift) }
{
    let room = &mut rooms[part];
    let field = room.slice_mut(from..from + count);
    add_shift(field, shift, minus);
}
