//! Placements.
ghost use Rattle.std.specs.Prelude.{◌≡◌};
ghost use Rattle.fetch_places.specs.Blocks.{block_placement};

use le_bytes::{Items, PlaceWhat};

/// A part of storage over which sections may be placed.
#[derive(Clone, Copy, Debug, PartialEq, Eq)]
pub struct Area {
    /// Its first address.
    pub from: u32,
    /// The address behind its last.
    pub to: u32,
}

/// Where the sections of a member stand in storage.
#[derive(Debug, Drop, PartialEq, Eq)]
pub enum Placement {
    /// In one block: the address of the module's first byte, and the module's length in bytes.
    Block(u32, u32),
    /// Each for itself: the address of each SD, PC and CM, in item order.
    Scattered(Items<u32>),
}

/// A module of `len` bytes in one block from address `origin` on.
///
/// # Errors
/// `BadOrigin`: `origin` is no multiple of 8, or origin plus length passes 16,777,215.
pub fn place_block(origin: u32, len: u32) -> Result<Placement, PlaceWhat>
    ensures { result ≡ block_placement origin len }
{
    let end = u64::from(origin) + u64::from(len);
    if origin % 8 == 0 && end <= 16_777_215 {
        Ok(Placement::Block(origin, len))
    } else {
        Err(PlaceWhat::BadOrigin)
    }
}
