//! How long the image of a library is.
ghost use Rattle.std.specs.Prelude.{◌≡◌, ◌≤◌, ◌<◌, ◌+◌, ◌-◌, ◌^◌, ◌∷◌, [], ℕ, List, min, length};
ghost use Rattle.std.specs.List.{flat_map};
ghost use Rattle.pds_lib.specs.Contents.{entries_of};
ghost use Rattle.pds_directory.specs.Places.{width};
ghost use Rattle.pds_image.specs.Spelling.{data_bytes, record_bytes};
ghost use Rattle.pds_image.specs.Lengths.{capped, block_length, blocks_length};
ghost use Rattle.pds_image.specs.Image.{spelled_entry, directory_bytes, body_bytes, written};

use crate::directory::ROOM;
use crate::members::record_behind;
use le_bytes::Name;
use pds_lib::{Entry, LibKind, Library, Records, Version};

/// The sum, or the greatest number of 64 bits where it is above that.
#[tactic(auto, unfolding(crate::specs::Lengths::capped))]
fn add(a: u64, b: u64) -> u64
    ensures { result ≡ capped (a + b) }
{
    a.saturating_add(b)
}

fn name_length(n: &Name) -> u64
    ensures value { result ≡ length n.now.0 }
    ensures eight { result ≡ 8 }
{
    n.0.as_slice().len() as u64
}

#[tactic(auto, unfolding(crate::specs::Spelling::number_bytes))]
fn data_length(kind: LibKind, e: &Entry, kept: &[u8]) -> u64
    ensures value { result ≡ length (data_bytes kind e.now kept.now) }
    ensures small { result ≤ 2 ^ 63 }
{
    match kind {
        LibKind::Cards => kept.len() as u64,
        LibKind::Modules => {
            if e.alias {
                12 + name_length(&e.main)
            } else {
                12
            }
        }
    }
}

#[tactic(auto, unfolding(crate::specs::Image::spelled_entry, crate::specs::Spelling::number_bytes))]
fn entry_length(library: &Library, e: &Entry) -> u64
    ensures { result ≡ length (spelled_entry library.now e.now) }
{
    name_length(&e.name) + 4 + data_length(library.kind(), e, library.user_data(e))
}

#[tactic(auto, unfolding(crate::specs::Lengths::block_length, crate::specs::Lengths::capped))]
fn block_length(used: u64) -> u64
    ensures { result ≡ capped (block_length used) }
{
    used.max(ROOM as u64).saturating_add(2)
}

/// Counts an entry of `n` bytes into the block that is being filled, or into the next one.
#[tactic(auto, unfolding(crate::specs::Lengths::blocks_length))]
fn count_entry(total: &mut u64, used: &mut u64, n: u64)
    ensures { (ns : List ℕ) → capped (total.new + blocks_length used.new ns) ≡ capped (total.old + blocks_length used.old (n ∷ ns)) }
{
    if used.saturating_add(n) > ROOM as u64 {
        *total = add(*total, block_length(*used));
        *used = n;
    } else {
        *used += n;
    }
}

fn directory_length(library: &Library) -> u64
    ensures { result ≡ capped (length (directory_bytes library.now)) }
{
    let mut total = 0;
    let mut used = 0;
    for e in library.entries() {
        count_entry(&mut total, &mut used, entry_length(library, e));
    }
    count_entry(&mut total, &mut used, 12);
    add(total, block_length(used))
}

fn width(version: Version) -> u64
    ensures value { result ≡ width version }
    ensures small { result ≤ 4 }
{
    match version {
        Version::One => 2,
        Version::Two => 4,
    }
}

fn records_length(version: Version, records: &Records<'_>) -> u64
    ensures { result ≡ capped (length (flat_map (record_bytes version) records.now)) }
{
    let mut total = 0;
    for k in 0..records.count() {
        total = add(
            total,
            add(width(version), record_behind(records, k).len() as u64),
        );
    }
    total
}

#[tactic(auto, unfolding(crate::specs::Image::body_bytes))]
fn body_length(library: &Library, e: &Entry) -> u64
    ensures { result ≡ capped (length (body_bytes library.now e.now)) }
{
    if e.alias {
        0
    } else {
        let version = library.version();
        add(records_length(version, &library.records(e)), width(version))
    }
}

fn bodies_length(library: &Library) -> u64
    ensures { result ≡ capped (length (flat_map (body_bytes library.now) (entries_of library.now))) }
{
    let mut total = 0;
    for e in library.entries() {
        total = add(total, body_length(library, e));
    }
    total
}

/// The bytes of the image of a library, and the greatest number of 64 bits where there are more. The cost
/// is linear in the records, and n log n in the entries.
pub fn image_length(library: &Library) -> u64
    ensures { result ≡ min (length (written library.now)) (2 ^ 64 - 1) }
{
    add(20, add(directory_length(library), bodies_length(library)))
}
