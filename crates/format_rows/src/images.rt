ghost use Rattle.std.specs.Prelude.{◌≡◌, ◌<◌, ◌≤◌, ◌+◌, ◌^◌, ℕ, List, length, IfOk};
ghost use Rattle.std.specs.List.{AllByRecursion};

use crate::samples::{FRONT, RECORDS, block, sample};
use le_bytes::{Bytes, Items, Memory, Name};
use pds_image::{image, image_length};
use pds_lib::{AliasAt, Entry, LibKind, Library, Member, Version};
use std::alloc::{AllocError, Global};
use std::test::Fail;

/// A library of one member of one card behind a dead record. Its entry has user data X'AABB' and a
/// count of one TTR in them.
const CARDS: [u8; 48] = [
    0xD7, 0xC4, 0xE2, 0xC9, 0xD4, 0xC1, 0xC7, 0xC5, 0x01, 0xC6, 0, 7, 0, 0, 0, 1, 0, 0, 0, 3, 0x00,
    0x1C, 0xC1, 0xC2, 0xC3, 0xC4, 0xC5, 0xC6, 0xC7, 0xC8, 0, 0, 2, 0x21, 0xAA, 0xBB, 0xFF, 0xFF,
    0xFF, 0xFF, 0xFF, 0xFF, 0xFF, 0xFF, 0, 0, 0, 0,
];

fn cards(alloc: Global, front: &[u8], ends: &[u8]) -> Result<Vec<u8>, AllocError> {
    let mut image = block(alloc, front)?;
    image.extend_from_slice(ends)?;
    image.extend_from_slice(&[0, 80])?;
    for _ in 0..80 {
        image.push(0x40)?;
    }
    image.extend_from_slice(&[0, 0])?;
    Ok(image)
}

/// None where the image is longer than is written.
fn image_of(alloc: Global, library: &Library) -> Result<Option<Vec<u8>>, Memory> {
    if image_length(library) > 67_108_864 {
        return Ok(None);
    }
    Ok(Some(image(library, alloc)?))
}

#[test]
fn sample_is_written_as_it_was_read(rt: HostRuntime) -> Result<(), Fail> {
    let library = Library::read(rt.alloc(), sample(rt.alloc())?)?;
    assert_eq!(rt; image_length(&library), 362);
    let written = image_of(rt.alloc(), &library)?.ok_or("an image")?;
    assert!(rt; written.as_slice() == sample(rt.alloc())?.as_slice());
    Ok(())
}

#[test]
fn cards_keep_user_data_and_lose_dead_records(rt: HostRuntime) -> Result<(), Fail> {
    let library = Library::read(rt.alloc(), cards(rt.alloc(), &CARDS, &[0, 0])?)?;
    assert_eq!(rt; image_length(&library), 360);
    let mut front = CARDS;
    front[11] = 0;
    front[19] = 2;
    front[32] = 1;
    front[33] = 0x01;
    let written = image_of(rt.alloc(), &library)?.ok_or("an image")?;
    assert!(rt; written.as_slice() == cards(rt.alloc(), &front, &[])?.as_slice());
    Ok(())
}

fn record(alloc: Global, from: usize, len: usize) -> Result<Bytes, AllocError>
    requires within { from + len ≤ 86 }
    ensures { IfOk result (λ b. length b ≡ len) }
{
    Bytes::from_slice(alloc, &RECORDS[from..from + len])
}

fn records(alloc: Global) -> Result<Items<Bytes>, AllocError>
    ensures { IfOk result (λ rs. AllByRecursion (λ (r : List ℕ). (0 < length r) × (length r < 2 ^ 16)) rs) }
{
    let mut all = Items::new(alloc);
    all.push(record(alloc, 2, 24)?)?;
    all.push(record(alloc, 28, 20)?)?;
    all.push(record(alloc, 50, 8)?)?;
    all.push(record(alloc, 60, 24)?)?;
    Ok(all)
}

#[test]
fn sample_in_the_second_version(rt: HostRuntime) -> Result<(), Fail> {
    let mut library = Library::empty(rt.alloc(), LibKind::Modules, Version::Two);
    let member = Member {
        name: Name([0xE3, 0xC5, 0xD4, 0xD7, 0xD5, 0xC1, 0xD4, 0xC5]),
        aliases: Items::new(rt.alloc()),
        attr: 0,
        length: 8,
        entry: 0,
        entry_section: 1,
        records: records(rt.alloc())?,
    };
    library.stow(rt.alloc(), member, false)?;
    assert_eq!(rt; image_length(&library), 372);
    let written = image_of(rt.alloc(), &library)?.ok_or("an image")?;
    let mut wanted = block(rt.alloc(), &FRONT)?;
    if let Some(version) = wanted.get_mut(8) {
        *version = 2;
    }
    for (from, len) in [(2usize, 24usize), (28, 20), (50, 8), (60, 24), (86, 0)] {
        wanted.extend_from_slice(&[0, 0, 0, len as u8])?;
        wanted.extend_from_slice(RECORDS.get(from..from + len).ok_or("a record")?)?;
    }
    assert!(rt; written.as_slice() == wanted.as_slice());
    Ok(())
}

/// Whether two libraries have the same entries, kind, version, and records of each entry.
fn is_same(a: &Library, b: &Library) -> bool {
    a.kind() == b.kind()
        && a.version() == b.version()
        && a.entries() == b.entries()
        && a.entries().iter().all(|e| has_same_records(a, b, e))
}

fn has_same_records(a: &Library, b: &Library, e: &Entry) -> bool {
    let mine = a.records(e);
    let others = b.records(e);
    if mine.count() != others.count() {
        return false;
    }
    for k in 0..mine.count() {
        if mine.get(k + 1) != others.get(k + 1) {
            return false;
        }
    }
    true
}

fn read_again(alloc: Global, library: &Library) -> Result<Library, Fail> {
    let written = image_of(alloc, library)?.ok_or("an image")?;
    Ok(Library::read(alloc, written)?)
}

/// A library of one member of four records with an alias.
fn modules(alloc: Global, version: Version) -> Result<Library, Fail> {
    let mut library = Library::empty(alloc, LibKind::Modules, version);
    let mut aliases = Items::new(alloc);
    aliases.push(AliasAt {
        name: Name(*b"ABCDEFGH"),
        entry: 4,
        entry_section: 1,
    })?;
    let member = Member {
        name: Name(*b"TEMPNAME"),
        aliases,
        attr: 0,
        length: 8,
        entry: 0,
        entry_section: 1,
        records: records(alloc)?,
    };
    library.stow(alloc, member, false)?;
    Ok(library)
}

#[test]
fn what_is_written_is_read_as_the_same_library(rt: HostRuntime) -> Result<(), Fail> {
    let alloc = rt.alloc();
    let libraries = [
        Library::empty(alloc, LibKind::Modules, Version::One),
        Library::empty(alloc, LibKind::Cards, Version::Two),
        modules(alloc, Version::One)?,
        modules(alloc, Version::Two)?,
        Library::read(alloc, cards(alloc, &CARDS, &[0, 0])?)?,
    ];
    for library in &libraries {
        assert!(rt; is_same(library, &read_again(alloc, library)?));
    }
    Ok(())
}
