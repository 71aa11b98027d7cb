//! The directory of an image.
ghost use Rattle.std.specs.Prelude.{◌≡◌, ◌++◌, ℕ, List, [], ◌∷◌, length, replicate, if◌then◌else◌, IfOk, OnOk};
ghost use Rattle.std.specs.Option.{option_map_or};
ghost use Rattle.std.specs.HashMap.{get};
ghost use Rattle.le_bytes.specs.Names.{name_eq};
ghost use Rattle.pds_lib.specs.Contents.{entries_of};
ghost use Rattle.pds_image.specs.Spelling.{module_data, data_bytes, flag_byte, entry_bytes, block_bytes, PutsEntry};
ghost use Rattle.pds_image.specs.Image.{first_from, spelled_entry, directory_bytes};
ghost use Rattle.le_bytes.specs.declared.name.Name.{Name};

use crate::numbers::{put2, put3};
use le_bytes::Name;
use pds_lib::{Entry, LibKind, Library};
use std::alloc::{AllocError, Global};
use std::collections::HashMap;

/// The bytes of a block behind its used count.
pub(crate) const ROOM: usize = 254;

/// The last entry.
const CLOSING: [u8; 12] = [0xFF, 0xFF, 0xFF, 0xFF, 0xFF, 0xFF, 0xFF, 0xFF, 0, 0, 0, 0];

fn put_main(out: &mut Vec<u8>, e: &Entry) -> Result<(), AllocError>
    ensures { OnOk result (out.new.items ≡ out.old.items ++ (if e.now.alias then e.now.main.0 else [])) }
{
    if e.alias {
        out.extend_from_slice(&e.main.0)?;
    }
    Ok(())
}

fn put_module_data(out: &mut Vec<u8>, e: &Entry) -> Result<(), AllocError>
    ensures { OnOk result (out.new.items ≡ out.old.items ++ module_data e.now) }
{
    out.push(e.attr)?;
    out.push(0)?;
    put3(out, e.length as u64)?;
    out.push(0)?;
    put3(out, e.entry as u64)?;
    out.push(0)?;
    put2(out, e.entry_section as u64)?;
    put_main(out, e)
}

fn data_bytes(alloc: Global, kind: LibKind, e: &Entry, kept: &[u8]) -> Result<Vec<u8>, AllocError>
    ensures { IfOk result (λ v. v.items ≡ data_bytes kind e.now kept.now) }
{
    let mut bytes = Vec::new(alloc);
    match kind {
        LibKind::Cards => bytes.extend_from_slice(kept)?,
        LibKind::Modules => put_module_data(&mut bytes, e)?,
    }
    Ok(bytes)
}

fn flag_byte(e: &Entry, bytes: &[u8]) -> u8
    ensures { result ≡ flag_byte e.now bytes.now }
{
    let mark = if e.alias { 128 } else { 0 };
    mark + (bytes.len() / 2 % 32) as u8
}

/// An entry whose member begins with record `first`.
fn entry_bytes(alloc: Global, e: &Entry, bytes: &[u8], first: u64) -> Result<Vec<u8>, AllocError>
    ensures { IfOk result (λ v. v.items ≡ entry_bytes e.now bytes.now first) }
{
    let mut out = Vec::new(alloc);
    out.extend_from_slice(&e.name.0)?;
    put3(&mut out, first)?;
    out.push(flag_byte(e, bytes))?;
    out.extend_from_slice(bytes)?;
    Ok(out)
}

fn first_of(firsts: &HashMap<Name, u64>, n: &Name) -> u64
    ensures { result ≡ option_map_or (λ k. k) (get name_eq firsts.now n.now) 0 }
{
    match firsts.get(n) {
        None => 0,
        Some(k) => *k,
    }
}

#[tactic(auto, unfolding(crate::specs::Image::spelled_entry))]
fn spelled_entry(
    alloc: Global,
    library: &Library,
    firsts: &HashMap<Name, u64>,
    e: &Entry,
) -> Result<Vec<u8>, AllocError>
    requires { (n : Name) → get name_eq firsts.now n ≡ first_from 1 library.now (entries_of library.now) n }
    ensures { IfOk result (λ v. v.items ≡ spelled_entry library.now e.now) }
{
    let bytes = data_bytes(alloc, library.kind(), e, library.user_data(e))?;
    entry_bytes(alloc, e, bytes.as_slice(), first_of(firsts, &e.main))
}

fn put_zeros(out: &mut Vec<u8>, count: usize) -> Result<(), AllocError>
    ensures { OnOk result (out.new.items ≡ out.old.items ++ replicate count 0) }
{
    for _ in 0..count {
        out.push(0)?;
    }
    Ok(())
}

#[tactic(auto, unfolding(crate::specs::Spelling::block_bytes))]
fn put_block(out: &mut Vec<u8>, entries: &[u8]) -> Result<(), AllocError>
    ensures { OnOk result (out.new.items ≡ out.old.items ++ block_bytes entries.now) }
{
    put2(out, 2 + entries.len() as u64)?;
    out.extend_from_slice(entries)?;
    put_zeros(out, ROOM.saturating_sub(entries.len()))
}

/// Puts an entry into the block that is being filled, or into the next one.
#[tactic(auto, unfolding(crate::specs::Spelling::blocks_of))]
fn put_entry(full: &mut Vec<u8>, begun: &mut Vec<u8>, e: &[u8]) -> Result<(), AllocError>
    ensures { OnOk result (PutsEntry full.old.items begun.old.items e.now full.new.items begun.new.items) }
{
    if begun.len() + e.len() > ROOM {
        put_block(full, begun.as_slice())?;
        begun.clear();
    }
    begun.extend_from_slice(e)
}

/// The directory of an image. `firsts` tells where each member begins.
pub(crate) fn directory_bytes(
    alloc: Global,
    library: &Library,
    firsts: &HashMap<Name, u64>,
) -> Result<Vec<u8>, AllocError>
    requires { (n : Name) → get name_eq firsts.now n ≡ first_from 1 library.now (entries_of library.now) n }
    ensures { IfOk result (λ v. v.items ≡ directory_bytes library.now) }
{
    let mut full = Vec::new(alloc);
    let mut begun = Vec::new(alloc);
    for e in library.entries() {
        let bytes = spelled_entry(alloc, library, firsts, e)?;
        put_entry(&mut full, &mut begun, bytes.as_slice())?;
    }
    put_entry(&mut full, &mut begun, &CLOSING)?;
    put_block(&mut full, begun.as_slice())?;
    Ok(full)
}
