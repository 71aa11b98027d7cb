//! The image as a whole.
ghost use Rattle.std.specs.Prelude.{◌≡◌, ◌≤◌, ◌/◌, ◌++◌, Ok, length, IfOk, OnOk};
ghost use Rattle.pds_lib.specs.Contents.{entries_of};
ghost use Rattle.pds_image.specs.Spelling.{version_byte, kind_byte};
ghost use Rattle.pds_lib.specs.Grammar.{library_of};
ghost use Rattle.pds_image.specs.Image.{records_in, directory_bytes, header_bytes, most_bytes, written};

use crate::directory::directory_bytes;
use crate::members::{count_records, first_records, put_bodies};
use crate::numbers::put4;
use le_bytes::Memory;
use pds_lib::{LibKind, Library, Version};
use std::alloc::{AllocError, Global};

/// The eight letters PDSIMAGE in EBCDIC.
const MARK: [u8; 8] = [0xD7, 0xC4, 0xE2, 0xC9, 0xD4, 0xC1, 0xC7, 0xC5];

fn version_byte(version: Version) -> u8
    ensures { result ≡ version_byte version }
{
    match version {
        Version::One => 1,
        Version::Two => 2,
    }
}

fn kind_byte(kind: LibKind) -> u8
    ensures { result ≡ kind_byte kind }
{
    match kind {
        LibKind::Cards => 0xC6,
        LibKind::Modules => 0xE4,
    }
}

#[tactic(auto, unfolding(crate::specs::Image::header_bytes))]
fn put_header(out: &mut Vec<u8>, library: &Library, blocks: usize) -> Result<(), AllocError>
    requires records { records_in library.now (entries_of library.now) ≤ most_bytes }
    requires blocks { blocks ≡ length (directory_bytes library.now) / 256 }
    ensures { OnOk result (out.new.items ≡ out.old.items ++ header_bytes library.now) }
{
    out.extend_from_slice(&MARK)?;
    out.push(version_byte(library.version()))?;
    out.push(kind_byte(library.kind()))?;
    out.push(0)?;
    out.push(0)?;
    put4(out, blocks as u64)?;
    put4(out, count_records(library))
}

/// The image of a library: its members in the order of their main names, each with the record that ends
/// it, and each entry in the block of the one before it as long as it goes in. Bytes that reading does
/// not look at are zero, but user data in a library of cards stand as they were read. The image is read
/// as the same library. The cost is linear in the image, and n log n in its entries.
///
/// # Errors
/// Want of memory.
pub fn image(library: &Library, alloc: Global) -> Result<Vec<u8>, Memory>
    requires { length (written library.now) ≤ most_bytes }
    ensures value { IfOk result (λ v. v.items ≡ written library.now) }
    ensures again { IfOk result (λ v. library_of v.items ≡ Ok library.now) }
{
    library.is_sound();
    let firsts = first_records(alloc, library)?;
    let directory = directory_bytes(alloc, library, &firsts)?;
    let mut out = Vec::new(alloc);
    put_header(&mut out, library, directory.len() / 256)?;
    out.extend_from_slice(directory.as_slice())?;
    put_bodies(&mut out, library)?;
    Ok(out)
}
