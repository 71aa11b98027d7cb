//! The image of a library of one member, TEMPNAME: one section of 8 bytes whose second word is its own address.
use std::alloc::{AllocError, Global};

/// Header and directory of a library of one load module, TEMPNAME, as far as the last entry.
pub(crate) const FRONT: [u8; 58] = [
    0xD7, 0xC4, 0xE2, 0xC9, 0xD4, 0xC1, 0xC7, 0xC5, 0x01, 0xE4, 0, 0, 0, 0, 0, 1, 0, 0, 0, 5, 0x00,
    0x26, 0xE3, 0xC5, 0xD4, 0xD7, 0xD5, 0xC1, 0xD4, 0xC5, 0, 0, 1, 0x06, 0, 0, 0, 0, 8, 0, 0, 0, 0,
    0, 0, 1, 0xFF, 0xFF, 0xFF, 0xFF, 0xFF, 0xFF, 0xFF, 0xFF, 0, 0, 0, 0,
];

/// Its four records, each behind its length, and the one that ends the member.
pub(crate) const RECORDS: [u8; 86] = [
    0x00, 0x18, 0x20, 0, 0, 0, 0, 1, 0, 0x10, 0xC1, 0x40, 0x40, 0x40, 0x40, 0x40, 0x40, 0x40, 0, 0,
    0, 0, 1, 0, 0, 8, 0x00, 0x14, 0x01, 0, 0, 0, 0, 0, 0, 4, 6, 0, 0, 0, 0, 0, 0, 8, 0, 1, 0, 8,
    0x00, 0x08, 0, 0, 0, 0, 0, 0, 0, 4, 0x00, 0x18, 0x0E, 0, 0, 0, 0, 8, 0, 0, 0, 0, 0, 0, 0, 0, 0,
    0, 0, 1, 0, 1, 0x0C, 0, 0, 4, 0x00, 0x00,
];

/// `front` with zero bytes up to the end of the first block.
pub(crate) fn block(alloc: Global, front: &[u8]) -> Result<Vec<u8>, AllocError> {
    let mut image = Vec::from_slice(alloc, front)?;
    for _ in front.len()..276 {
        image.push(0)?;
    }
    Ok(image)
}

/// The whole image.
pub(crate) fn sample(alloc: Global) -> Result<Vec<u8>, AllocError> {
    let mut image = block(alloc, &FRONT)?;
    image.extend_from_slice(&RECORDS)?;
    Ok(image)
}
