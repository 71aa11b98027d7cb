//! The header of an image, 20 bytes.
ghost use Rattle.std.specs.Prelude.{◌≡◌, ◌≤◌, ◌+◌, length, IfSome};
ghost use Rattle.pds_directory.specs.Header.{head_of, version_of, kind_of, sized, directory_end, most_records};

use crate::kinds::{LibKind, Version};
use crate::parts::number32;

/// What the header says.
#[derive(Clone, Copy, Debug, PartialEq, Eq)]
pub struct Head {
    pub version: Version,
    pub kind: LibKind,
    /// The number of directory blocks, at least 1.
    pub blocks: u32,
    /// The number of records, at most 16,777,215.
    pub records: u32,
}

/// The eight letters PDSIMAGE in EBCDIC.
const MARK: [u8; 8] = [0xD7, 0xC4, 0xE2, 0xC9, 0xD4, 0xC1, 0xC7, 0xC5];

/// The bytes before the first directory block.
pub(crate) const HEADER: usize = 20;

/// The bytes of a directory block.
pub(crate) const BLOCK: usize = 256;

/// The greatest number of records of a library, which three bytes hold.
pub const MOST_RECORDS: u32 = 16_777_215;

fn version_of(b: u8) -> Option<Version>
    ensures { result ≡ version_of b }
{
    match b {
        1 => Some(Version::One),
        2 => Some(Version::Two),
        _ => None,
    }
}

fn kind_of(b: u8) -> Option<LibKind>
    ensures { result ≡ kind_of b }
{
    match b {
        0xC6 => Some(LibKind::Cards),
        0xE4 => Some(LibKind::Modules),
        _ => None,
    }
}

fn sized(image: &[u8], h: Head) -> Option<Head>
    ensures value { result ≡ sized image.now h }
    ensures there { IfSome result (λ g. directory_end g.blocks ≤ length image.now) }
    ensures few { IfSome result (λ g. g.records ≤ most_records) }
{
    if h.blocks == 0 || h.records > MOST_RECORDS {
        return None;
    }
    if image.len() < HEADER + BLOCK * h.blocks as usize {
        return None;
    }
    Some(h)
}

/// The header of an image, None where it is wrong or the image is shorter than its directory.
#[tactic(auto, unfolding(crate::specs::Header::head_of))]
pub(crate) fn read_head(image: &[u8]) -> Option<Head>
    ensures value { result ≡ head_of image.now }
    ensures there { IfSome result (λ h. directory_end h.blocks ≤ length image.now) }
    ensures few { IfSome result (λ h. h.records ≤ most_records) }
{
    if image.len() < HEADER {
        return None;
    }
    if image[..8] != MARK[..] {
        return None;
    }
    let version = version_of(image[8])?;
    let kind = kind_of(image[9])?;
    let blocks = number32(image, 12);
    let records = number32(image, 16);
    sized(
        image,
        Head {
            version,
            kind,
            blocks,
            records,
        },
    )
}
