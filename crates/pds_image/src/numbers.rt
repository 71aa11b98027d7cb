//! Numbers at the end of bytes.
ghost use Rattle.std.specs.Prelude.{◌≡◌, ◌++◌, OnOk};
ghost use Rattle.pds_image.specs.Spelling.{number_bytes};

use byteorder::{BigEndian, ByteOrder};
use std::alloc::AllocError;

/// Puts the lowest 2 bytes of `v` at the end.
#[tactic(auto, unfolding(crate::specs::Spelling::number_bytes))]
pub(crate) fn put2(out: &mut Vec<u8>, v: u64) -> Result<(), AllocError>
    ensures { OnOk result (out.new.items ≡ out.old.items ++ number_bytes 2 v) }
{
    let mut bytes = [0; 8];
    BigEndian::write_u64(&mut bytes, v);
    out.extend_from_slice(&bytes[6..])
}

/// Puts the lowest 3 bytes of `v` at the end.
#[tactic(auto, unfolding(crate::specs::Spelling::number_bytes))]
pub(crate) fn put3(out: &mut Vec<u8>, v: u64) -> Result<(), AllocError>
    ensures { OnOk result (out.new.items ≡ out.old.items ++ number_bytes 3 v) }
{
    let mut bytes = [0; 8];
    BigEndian::write_u64(&mut bytes, v);
    out.extend_from_slice(&bytes[5..])
}

/// Puts the lowest 4 bytes of `v` at the end.
#[tactic(auto, unfolding(crate::specs::Spelling::number_bytes))]
pub(crate) fn put4(out: &mut Vec<u8>, v: u64) -> Result<(), AllocError>
    ensures { OnOk result (out.new.items ≡ out.old.items ++ number_bytes 4 v) }
{
    let mut bytes = [0; 8];
    BigEndian::write_u64(&mut bytes, v);
    out.extend_from_slice(&bytes[4..])
}
