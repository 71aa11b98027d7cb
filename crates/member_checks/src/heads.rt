//! Records where no text is due.
ghost use Rattle.std.specs.Prelude.{◌≡◌, Ok, Err};
ghost use Rattle.member_model.specs.FirstBad.{begins_with_symbols};
ghost use Rattle.member_checks.specs.Heads.{IsHead};

use le_bytes::RecWhat;
use load_recs::{Expect, Rec, read_rec};

/// The record that the bytes are, or the first fault of its own.
#[tactic(auto, using(crate::proofs::Reading::is_refused))]
pub fn head_of(bytes: &[u8]) -> Result<Rec<'_>, RecWhat>
    ensures { IsHead bytes.now result }
{
    match read_rec(bytes, Expect::Head) {
        Ok(held) => Ok(held),
        Err(fault) => Err(fault.what()),
    }
}

/// Whether a symbol record begins so.
pub fn begins_with_symbols(bytes: &[u8]) -> bool
    ensures { result ≡ begins_with_symbols bytes.now }
{
    matches!(bytes, [0x20, ..])
}
