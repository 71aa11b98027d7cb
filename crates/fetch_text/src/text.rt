//! A fetched member as text.
ghost use Rattle.std.specs.Prelude.{◌≡◌, ◌++◌, All, flat_map, IfOk, OnOk};
ghost use Rattle.fetch_text.specs.Parts.{EndsLow, part_text, parts_text};

use le_bytes::Memory;
use map_list::{push_dump, push_entry};
use prog_fetch::{Fetched, Part};
use std::alloc::Global;

/// The line of the entry address, and the dumps of the parts, one after the other.
pub(crate) fn text_of(alloc: Global, member: &Fetched) -> Result<Vec<u8>, Memory>
    requires low { All EndsLow member.now.parts }
    ensures { IfOk result (λ text. text.items ≡ parts_text member.now.entry member.now.parts) }
{
    let mut text = Vec::new(alloc);
    push_entry(&mut text, member.entry)?;
    push_parts(&mut text, member.parts.as_slice())?;
    Ok(text)
}

/// Puts the dumps of the parts at the end of `out`.
fn push_parts(out: &mut Vec<u8>, parts: &[Part]) -> Result<(), Memory>
    requires low { All EndsLow parts.now }
    ensures { OnOk result (out.new.items ≡ out.old.items ++ flat_map part_text parts.now) }
{
    for part in parts {
        push_part(out, part)?;
    }
    Ok(())
}

/// Puts the dump of a part at the end of `out`.
fn push_part(out: &mut Vec<u8>, part: &Part) -> Result<(), Memory>
    requires low { EndsLow part.now }
    ensures { OnOk result (out.new.items ≡ out.old.items ++ part_text part.now) }
{
    push_dump(out, part.origin, part.bytes.as_slice())
}
