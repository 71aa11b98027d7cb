//! Writing a record.
ghost use Rattle.std.specs.Prelude.{◌≡◌, ◌+◌, ◌^◌, ◌<◌, ◌≤◌, IfOk, Ok, length};
ghost use Rattle.load_recs.specs.Records.{ending, head_record, text_record, rld_record, rec_bytes, record_of, AreEnds, IsTextHead, IsRecord};
ghost use Rattle.load_recs.specs.Reading.{expected, reading};

use crate::records::{Ends, Rec, TextHead};
use le_bytes::{Memory, put16, put24};
use std::alloc::Global;

/// The bytes of a record. They are read as the same record.
pub fn write_rec(alloc: Global, r: &Rec<'_>) -> Result<Vec<u8>, Memory>
    requires { IsRecord (record_of r.now) }
    ensures bytes { IfOk result (λ v. v.items ≡ rec_bytes (record_of r.now)) }
    ensures read_back { IfOk result (λ v. reading (expected (record_of r.now)) v.items ≡ Ok (record_of r.now)) }
{
    spell(alloc, r)
}

fn spell(alloc: Global, r: &Rec<'_>) -> Result<Vec<u8>, Memory>
    requires { IsRecord (record_of r.now) }
    ensures { IfOk result (λ v. v.items ≡ rec_bytes (record_of r.now)) }
{
    match *r {
        Rec::Cesd(first, items) => write_head(alloc, 0x20, 0, first, items),
        Rec::Scatter(first, items) => write_head(alloc, 0x10, 1, first, items),
        Rec::Translation(first, items) => write_head(alloc, 0x10, 2, first, items),
        Rec::Note(first, items) => write_head(alloc, 0x60, 0, first, items),
        Rec::Control(ends, text) => write_control(alloc, 0x01 + ending(ends), &[], text),
        Rec::Rld(ends, items) => write_rld(alloc, 0x02 + ending(ends), items),
        Rec::ControlRld(ends, items, text) => write_control(
            alloc,
            0x03 + ending(ends),
            items,
            text,
        ),
        Rec::Text(bytes) => Ok(Vec::from_slice(alloc, bytes)?),
    }
}

/// What is added to an identifier for what ends.
fn ending(ends: Ends) -> u8
    ensures value { result ≡ ending ends }
    ensures most { result ≤ 12 }
{
    let segment = if ends.segment { 4 } else { 0 };
    let module = if ends.module { 8 } else { 0 };
    segment + module
}

/// A symbol, scatter, translation or note record.
fn write_head(
    alloc: Global,
    identifier: u8,
    subtype: u8,
    first: u32,
    items: &[u8],
) -> Result<Vec<u8>, Memory>
    requires first { first < 2 ^ 16 }
    requires most { length items.now ≤ 240 }
    ensures { IfOk result (λ v. v.items ≡ head_record identifier subtype first items.now) }
{
    let mut head = [identifier, subtype, 0, 0, 0, 0, 0, 0];
    put16(&mut head, 4, first);
    put16(&mut head, 6, items.len() as u32);
    let mut out = Vec::with_capacity(alloc, head.len() + items.len())?;
    out.extend_from_slice(&head)?;
    out.extend_from_slice(items)?;
    Ok(out)
}

/// A relocation record.
fn write_rld(alloc: Global, identifier: u8, items: &[u8]) -> Result<Vec<u8>, Memory>
    requires { length items.now ≤ 240 }
    ensures { IfOk result (λ v. v.items ≡ rld_record identifier items.now) }
{
    let mut head = [identifier, 0, 0, 0, 0, 0, 0, 0, 0, 0, 0, 0, 0, 0, 0, 0];
    put16(&mut head, 4, items.len() as u32);
    let mut out = Vec::with_capacity(alloc, head.len() + items.len())?;
    out.extend_from_slice(&head)?;
    out.extend_from_slice(items)?;
    Ok(out)
}

/// A control record, with or without relocation items.
fn write_control(
    alloc: Global,
    identifier: u8,
    items: &[u8],
    text: TextHead,
) -> Result<Vec<u8>, Memory>
    requires most { length items.now ≤ 240 }
    requires text { IsTextHead text }
    ensures { IfOk result (λ v. v.items ≡ text_record identifier items.now text) }
{
    let mut head = [identifier, 0, 0, 0, 0, 0, 0, 4, 6, 0, 0, 0, 0, 0, 0, 0];
    put16(&mut head, 4, items.len() as u32);
    put24(&mut head, 9, text.address);
    put16(&mut head, 14, text.length);
    let mut tail = [0; 4];
    put16(&mut tail, 0, text.section);
    put16(&mut tail, 2, text.length);
    let mut out = Vec::with_capacity(alloc, head.len() + items.len() + tail.len())?;
    out.extend_from_slice(&head)?;
    out.extend_from_slice(items)?;
    out.extend_from_slice(&tail)?;
    Ok(out)
}
