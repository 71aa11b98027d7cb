//! Where the records of an image lie.
ghost use Rattle.std.specs.Prelude.{◌≡◌, ◌≤◌, ◌<◌, ◌+◌, ◌++◌, length, IfOk, IfSome, OnOk, IsTrue};
ghost use Rattle.pds_directory.specs.Answers.{Gives};
ghost use Rattle.pds_directory.specs.Header.{directory_end, most_records};
ghost use Rattle.pds_directory.specs.Places.{width, record_at, may_stand, next_record, records_of, end_at, ends_of, rises, run_length};

use crate::entry::Span;
use crate::header::{BLOCK, HEADER, Head};
use crate::kinds::{LibKind, Version};
use crate::parts::{number16, number32};
use crate::stop::LibStop;
use le_bytes::LibFault;
use std::alloc::{AllocError, Global};

/// The bytes that hold the length of a record.
fn width(version: Version) -> usize
    ensures value { result ≡ width version }
    ensures small { result ≤ 4 }
{
    match version {
        Version::One => 2,
        Version::Two => 4,
    }
}

#[tactic(auto, unfolding(crate::specs::Places::record_at))]
fn record_at(version: Version, image: &[u8], at: usize) -> Option<Span>
    requires { at ≤ length image.now }
    ensures value { result ≡ record_at version image.now at }
    ensures within { IfSome result (λ s. s.at + s.len ≤ length image.now) }
{
    let left = image.len() - at;
    let width = width(version);
    if left < width {
        return None;
    }
    let len = match version {
        Version::One => number16(image, at),
        Version::Two => number32(image, at),
    } as usize;
    if left - width < len {
        return None;
    }
    Some(Span {
        at: at + width,
        len,
    })
}

fn may_stand(kind: LibKind, left: u32, s: Span) -> bool
    ensures { result ≡ may_stand kind left s }
{
    let fits = match kind {
        LibKind::Cards => s.len == 0 || s.len == 80,
        LibKind::Modules => true,
    };
    fits && (left != 0 || s.len == 0)
}

fn next_record(h: &Head, image: &[u8], left: u32, at: usize) -> Option<Span>
    requires { at ≤ length image.now }
    ensures value { result ≡ next_record h.now image.now left at }
    ensures within { IfSome result (λ s. s.at + s.len ≤ length image.now) }
{
    match record_at(h.version, image, at) {
        Some(s) => {
            if may_stand(h.kind, left, s) {
                Some(s)
            } else {
                None
            }
        }
        None => None,
    }
}

/// Where the records of an image lie, from its first to its last, with the header `h` of that image.
/// Each is told without the bytes of its length, and the record that ends a member has no bytes.
///
/// # Errors
/// BadRecord of the first record that passes the end of the image, that is neither empty nor 80 bytes in
/// a library of cards, or that is the last and is not empty; its number is one above the last record's
/// where bytes are left. Want of memory.
pub fn read_records(alloc: Global, h: &Head, image: &[u8]) -> Result<Vec<Span>, LibStop>
    requires directory { directory_end h.now.blocks ≤ length image.now }
    requires few { h.now.records ≤ most_records }
    ensures gives { Gives (λ v. v.items) result (records_of h.now image.now) }
    ensures count { IfOk result (λ v. length v.items ≤ most_records) }
{
    let mut at = HEADER + BLOCK * h.blocks as usize;
    let mut places = Vec::new(alloc);
    for k in 0..h.records {
        match next_record(h, image, h.records - 1 - k, at) {
            None => return Err(LibStop::Bad(LibFault::BadRecord(k + 1))),
            Some(s) => {
                places.push(s)?;
                at = s.at + s.len;
            }
        }
    }
    if image.len() != at {
        return Err(LibStop::Bad(LibFault::BadRecord(h.records + 1)));
    }
    Ok(places)
}

/// How many records stand before the first of length zero. The cost is linear in that number.
pub fn run_length(places: &[Span]) -> usize
    ensures { result ≡ run_length places.now }
{
    for (i, s) in places.iter().enumerate() {
        if s.len == 0 {
            return i;
        }
    }
    places.len()
}

fn note_end(ends: &mut Vec<u32>, k: u32, s: Span) -> Result<(), AllocError>
    ensures { OnOk result (ends.new.items ≡ ends.old.items ++ end_at k s) }
{
    if s.len == 0 {
        ends.push(k)?;
    }
    Ok(())
}

/// The numbers, from 1, of the records of length zero.
pub fn ends_of(alloc: Global, places: &[Span]) -> Result<Vec<u32>, AllocError>
    requires { length places.now ≤ most_records }
    ensures ends { IfOk result (λ v. v.items ≡ ends_of places.now) }
    ensures rise { IfOk result (λ v. IsTrue (rises v.items)) }
{
    let mut ends = Vec::new(alloc);
    for (i, s) in places.iter().enumerate() {
        note_end(&mut ends, i as u32 + 1, *s)?;
    }
    Ok(ends)
}
