//! The item numbers of parts.
ghost use Rattle.std.specs.Prelude.{◌≡◌, ◌+◌, ◌≤◌, if◌then◌else◌, All, IfOk, length, map, replicate};
ghost use Rattle.member_model.specs.Parts.{Part as Piece, part_eq};
ghost use Rattle.member_model.specs.Cuts.{together};
ghost use Rattle.mod_parts.specs.Seen.{seen, IsAmong};
ghost use Rattle.mod_parts.specs.Numbers.{number_in, number_among, HoldsZeros};

use crate::part::Part;
use le_bytes::{Items, Memory};
use std::alloc::{AllocError, Global};

/// The item number of each part; 0 of a table that is not there. Two bytes hold every number.
#[derive(Drop)]
pub(crate) struct Numbers {
    segment_table: u16,
    /// Of each section.
    sections: Items<u16>,
    /// Of the table of entries of each segment, segment 1 first.
    tables: Items<u16>,
}

impl Numbers {
    fn zeros(alloc: Global, sections: usize, tables: usize) -> Result<Numbers, Memory>
        ensures { IfOk result (λ numbers. HoldsZeros numbers sections tables) }
    {
        Ok(Numbers {
            segment_table: 0,
            sections: zeros(alloc, sections)?,
            tables: zeros(alloc, tables)?,
        })
    }

    pub(crate) fn of(&self, part: Part) -> u16
        requires { IsAmong (length self.now.sections) (length self.now.tables) (seen part) }
        ensures { result ≡ number_in self.now (seen part) }
    {
        match part {
            Part::SegmentTable => self.segment_table,
            Part::Section(section) => self.sections.as_slice()[section as usize],
            Part::EntryTable(segment) => self.tables.as_slice()[segment as usize - 1],
        }
    }

    fn set(&mut self, part: Part, number: u16)
        requires { IsAmong (length self.old.sections) (length self.old.tables) (seen part) }
        ensures sections { length self.new.sections ≡ length self.old.sections }
        ensures tables { length self.new.tables ≡ length self.old.tables }
        ensures numbers { (x : Piece) → IsAmong (length self.old.sections) (length self.old.tables) x
            → number_in self.new x ≡ (if part_eq x (seen part) then number else number_in self.old x) }
    {
        match part {
            Part::SegmentTable => self.segment_table = number,
            Part::Section(section) => self.sections.set(section as usize, number),
            Part::EntryTable(segment) => self.tables.set(segment as usize - 1, number),
        }
    }
}

fn zeros(alloc: Global, count: usize) -> Result<Items<u16>, AllocError>
    ensures { IfOk result (λ list. list ≡ replicate count 0) }
{
    Ok(Items::from_vec(vec![in alloc; 0; count]?))
}

/// The number of parts of all segments.
pub(crate) fn count_parts(segments: &[Items<Part>]) -> u16
    requires { length (together segments.now) ≤ 32767 }
    ensures { result ≡ length (together segments.now) }
{
    let mut count = 0;
    for parts in segments {
        count += parts.len() as u16;
    }
    count
}

/// The number of each part, from 1 on in the order of segments, and of so many sections and tables.
///
/// # Errors
/// Want of memory.
pub(crate) fn numbered(
    alloc: Global,
    segments: &[Items<Part>],
    sections: usize,
    tables: usize,
) -> Result<Numbers, Memory>
    requires few { length (together segments.now) ≤ 32767 }
    requires among { All (λ x. IsAmong sections tables (seen x)) (together segments.now) }
    ensures sections { IfOk result (λ numbers. length numbers.sections ≡ sections) }
    ensures tables { IfOk result (λ numbers. length numbers.tables ≡ tables) }
    ensures numbers { IfOk result (λ numbers. (x : Piece) → IsAmong sections tables x
        → number_in numbers x ≡ number_among 0 (map seen (together segments.now)) x 0) }
{
    let mut numbers = Numbers::zeros(alloc, sections, tables)?;
    let mut before = count_parts(segments);
    for segment in (0..segments.len()).rev() {
        let parts = segments[segment].as_slice();
        before -= parts.len() as u16;
        number_parts(&mut numbers, before, parts);
    }
    Ok(numbers)
}

/// Gives parts the numbers after `before`.
fn number_parts(numbers: &mut Numbers, before: u16, parts: &[Part])
    requires few { before + length parts.now ≤ 32767 }
    requires among { All (λ x. IsAmong (length numbers.old.sections) (length numbers.old.tables) (seen x)) parts.now }
    ensures sections { length numbers.new.sections ≡ length numbers.old.sections }
    ensures tables { length numbers.new.tables ≡ length numbers.old.tables }
    ensures numbers { (x : Piece) → IsAmong (length numbers.old.sections) (length numbers.old.tables) x
        → number_in numbers.new x ≡ number_among before (map seen parts.now) x (number_in numbers.old x) }
{
    // From the last on, so that of equal parts the first has its number.
    for place in (0..parts.len()).rev() {
        numbers.set(parts[place], before + place as u16 + 1);
    }
}
