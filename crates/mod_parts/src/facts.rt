//! What a part is.
ghost use Rattle.std.specs.Prelude.{◌≡◌, ◌+◌, ◌≤◌, length};
ghost use Rattle.linking_model.specs.Places.{entry_count, length_of_section, segment_of_section, origin, size};
ghost use Rattle.member_model.specs.Parts.{part_name, part_kind, part_place, part_segment, part_length, section_name, section_kind};
ghost use Rattle.mod_parts.specs.Placed.{ArePlacesOf};
ghost use Rattle.mod_parts.specs.Seen.{seen, IsPartOf};

use crate::list::PartList;
use crate::part::Part;
use le_bytes::Name;
use sym_mod::{ENTRY_TABLE, Places, SEGMENT_TABLE, SecKind};

impl<'a> PartList<'a> {
    /// The name of the part, which is blank for private code.
    pub fn name_of(&self, part: Part) -> Name
        ensures name { result ≡ part_name self.now (seen part) }
    {
        match part {
            Part::SegmentTable => SEGMENT_TABLE,
            Part::Section(section) => self.section_name(section),
            Part::EntryTable(_) => ENTRY_TABLE,
        }
    }

    /// The kind of the part: a table is a section with text.
    pub fn kind_of(&self, part: Part) -> SecKind
        ensures { result ≡ part_kind self.now (seen part) }
    {
        match part {
            Part::Section(section) => self.section_kind(section),
            Part::SegmentTable | Part::EntryTable(_) => SecKind::Sd,
        }
    }

    /// The address of the part, in bytes from the module's origin.
    pub fn place_of(&self, a: &Places, part: Part) -> u32
        requires places { ArePlacesOf self.now a.now }
        requires part { IsPartOf self.now (seen part) }
        ensures place { result ≡ part_place self.now (seen part) }

        // Not the module's greatest length, since a table that is not there has an address too.
        ensures end { result + part_length self.now (seen part) ≤ 4194323 }
    {
        let _ = &self.program;
        match part {
            Part::SegmentTable => 0,
            Part::Section(section) => a.sections.as_slice()[section as usize],
            Part::EntryTable(segment) => a.tables.as_slice()[segment as usize - 1],
        }
    }

    /// The segment in which the part stands.
    pub fn segment_of(&self, part: Part) -> u8
        ensures { result ≡ part_segment self.now (seen part) }
    {
        match part {
            Part::SegmentTable => 1,
            Part::Section(section) => self.segment_of_section(section),
            Part::EntryTable(segment) => segment,
        }
    }

    /// The length of the part, in bytes.
    pub fn length_of(&self, part: Part) -> u32
        ensures length { result ≡ part_length self.now (seen part) }
        ensures short { result ≤ 16777215 }
    {
        match part {
            Part::SegmentTable => 8 + 4 * self.tree.count() as u32,
            Part::Section(section) => self.section_length(section),
            Part::EntryTable(segment) => 12 * self.entry_count(segment) + 12,
        }
    }

    fn section_name(&self, section: u32) -> Name
        ensures { result ≡ section_name self.now section }
    {
        match self.program.sections.get(section as usize) {
            Some(x) => match x.kind {
                SecKind::Pc => Name::BLANK,
                SecKind::Sd | SecKind::Cm => x.name,
            },
            None => Name::BLANK,
        }
    }

    fn section_kind(&self, section: u32) -> SecKind
        ensures { result ≡ section_kind self.now section }
    {
        match self.program.sections.get(section as usize) {
            Some(x) => x.kind,
            None => SecKind::Sd,
        }
    }

    fn section_length(&self, section: u32) -> u32
        ensures length { result ≡ length_of_section self.now.program section }
        ensures short { result ≤ 16777215 }
    {
        match self.program.sections.get(section as usize) {
            Some(x) => x.length,
            None => 0,
        }
    }

    fn segment_of_section(&self, section: u32) -> u8
        ensures { result ≡ segment_of_section self.now.program section }
    {
        match self.program.sections.get(section as usize) {
            Some(x) => x.segment,
            None => 0,
        }
    }

    /// The number of entries in the table of a segment.
    fn entry_count(&self, segment: u8) -> u32
        ensures count { result ≡ entry_count self.now segment }
        ensures few { result ≤ 340 }
    {
        match self.tables.entries.get(segment.saturating_sub(1) as usize) {
            Some(entries) => entries.len() as u32,
            None => 0,
        }
    }

    /// Where a segment begins, in bytes from the module's origin.
    pub fn origin_of(&self, a: &Places, s: u8) -> u32
        requires places { ArePlacesOf self.now a.now }
        requires first { 1 ≤ s }
        requires last { s ≤ length self.now.tree }
        ensures origin { result ≡ origin self.now s }
        ensures near { result ≤ 4194311 }
    {
        a.origins.as_slice()[s as usize - 1]
    }

    /// The length of a segment, in bytes.
    pub fn size_of(&self, a: &Places, s: u8) -> u32
        requires places { ArePlacesOf self.now a.now }
        requires first { 1 ≤ s }
        requires last { s ≤ length self.now.tree }
        ensures size { result ≡ size self.now s }
        ensures short { result ≤ 4194311 }
    {
        a.ends.as_slice()[s as usize - 1] - self.origin_of(a, s)
    }
}
