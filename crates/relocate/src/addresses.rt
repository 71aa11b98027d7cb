//! Where the symbols of a program stand.
ghost use Rattle.std.specs.Prelude.{◌≡◌, ◌≤◌, ◌-◌, slice_index, slice_get};
ghost use Rattle.std.specs.Option.{option_map_or};
ghost use Rattle.linking_model.specs.Linked.{address_of, offset_of_label};
ghost use Rattle.linking_model.specs.Places.{segment_of_section};
ghost use Rattle.linking_model.specs.Tables.{section_of_label, segment_of};
ghost use Rattle.relocate.specs.Ready.{AreSmall};
ghost use Rattle.relocate.specs.Relocated.{placed_at, displacement_at};

use sym_mod::{Places, Program, Target};

/// The number at a place of a list, and 0 past its end.
fn number_at(numbers: &[u32], place: usize) -> u32
    ensures { result ≡ slice_index numbers.now place }
{
    match numbers.get(place) {
        Some(number) => *number,
        None => 0,
    }
}

/// The address of a section.
fn section_at(a: &Places, section: u32) -> u32
    ensures { result ≡ slice_index a.now.sections section }
{
    number_at(a.sections.as_slice(), section as usize)
}

/// The address of the table of a segment.
pub(crate) fn table_at(a: &Places, segment: u8) -> u32
    ensures { result ≡ slice_index a.now.tables (segment - 1) }
{
    number_at(a.tables.as_slice(), segment.saturating_sub(1) as usize)
}

/// The displacement of a register, and 0 of any other target.
pub(crate) fn displacement_at(a: &Places, target: Target) -> u32
    ensures { result ≡ displacement_at a.now target }
{
    match target {
        Target::Register(register) => number_at(a.registers.as_slice(), register as usize),
        _ => 0,
    }
}

/// The address of a section or a label, and 0 of any other target.
pub(crate) fn address_of(p: &Program, a: &Places, target: Target) -> u32
    requires { AreSmall p.now a.now }
    ensures { result ≡ address_of p.now (placed_at a.now) target }
{
    match target {
        Target::Section(section) => section_at(a, section),
        Target::Label(label) => section_at(a, section_of_label(p, label))
            + offset_of_label(p, label),
        _ => 0,
    }
}

fn section_of_label(p: &Program, label: u32) -> u32
    ensures { result ≡ section_of_label p.now label }
{
    match p.labels.get(label as usize) {
        Some(label) => label.section,
        None => 0,
    }
}

fn offset_of_label(p: &Program, label: u32) -> u32
    ensures { result ≡ offset_of_label p.now label }
{
    match p.labels.get(label as usize) {
        Some(label) => label.offset,
        None => 0,
    }
}

/// The segment in which a section stands.
pub(crate) fn segment_of_section(p: &Program, section: u32) -> u8
    ensures { result ≡ segment_of_section p.now section }
{
    match p.sections.get(section as usize) {
        Some(section) => section.segment,
        None => 0,
    }
}

/// The segment in which a section or a label stands, and 0 of any other target.
pub(crate) fn segment_of(p: &Program, target: Target) -> u8
    ensures { result ≡ segment_of p.now target }
{
    match target {
        Target::Section(section) => segment_of_section(p, section),
        Target::Label(label) => segment_of_section(p, section_of_label(p, label)),
        _ => 0,
    }
}
