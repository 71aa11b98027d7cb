//! The map of a module.
ghost use Rattle.std.specs.Prelude.{◌≡◌, ◌++◌, flat_map, IfOk, OnOk};
ghost use Rattle.list_text.specs.Maps.{kind_text, section_line, label_line, register_line, row_line, map_head, map_text};

use crate::fields::{
    push_address_field, push_line_end, push_name_field, push_number_field, push_padded, push_word,
};
use crate::rows::{MapRow, RowKind};
use le_bytes::{Memory, Name};
use std::alloc::Global;

/// The map of the module `name`: the line of its name, and a line for each row.
///
/// # Errors
/// Out of memory.
pub fn map_text(alloc: Global, name: &Name, rows: &[MapRow]) -> Result<Vec<u8>, Memory>
    ensures { IfOk result (λ text. text.items ≡ map_text name.now rows.now) }
{
    let mut out = Vec::new(alloc);
    push_map(&mut out, name, rows)?;
    Ok(out)
}

/// Puts the map of the module `name` at the end of `out`. After out of memory a part of the map may stand
/// there.
///
/// # Errors
/// Out of memory.
#[tactic(auto, unfolding(crate::specs::Maps::map_text))]
pub fn push_map(out: &mut Vec<u8>, name: &Name, rows: &[MapRow]) -> Result<(), Memory>
    ensures { OnOk result (out.new.items ≡ out.old.items ++ map_text name.now rows.now) }
{
    push_head(out, name)?;
    push_rows(out, rows)
}

#[tactic(auto, unfolding(crate::specs::Maps::map_head))]
fn push_head(out: &mut Vec<u8>, name: &Name) -> Result<(), Memory>
    ensures { OnOk result (out.new.items ≡ out.old.items ++ map_head name.now) }
{
    out.extend_from_slice(b"MAP")?;
    push_name_field(out, name)?;
    push_line_end(out)
}

fn push_rows(out: &mut Vec<u8>, rows: &[MapRow]) -> Result<(), Memory>
    ensures { OnOk result (out.new.items ≡ out.old.items ++ flat_map row_line rows.now) }
{
    for row in rows {
        push_row(out, row)?;
    }
    Ok(())
}

fn push_row(out: &mut Vec<u8>, row: &MapRow) -> Result<(), Memory>
    ensures { OnOk result (out.new.items ≡ out.old.items ++ row_line row.now) }
{
    match row {
        MapRow::Section(name, kind, address, length, segment) => {
            push_section(out, name, *kind, *address, *length, *segment)
        }
        MapRow::Label(name, address) => push_label(out, name, *address),
        MapRow::Register(name, displacement, length) => {
            push_register(out, name, *displacement, *length)
        }
    }
}

#[tactic(auto, unfolding(crate::specs::Maps::section_line))]
fn push_section(
    out: &mut Vec<u8>,
    name: &Name,
    kind: RowKind,
    address: u32,
    length: u32,
    segment: u8,
) -> Result<(), Memory>
    ensures { OnOk result (out.new.items ≡ out.old.items ++ section_line name.now kind address length segment) }
{
    push_padded(out, name)?;
    push_word(out, kind_text(kind))?;
    push_address_field(out, address)?;
    push_address_field(out, length)?;
    push_number_field(out, segment as u64)?;
    push_line_end(out)
}

fn kind_text(kind: RowKind) -> &'static str
    ensures { result.now ≡ kind_text kind }
{
    match kind {
        RowKind::Sd => "SD",
        RowKind::Pc => "PC",
        RowKind::Cm => "CM",
    }
}

#[tactic(auto, unfolding(crate::specs::Maps::label_line))]
fn push_label(out: &mut Vec<u8>, name: &Name, address: u32) -> Result<(), Memory>
    ensures { OnOk result (out.new.items ≡ out.old.items ++ label_line name.now address) }
{
    out.extend_from_slice(b"  ")?;
    push_padded(out, name)?;
    push_word(out, "LR")?;
    push_address_field(out, address)?;
    push_line_end(out)
}

#[tactic(auto, unfolding(crate::specs::Maps::register_line))]
fn push_register(
    out: &mut Vec<u8>,
    name: &Name,
    displacement: u32,
    length: u32,
) -> Result<(), Memory>
    ensures { OnOk result (out.new.items ≡ out.old.items ++ register_line name.now displacement length) }
{
    push_padded(out, name)?;
    push_word(out, "PR")?;
    push_address_field(out, displacement)?;
    push_address_field(out, length)?;
    push_line_end(out)
}
