//! The directory of a library.
ghost use Rattle.std.specs.Prelude.{◌≡◌, ◌++◌, flat_map, IfOk, OnOk};
ghost use Rattle.list_text.specs.Directories.{member_line, alias_line, entry_line};

use crate::fields::{push_line_end, push_name_field, push_word};
use le_bytes::{Memory, Name};
use pds_directory::Entry;
use std::alloc::Global;

/// The directory: a line for each entry.
///
/// # Errors
/// Out of memory.
pub fn directory_text(alloc: Global, entries: &[Entry]) -> Result<Vec<u8>, Memory>
    ensures { IfOk result (λ text. text.items ≡ flat_map entry_line entries.now) }
{
    let mut out = Vec::new(alloc);
    push_directory(&mut out, entries)?;
    Ok(out)
}

/// Puts the directory at the end of `out`. After out of memory a part of it may stand there.
///
/// # Errors
/// Out of memory.
pub fn push_directory(out: &mut Vec<u8>, entries: &[Entry]) -> Result<(), Memory>
    ensures { OnOk result (out.new.items ≡ out.old.items ++ flat_map entry_line entries.now) }
{
    for entry in entries {
        push_entry(out, entry)?;
    }
    Ok(())
}

fn push_entry(out: &mut Vec<u8>, entry: &Entry) -> Result<(), Memory>
    ensures { OnOk result (out.new.items ≡ out.old.items ++ entry_line entry.now) }
{
    if entry.alias {
        push_alias(out, &entry.name, &entry.main)
    } else {
        push_member(out, &entry.name)
    }
}

#[tactic(auto, unfolding(crate::specs::Directories::member_line))]
fn push_member(out: &mut Vec<u8>, name: &Name) -> Result<(), Memory>
    ensures { OnOk result (out.new.items ≡ out.old.items ++ member_line name.now) }
{
    out.extend_from_slice(b"MEMBER")?;
    push_name_field(out, name)?;
    push_line_end(out)
}

#[tactic(auto, unfolding(crate::specs::Directories::alias_line))]
fn push_alias(out: &mut Vec<u8>, name: &Name, main: &Name) -> Result<(), Memory>
    ensures { OnOk result (out.new.items ≡ out.old.items ++ alias_line name.now main.now) }
{
    out.extend_from_slice(b"ALIAS")?;
    push_name_field(out, name)?;
    push_word(out, "OF")?;
    push_name_field(out, main)?;
    push_line_end(out)
}
