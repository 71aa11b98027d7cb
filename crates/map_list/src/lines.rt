//! The lines on a linked module and on a placed program.
ghost use Rattle.std.specs.Prelude.{◌≡◌, ◌++◌, OnOk};
ghost use Rattle.map_list.specs.Lines.{linked_line, unresolved_line, entry_line};

use crate::words::{push_address_field, push_line_end, push_name_field, push_word};
use le_bytes::{Memory, Name};

/// Puts the line of a linked module at the end of `out`: its name, its length in bytes and the address
/// of its entry point in the module. After want of memory a part of the line may stand there.
///
/// # Errors
/// Want of memory.
#[tactic(auto, unfolding(crate::specs::Lines::linked_line))]
pub fn push_linked(out: &mut Vec<u8>, name: &Name, length: u32, entry: u32) -> Result<(), Memory>
    ensures { OnOk result (out.new.items ≡ out.old.items ++ linked_line name.now length entry) }
{
    out.extend_from_slice(b"LINKED")?;
    push_name_field(out, name)?;
    push_word(out, "LENGTH")?;
    push_address_field(out, length)?;
    push_word(out, "ENTRY")?;
    push_address_field(out, entry)?;
    push_line_end(out)
}

/// Puts the line of a name that no section or label has at the end of `out`. After want of memory a part
/// of the line may stand there.
///
/// # Errors
/// Want of memory.
#[tactic(auto, unfolding(crate::specs::Lines::unresolved_line))]
pub fn push_unresolved(out: &mut Vec<u8>, name: &Name) -> Result<(), Memory>
    ensures { OnOk result (out.new.items ≡ out.old.items ++ unresolved_line name.now) }
{
    out.extend_from_slice(b"UNRESOLVED")?;
    push_name_field(out, name)?;
    push_line_end(out)
}

/// Puts the line of a placed program's entry address at the end of `out`. After want of memory a part of
/// the line may stand there.
///
/// # Errors
/// Want of memory.
#[tactic(auto, unfolding(crate::specs::Lines::entry_line))]
pub fn push_entry(out: &mut Vec<u8>, address: u32) -> Result<(), Memory>
    ensures { OnOk result (out.new.items ≡ out.old.items ++ entry_line address) }
{
    out.extend_from_slice(b"ENTRY")?;
    push_address_field(out, address)?;
    push_line_end(out)
}
