//! The cross-reference of a module.
ghost use Rattle.std.specs.Prelude.{◌≡◌, ◌++◌, ◌∷◌, [], flat_map, IfOk, OnOk};
ghost use Rattle.map_list.specs.Printed.{fields};
ghost use Rattle.list_text.specs.References.{type_text, where_text, place_text, reference_line};

use crate::fields::{push_address_field, push_line_end, push_name_field, push_word};
use crate::rows::RefRow;
use le_bytes::{Memory, Name};
use map_list::push_address;
use std::alloc::Global;

/// The cross-reference: a line for each row.
///
/// # Errors
/// Out of memory.
pub fn xref_text(alloc: Global, refs: &[RefRow]) -> Result<Vec<u8>, Memory>
    ensures { IfOk result (λ text. text.items ≡ flat_map reference_line refs.now) }
{
    let mut out = Vec::new(alloc);
    push_references(&mut out, refs)?;
    Ok(out)
}

/// Puts the cross-reference at the end of `out`. After out of memory a part of it may stand there.
///
/// # Errors
/// Out of memory.
pub fn push_references(out: &mut Vec<u8>, refs: &[RefRow]) -> Result<(), Memory>
    ensures { OnOk result (out.new.items ≡ out.old.items ++ flat_map reference_line refs.now) }
{
    for row in refs {
        push_reference(out, row)?;
    }
    Ok(())
}

#[tactic(auto, unfolding(crate::specs::References::reference_line))]
fn push_reference(out: &mut Vec<u8>, row: &RefRow) -> Result<(), Memory>
    ensures { OnOk result (out.new.items ≡ out.old.items ++ reference_line row.now) }
{
    out.extend_from_slice(b"REF")?;
    push_place_field(out, &row.section, row.offset)?;
    push_word(out, type_text(row.branch))?;
    push_name_field(out, &row.target)?;
    push_where(out, row.at)?;
    push_line_end(out)
}

/// Puts a blank, a section and an offset in it at the end of `out`.
fn push_place_field(out: &mut Vec<u8>, section: &Name, offset: u32) -> Result<(), Memory>
    ensures { OnOk result (out.new.items ≡ out.old.items ++ fields (place_text section.now offset ∷ [])) }
{
    push_name_field(out, section)?;
    out.push(b'+')?;
    push_address(out, offset)
}

fn type_text(branch: bool) -> &'static str
    ensures { result.now ≡ type_text branch }
{
    if branch { "V" } else { "A" }
}

/// Puts a blank and where the target is at the end of `out`.
fn push_where(out: &mut Vec<u8>, at: Option<u32>) -> Result<(), Memory>
    ensures { OnOk result (out.new.items ≡ out.old.items ++ fields (where_text at ∷ [])) }
{
    match at {
        Some(address) => push_address_field(out, address),
        None => push_word(out, "UNRESOLVED"),
    }
}
