//! The note items of a member.
ghost use Rattle.std.specs.Prelude.{◌≡◌, ◌+◌, ◌≤◌, ◌++◌, ◌||◌, ◌==◌, not, nat_lt, length, IfOk};
ghost use Rattle.le_bytes.specs.declared.record_what.RecWhat.TheVariants.{BadOrder};
ghost use Rattle.load_recs.specs.Items.{notes_of};
ghost use Rattle.member_model.specs.Faults.{when};
ghost use Rattle.member_checks.specs.Kept.{Keeps};

use crate::refused::Refused;
use le_bytes::{Items, RecWhat};
use load_recs::{NoteItem, note_item};
use std::alloc::AllocError;

const NOTE_SIZE: usize = 12;

/// The most segments that a member has.
const MOST_SEGMENTS: usize = 255;

/// The note items with those of a record, whose first has the number `first`.
///
/// # Errors
/// BadOrder where another number is due or there are too many; want of memory.
#[tactic(auto, using(crate::proofs::ItemLists::item_count))]
pub fn with_notes(
    notes: Items<NoteItem>,
    first: u32,
    items: &[u8],
) -> Result<Items<NoteItem>, Refused>
    requires { length items.now ≤ 240 }
    ensures { Keeps (when (not (first == length notes + 1) || nat_lt 255 (length notes + length (notes_of items.now))) BadOrder) (notes ++ notes_of items.now) result }
{
    let count = items.len() / NOTE_SIZE;
    if first as usize != notes.len() + 1 {
        return Err(Refused::What(RecWhat::BadOrder));
    }
    if notes.len() + count > MOST_SEGMENTS {
        return Err(Refused::What(RecWhat::BadOrder));
    }
    Ok(pushed(notes, items)?)
}

/// The note items with those of a record.
#[tactic(auto, using(crate::proofs::ItemLists::item_next, crate::proofs::ItemLists::items_over))]
fn pushed(notes: Items<NoteItem>, items: &[u8]) -> Result<Items<NoteItem>, AllocError>
    requires { length items.now ≤ 240 }
    ensures { IfOk result (λ all. all ≡ notes ++ notes_of items.now) }
{
    let mut notes = notes;
    for k in 0..items.len() / NOTE_SIZE {
        notes.push(note_item(items, k as u32))?;
    }
    Ok(notes)
}
