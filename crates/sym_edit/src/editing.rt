//! Edits, one after another.
ghost use Rattle.std.specs.Prelude.{◌≡◌, All, IfOk};
ghost use Rattle.sym_mod.specs.Sound.{IsSoundModule};
ghost use Rattle.sym_edit.specs.Edited.{removed, replaced, after_edit, edited, HasNames, IsDue, EditAnswer};

use crate::copying::copied;
use crate::fault::EditFault;
use crate::judging::{fault_of, gone_with, has_section};
use crate::leaving::without;
use crate::renaming::renamed;
use le_bytes::{Memory, Name};
use std::alloc::Global;
use sym_mod::{Edit, SymModule};

fn removed(alloc: Global, m: SymModule, old: &Name) -> Result<SymModule, Memory>
    ensures { IfOk result (λ n. n ≡ removed old.now m) }
{
    let gone = gone_with(alloc, old, m.items.as_slice())?;
    without(alloc, m, gone.as_slice())
}

#[tactic(auto, unfolding(crate::specs::Edited::replaced))]
fn replaced(alloc: Global, m: SymModule, old: &Name, new: &Name) -> Result<SymModule, Memory>
    ensures { IfOk result (λ n. n ≡ replaced old.now new.now m) }
{
    let is_section = has_section(old, m.items.as_slice());
    let left = removed(alloc, m, old)?;
    let entry = left.entry;
    let made = renamed(alloc, left, old, new)?;
    if is_section {
        Ok(SymModule { entry, ..made })
    } else {
        Ok(made)
    }
}

#[tactic(auto, unfolding(crate::specs::Edited::after_edit))]
fn after_edit(alloc: Global, m: SymModule, edit: &Edit) -> Result<SymModule, Memory>
    ensures { IfOk result (λ n. n ≡ after_edit m edit.now) }
{
    match *edit {
        Edit::Remove(old) => removed(alloc, m, &old),
        Edit::Replace(old, new) => replaced(alloc, m, &old, &new),
        Edit::Change(old, new) => renamed(alloc, m, &old, &new),
    }
}

fn edited(alloc: Global, m: SymModule, e: &[Edit]) -> Result<SymModule, EditFault>
    ensures { IsDue (edited m e.now) result }
{
    let mut now = m;
    for (at, edit) in e.iter().enumerate() {
        if let Some(fault) = fault_of(at, &now, edit) {
            return Err(fault);
        }
        now = after_edit(alloc, now, edit)?;
    }
    Ok(now)
}

/// Applies edits to a module in turn, each to what the one before made. Each edit costs time of the
/// size of the module; its text is copied once for all of them, so that it is there after a fault.
///
/// `Remove` takes out every section and label of the name, and with a section its text, its labels
/// and the constants in it. What referred to one of them refers to its name then, and keeps its base.
/// An entry in a section that goes is dropped. `Replace` does that, and references to the first name
/// become references to the second; so does an entry at the name, but where a section had the name
/// it stays. `Change` gives sections, labels, references and an entry of the first name the second.
///
/// # Errors
/// The first edit that does not apply, with its place in `e` from 0: NotThere exactly where a
/// `Remove` or `Replace` finds no section or label of the name, or a `Change` no section, label or
/// reference; else Clash exactly where the second name is that of an overlay table, or a `Change`
/// finds a section or label of the first name and another of the second. Out of memory. After each
/// fault the module is as before.
pub fn apply_edits(alloc: Global, m: &mut SymModule, e: &[Edit]) -> Result<(), EditFault>
    requires sound { IsSoundModule m.old }
    requires named { All HasNames e.now }
    ensures edited { EditAnswer m.old e.now result m.new }
    ensures sound { IsSoundModule m.new }
{
    if e.is_empty() {
        return Ok(());
    }
    let made = edited(alloc, copied(alloc, m)?, e)?;
    *m = made;
    Ok(())
}
