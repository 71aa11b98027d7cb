//! Edits that wait for the next module.
ghost use Rattle.std.specs.Prelude.{◌≡◌, ◌++◌, ◌∷◌, [], map, All, OnOk, IfOk};
ghost use Rattle.sym_edit.specs.Edited.{HasNames};
ghost use Rattle.link_steps.specs.Gathered.{edit_spot, replacing, replace_edit, change_edit};
ghost use Rattle.link_steps.specs.Named.{IsReplaceNamed, IsChangeNamed};

use le_bytes::{Items, Memory, Name, Spot};
use std::alloc::Global;
use std::marker::Model;
use sym_mod::Edit;

/// No card.
const NOWHERE: Spot = Spot {
    set: Name([0x40; 8]),
    member: None,
    number: 0,
};

/// An edit, with the first card of its statement.
#[derive(Clone, Copy, Debug, PartialEq, Eq)]
pub struct Waiting {
    pub edit: Edit,
    pub at: Spot,
}

/// Edits in the order of their statements. None of their names is blank.
#[derive(Drop)]
pub struct WaitingEdits {
    list: Items<Waiting>,
}

impl Model for WaitingEdits {
    ghost use Rattle.std.specs.Prelude.{List, All};
    ghost use Rattle.sym_edit.specs.Edited.{HasNames};
    ghost use Rattle.link_steps.specs.declared.waiting.Waiting.{Waiting};

    ghost Value = { List Waiting };

    ghost view = { λ w. w.list };

    ghost invariant = { λ w. All (λ x. HasNames x.edit) w.list };
}

impl WaitingEdits {
    /// No edits. Takes no memory.
    pub fn new(alloc: Global) -> WaitingEdits
        ensures { result ≡ [] }
    {
        WaitingEdits {
            list: Items::new(alloc),
        }
    }

    pub fn as_slice(&self) -> &[Waiting]
        ensures { result.now ≡ self.now }
    {
        self.list.as_slice()
    }

    /// The edits alone.
    pub fn edits(&self, alloc: Global) -> Result<Vec<Edit>, Memory>
        ensures edits { IfOk result (λ v. v.items ≡ map (λ w. w.edit) self.now) }
        ensures named { IfOk result (λ v. All HasNames v.items) }
    {
        let mut edits = Vec::with_capacity(alloc, self.list.len())?;
        for waiting in self.list.as_slice() {
            edits.push(waiting.edit)?;
        }
        Ok(edits)
    }

    /// Where the edit at a place was asked for, from 0; no card where there is no such edit.
    pub fn spot(&self, place: usize) -> Spot
        ensures { result ≡ edit_spot self.now place }
    {
        match self.list.get(place) {
            Some(waiting) => waiting.at,
            None => NOWHERE,
        }
    }

    /// Puts an edit at the end.
    fn push(&mut self, edit: Edit, at: Spot) -> Result<(), Memory>
        requires named { HasNames edit }
        ensures { OnOk result (self.new ≡ self.old ++ record { edit = edit; at = at } ∷ []) }
    {
        self.list.push(Waiting { edit, at })?;
        Ok(())
    }

    /// Puts the edits of a REPLACE statement at the end.
    ///
    /// # Errors
    /// Out of memory.
    pub fn push_replaced(&mut self, at: Spot, items: &[(Name, Option<Name>)]) -> Result<(), Memory>
        requires named { All IsReplaceNamed items.now }
        ensures { OnOk result (self.new ≡ self.old ++ map (replace_edit at) items.now) }
    {
        for item in items {
            self.push(replace_edit(item), at)?;
        }
        Ok(())
    }

    /// Puts the edits of a CHANGE statement at the end.
    ///
    /// # Errors
    /// Out of memory.
    pub fn push_changed(&mut self, at: Spot, items: &[(Name, Name)]) -> Result<(), Memory>
        requires named { All IsChangeNamed items.now }
        ensures { OnOk result (self.new ≡ self.old ++ map (change_edit at) items.now) }
    {
        for item in items {
            self.push(Edit::Change(item.0, item.1), at)?;
        }
        Ok(())
    }
}

/// The edit of an item of REPLACE.
fn replace_edit(item: &(Name, Option<Name>)) -> Edit
    ensures { result ≡ replacing item.now }
{
    match item.1 {
        None => Edit::Remove(item.0),
        Some(new) => Edit::Replace(item.0, new),
    }
}
