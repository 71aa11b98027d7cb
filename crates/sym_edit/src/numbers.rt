//! The new numbers of the items that stay.
ghost use Rattle.std.specs.Prelude.{◌≡◌, IfOk};
ghost use Rattle.sym_edit.specs.Counted.{counts_from};
ghost use Rattle.sym_edit.specs.Without.{stays, new_number};

use std::alloc::{AllocError, Global};
use std::marker::Model;

/// For each item, how many of those before it stay.
fn counts(alloc: Global, gone: &[bool]) -> Result<Vec<usize>, AllocError>
    ensures { IfOk result (λ made. made.items ≡ counts_from 0 gone.now) }
{
    let mut made = Vec::with_capacity(alloc, gone.len())?;
    let mut next: usize = 0;
    for g in gone {
        made.push(next)?;
        if !*g {
            next += 1;
        }
    }
    Ok(made)
}

/// Whether there is an item at a place, and it stays.
fn stays(gone: &[bool], at: usize) -> bool
    ensures { result ≡ stays gone.now at }
{
    match gone.get(at) {
        Some(goes) => !*goes,
        None => false,
    }
}

/// The new number of an item, where so many stay before each.
#[tactic(auto, unfolding(crate::specs::Without::new_number))]
fn number_at(gone: &[bool], before: &[usize], item: u32) -> Option<u32>
    requires { before.now ≡ counts_from 0 gone.now }
    ensures { result ≡ new_number gone.now item }
{
    let at = item as usize;
    if stays(gone, at) {
        Some(before[at] as u32)
    } else {
        None
    }
}

/// The numbers that the items of a module have where some go, both from 0. Contracts see for each item
/// whether it goes. A look-up costs the same for every item.
#[derive(Drop)]
pub struct NewNumbers<'a> {
    gone: &'a [bool],
    before: Vec<usize>,
}

impl<'a> Model for NewNumbers<'a> {
    ghost use Rattle.std.specs.Prelude.{◌≡◌, Bool, List};
    ghost use Rattle.sym_edit.specs.Counted.{counts_from};

    ghost Value = { List Bool };

    ghost view = { λ x. x.gone.now };

    ghost invariant = { λ x. x.before.items ≡ counts_from 0 x.gone.now };
}

impl<'a> NewNumbers<'a> {
    ghost use Rattle.std.specs.Prelude.{◌≡◌, IfOk};
    ghost use Rattle.sym_edit.specs.Without.{new_number};

    /// The numbers where these items go.
    ///
    /// # Errors
    /// Out of memory.
    pub fn new(alloc: Global, gone: &'a [bool]) -> Result<NewNumbers<'a>, AllocError>
        ensures { IfOk result (λ made. made ≡ gone.now) }
    {
        let before = counts(alloc, gone)?;
        Ok(NewNumbers { gone, before })
    }

    /// The new number of an item; None exactly where it goes, and where there is no such item.
    pub fn number(&self, item: u32) -> Option<u32>
        ensures { result ≡ new_number self.now item }
    {
        number_at(self.gone, self.before.as_slice(), item)
    }
}
