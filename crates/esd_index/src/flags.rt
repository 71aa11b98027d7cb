//! The marks of the items of a module.
ghost use Rattle.std.specs.Prelude.{◌≡◌, ◌++◌, ◌∷◌, [], IfOk, OnOk};

use smallvec::SmallVec;
use std::alloc::{AllocError, Global};
use std::marker::Model;

/// A mark for each item of a module, in order. Most modules have few items, whose marks take no memory
/// of their own. Contracts see the list.
#[derive(Debug, Drop)]
pub struct Flags {
    inner: SmallVec<bool, 8>,
}

impl Model for Flags {
    ghost use Rattle.std.specs.Prelude.{Bool, List};

    ghost Value = { List Bool };

    ghost view = { λ x. x.inner.items };
}

impl Flags {
    /// No marks, with memory for so many, which up to eight need not have.
    ///
    /// # Errors
    /// Want of memory.
    pub(crate) fn with_capacity(alloc: Global, count: usize) -> Result<Flags, AllocError>
        ensures { IfOk result (λ flags. flags ≡ []) }
    {
        Ok(Flags {
            inner: SmallVec::with_capacity(alloc, count)?,
        })
    }

    /// Puts a mark at the end.
    ///
    /// # Errors
    /// Want of memory, never of the first eight marks.
    pub(crate) fn push(&mut self, flag: bool) -> Result<(), AllocError>
        ensures { OnOk result (self.new ≡ self.old ++ flag ∷ []) }
    {
        self.inner.push(flag)?;
        Ok(())
    }

    /// The marks, in order.
    pub fn as_slice(&self) -> &[bool]
        ensures { result.now ≡ self.now }
    {
        self.inner.as_slice()
    }
}
