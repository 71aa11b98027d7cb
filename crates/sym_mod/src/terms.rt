//! The terms of a constant.
ghost use Rattle.std.specs.Prelude.{◌≡◌, ◌++◌, ◌∷◌, [], OnOk, OnErr};

use smallvec::SmallVec;
use std::alloc::{AllocError, Global};
use std::default::MadeWith;
use std::marker::Model;

/// The terms of a constant, in order. Nearly every constant has one, which takes no memory of its
/// own. Contracts see the list, so that two with equal terms in the same order are equal.
#[derive(Debug, Drop)]
pub struct Terms<T> {
    inner: SmallVec<T, 1>,
}

impl<T> Model for Terms<T> {
    ghost use Rattle.std.specs.Prelude.{List};

    ghost Value = { List T };

    ghost view = { λ x. x.inner.items };
}

impl<T> Terms<T> {
    /// The terms, in order.
    pub fn as_slice(&self) -> &[T]
        ensures { result.now ≡ self.now }
    {
        self.inner.as_slice()
    }
}

impl<T: MadeWith<Global> + Drop> Terms<T> {
    /// No terms. Takes no memory.
    pub fn new(alloc: Global) -> Terms<T>
        ensures { result ≡ [] }
    {
        Terms {
            inner: SmallVec::new(alloc),
        }
    }

    /// Puts a term at the end.
    ///
    /// # Errors
    /// Out of memory, never of the first term. The terms are as before.
    pub fn push(&mut self, term: T) -> Result<(), AllocError>
        ensures added { OnOk result (self.new ≡ self.old ++ term ∷ []) }
        ensures kept { OnErr result (self.new ≡ self.old) }
    {
        self.inner.push(term)?;
        Ok(())
    }
}

impl<T: PartialEq> PartialEq for Terms<T> {
    ghost use Rattle.std.specs.Cmp.Lexicographic.{pointwise, lists_per};

    ghost eq = { pointwise T.eq };

    ghost laws = { lists_per T.laws };

    fn eq(&self, other: &Terms<T>) -> bool {
        self.as_slice() == other.as_slice()
    }
}

impl<T: Eq> Eq for Terms<T> {
    ghost use Rattle.std.specs.Cmp.Lexicographic.{lists_equiv};

    ghost laws = { lists_equiv T.Eq.laws };
}
