//! The text of a deck.
ghost use Rattle.std.specs.Prelude.{◌≡◌, ◌++◌, ◌∷◌, [], OnOk};

use obj_cards::TxtCard;
use smallvec::SmallVec;
use std::alloc::{AllocError, Global};
use std::marker::Model;

/// The cards of text in order, of which one takes no memory of its own. Contracts see the list.
#[derive(Drop)]
pub struct Texts {
    inner: SmallVec<TxtCard, 1>,
}

impl Model for Texts {
    ghost use Rattle.std.specs.Prelude.{List};
    ghost use Rattle.obj_cards.specs.declared.card.TxtCard.{TxtCard};

    ghost Value = { List TxtCard };

    ghost view = { λ t. t.inner.items };
}

impl Texts {
    /// No text. Takes no memory.
    pub fn new(alloc: Global) -> Texts
        ensures { result ≡ [] }
    {
        Texts {
            inner: SmallVec::new(alloc),
        }
    }

    /// Puts a card of text at the end.
    ///
    /// # Errors
    /// Want of memory, never of the first card.
    pub fn push(&mut self, text: TxtCard) -> Result<(), AllocError>
        ensures { OnOk result (self.new ≡ self.old ++ text ∷ []) }
    {
        self.inner.push(text)?;
        Ok(())
    }

    /// The cards of text, in order.
    pub fn as_slice(&self) -> &[TxtCard]
        ensures { result.now ≡ self.now }
    {
        self.inner.as_slice()
    }
}
