//! What the cards of a deck say, taken together.
ghost use Rattle.std.specs.Prelude.{◌≡◌, []};

use crate::dictionary::Dictionary;
use crate::terms::Terms;
use crate::texts::Texts;
use std::alloc::Global;

/// The items, the text and the terms of constants of the cards that were read, in their order.
#[derive(Drop)]
pub struct Facts {
    pub items: Dictionary,
    pub texts: Texts,
    pub terms: Terms,
}

impl Facts {
    /// What no cards say. Takes no memory.
    pub fn new(alloc: Global) -> Facts
        ensures { result ≡ record { items = []; texts = []; terms = [] } }
    {
        Facts {
            items: Dictionary::new(alloc),
            texts: Texts::new(alloc),
            terms: Terms::new(alloc),
        }
    }
}
