//! Where cards stand.
ghost use Rattle.std.specs.Prelude.{◌≡◌};
ghost use Rattle.link_steps.specs.Unfolding.{spot, is_short_at};

use le_bytes::{Name, Spot};

/// Where cards stand: in a sequential set, or in a member of a library of cards.
#[derive(Clone, Copy, Debug, PartialEq, Eq)]
pub struct Source {
    pub dd: Name,
    pub member: Option<Name>,
    /// A card of fewer than 80 bytes stands after the whole ones.
    pub short: bool,
    /// It is the primary input, in which NAME may stand.
    pub primary: bool,
}

impl Source {
    /// The spot of a card, by its number from 1.
    pub fn spot(self, number: u32) -> Spot
        ensures { result ≡ spot self number }
    {
        Spot {
            set: self.dd,
            member: self.member,
            number,
        }
    }

    /// Whether the card at a place of so many cards is missing but for a short one.
    pub fn is_short_at(self, count: usize, place: usize) -> bool
        ensures { result ≡ is_short_at self count place }
    {
        self.short && place == count
    }
}
