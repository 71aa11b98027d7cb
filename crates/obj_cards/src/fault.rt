//! What may be wrong with one card, whatever stands before it.
ghost use Rattle.std.specs.Prelude.{◌≡◌};
ghost use Rattle.obj_cards.specs.Faults.{what_of};

use le_bytes::CardWhat;

/// The fault of a card by itself.
#[derive(Clone, Copy, Debug, PartialEq, Eq)]
pub enum CardFault {
    /// The first column is none of X'02', a blank and `*`, or an object card has a type that there
    /// is not.
    UnknownCard,
    /// The byte count is none that the kind of card may have, or the last RLD item passes it.
    BadCount,
    /// An ESD item has a type that there is not, a pseudo-register an alignment that there is not, or a
    /// label or reference no name.
    BadEsdType,
    /// An RLD flag has bits that mean nothing, or says of the last item that another follows.
    BadFlag,
}

impl CardFault {
    /// The same fault among all that may be wrong with a card.
    pub fn what(self) -> CardWhat
        ensures { result ≡ what_of self }
    {
        match self {
            CardFault::UnknownCard => CardWhat::UnknownCard,
            CardFault::BadCount => CardWhat::BadCount,
            CardFault::BadEsdType => CardWhat::BadEsdType,
            CardFault::BadFlag => CardWhat::BadFlag,
        }
    }
}
