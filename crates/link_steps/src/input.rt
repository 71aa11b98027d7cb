//! What the cards of a load module are read with.
use pds_lib::Set;
use std::marker::Model;

/// The data sets in the order of the words, and whether overlay statements may stand among cards.
pub struct Input<'a> {
    pub sets: &'a [Set],
    /// The option OVLY is on.
    pub ovly: bool,
}

impl<'a> Model for Input<'a> {
    ghost use Rattle.link_steps.specs.Unfolding.{Asking};

    ghost Value = { Asking };

    ghost view = { λ i. record { sets = i.sets.now; ovly = i.ovly } };
}
