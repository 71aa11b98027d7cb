//! From where the next call is searched.
ghost use Rattle.std.specs.Prelude.{◌≡◌, min};

use std::marker::Model;

/// A place in the order of first appearance, from 0, before which no name has a call. It is moved on by
/// [`CallRules::next_call_from`](crate::CallRules::next_call_from). After a module was added it has to
/// go back to the place that `Merged::add_called` answered.
#[derive(Debug, Drop)]
pub struct Cursor {
    pub(crate) at: usize,
}

impl Model for Cursor {
    ghost use Rattle.std.specs.Prelude.{ℕ};

    ghost Value = { ℕ };

    ghost view = { λ c. c.at };
}

impl Cursor {
    ghost use Rattle.std.specs.Prelude.{◌≡◌, min};

    /// The first place.
    pub fn start() -> Cursor
        ensures { result ≡ 0 }
    {
        Cursor { at: 0 }
    }

    /// Goes back to a place, if that is before its own.
    pub fn go_back(&mut self, place: usize)
        ensures { self.new ≡ min self.old place }
    {
        self.at = self.at.min(place);
    }
}
