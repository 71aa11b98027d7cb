//! The next call.
ghost use Rattle.std.specs.Prelude.{◌≡◌, position};
ghost use Rattle.autocall.specs.Calls.{has_member, is_library_with, library_of, call_of, next_call};
ghost use Rattle.autocall.specs.Searched.{call_at, NoCallBefore, Searches};

use crate::cursor::Cursor;
use crate::rules::CallRules;
use esd_merge::Merged;
use le_bytes::Name;
use pds_lib::{Body, Set};

fn has_member(n: &Name, body: &Body) -> bool
    ensures { result ≡ has_member n.now body.now }
{
    match body {
        Body::Cards(_) => false,
        Body::Lib(library) => library.find(n).is_some(),
    }
}

fn is_library_with(dd: &Name, n: &Name, set: &Set) -> bool
    ensures { result ≡ is_library_with dd.now n.now set.now }
{
    set.dd == *dd && has_member(n, &set.body)
}

/// The place of the library of a dd that has a member or alias of the name.
fn place_of(sets: &[Set], dd: &Name, n: &Name) -> Option<usize>
    ensures { result ≡ position (is_library_with dd.now n.now) sets.now }
{
    sets.iter().position(|set| is_library_with(dd, n, set))
}

impl CallRules {
    /// The call of an unresolved name that is not weak, where it has one.
    #[tactic(auto, unfolding(crate::specs::Calls::call_of))]
    fn call_of(&self, sets: &[Set], n: Name) -> Option<(Name, usize)>
        ensures { result ≡ call_of self.now sets.now n }
    {
        if self.is_barred(&n) {
            return None;
        }
        let place = place_of(sets, &self.dd_of(&n), &n)?;
        Some((n, place))
    }

    /// The call of the name at a place in the order of first appearance, where it has one.
    fn call_at(&self, m: &Merged, sets: &[Set], place: usize) -> Option<(Name, usize)>
        ensures { result ≡ call_at self.now m.now sets.now place }
    {
        match m.callable(place) {
            None => None,
            Some(n) => self.call_of(sets, n),
        }
    }

    /// The first call from a place on, and where the search for it ends.
    fn search(&self, m: &Merged, sets: &[Set], start: usize) -> (usize, Option<(Name, usize)>)
        ensures { Searches self.now m.now sets.now start result.0 result.1 }
    {
        for place in start..m.places() {
            if let Some(call) = self.call_at(m, sets, place) {
                return (place, Some(call));
            }
        }
        (start.max(m.places()), None)
    }

    /// The next call, where no name before the cursor has one; None exactly where there is none. The
    /// cursor is moved to where the search ends. Each place costs some look-ups by hash, and the
    /// logarithm of the entries of a library.
    pub fn next_call_from(
        &self,
        m: &Merged,
        sets: &[Set],
        from: &mut Cursor,
    ) -> Option<(Name, usize)>
        ensures searched { Searches self.now m.now sets.now from.old from.new result }
        ensures next { NoCallBefore self.now m.now sets.now from.old → result ≡ next_call self.now m.now sets.now }
        ensures before { NoCallBefore self.now m.now sets.now from.old → NoCallBefore self.now m.now sets.now from.new }
    {
        let (end, call) = self.search(m, sets, from.at);
        from.at = end;
        call
    }

    /// The next call: the first unresolved name in order of first appearance that is not weak, that no
    /// statement stops, that was not tried, and of which its library has a member or alias; and the
    /// place of that library among the data sets, from 0. Its library is that of a LIBRARY statement,
    /// and else SYSLIB. None exactly where there is none. Linear in the names; [`CallRules::next_call_from`]
    /// does not begin anew after each call.
    pub fn next_call(&self, m: &Merged, sets: &[Set]) -> Option<(Name, usize)>
        ensures { result ≡ next_call self.now m.now sets.now }
    {
        self.next_call_from(m, sets, &mut Cursor::start())
    }
}
