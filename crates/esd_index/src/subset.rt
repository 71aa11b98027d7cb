//! Some of the symbols, in an order of their own.
ghost use Rattle.std.specs.Prelude.{◌≡◌, ◌<◌, ◌++◌, ◌∷◌, Some, false, not, [], length, map, drop, position, OnOk, OnErr, IfOk, IfSome};
ghost use Rattle.std.specs.List.{list_any};
ghost use Rattle.linking_model.specs.Names.{with_first};
ghost use Rattle.linking_model.specs.Kept.{symbol_eq};
ghost use Rattle.esd_index.specs.Keys.{as_symbol};
ghost use Rattle.esd_index.specs.Parts.{place_by, with_room, with_last, IsPartOf};

use crate::key::{Key, stands_at};
use crate::symbols::Symbols;
use std::alloc::{AllocError, Global};
use std::marker::Model;

/// Some of the symbols, in the order in which they were put. A symbol is found here by its place among
/// all symbols, without a hash. Contracts see the list, what stood there at the last mark, and what is
/// noted for each place among all.
#[derive(Drop)]
pub(crate) struct Subset {
    keys: Vec<Key>,
    mark: usize,
    /// For places among all symbols where the symbol is here, if it is: the symbol that stands there
    /// tells. So nothing is taken back here when symbols go.
    places: Vec<usize>,
}

impl Model for Subset {
    ghost use Rattle.std.specs.Prelude.{◌≤◌, length, map, take};
    ghost use Rattle.esd_index.specs.Keys.{as_symbol};
    ghost use Rattle.esd_index.specs.Parts.{Part};

    ghost Value = { Part };

    ghost view = { λ s. record { all = map as_symbol s.keys.items; marked = take s.mark (map as_symbol s.keys.items); places = s.places.items } };

    ghost invariant = { λ s. s.mark ≤ length s.keys.items };
}

impl Subset {
    /// No symbols. Takes no memory.
    pub(crate) fn new(alloc: Global) -> Subset
        ensures { result ≡ record { all = []; marked = []; places = [] } }
    {
        Subset {
            keys: Vec::new(alloc),
            mark: 0,
            places: Vec::new(alloc),
        }
    }

    /// Where the symbol of a place among all symbols is looked for here, if it stands there.
    fn place_by(&self, at: usize, key: &Key) -> Option<usize>
        ensures { result ≡ place_by self.now at (as_symbol key.now) }
    {
        match self.places.get(at) {
            None => None,
            Some(place) => {
                if stands_at(self.keys.as_slice(), *place, key) {
                    Some(*place)
                } else {
                    None
                }
            }
        }
    }

    /// Makes room to note something for each of so many places.
    fn make_room(&mut self, count: usize) -> Result<(), AllocError>
        ensures ok { OnOk result (self.new ≡ record self.old { places = with_room self.old.places count }) }
        ensures err { OnErr result (self.new ≡ self.old) }
    {
        if self.places.len() < count {
            self.places.resize(count, 0)?;
        }
        Ok(())
    }

    fn push(&mut self, at: usize, key: Key) -> Result<(), AllocError>
        requires { at < length self.old.places }
        ensures ok { OnOk result (self.new ≡ with_last self.old at (as_symbol key)) }
        ensures err { OnErr result (self.new ≡ self.old) }
    {
        let place = self.keys.len();
        self.keys.push(key)?;
        self.places[at] = place;
        Ok(())
    }

    /// Whether a symbol is here that stands at a place among all.
    #[tactic(auto, using(crate::proofs::Parts::has_by))]
    fn has_by(&self, symbols: &Symbols, at: usize, key: &Key) -> bool
        requires part { IsPartOf symbols.now self.now }
        requires stands { position (symbol_eq (as_symbol key.now)) symbols.now.all ≡ Some at }
        ensures { result ≡ list_any (symbol_eq (as_symbol key.now)) self.now.all }
    {
        self.place_by(at, key).is_some()
    }

    /// Puts a symbol at the end that is not here and stands at a place among all.
    fn add(&mut self, symbols: &Symbols, at: usize, key: Key) -> Result<(), AllocError>
        requires part { IsPartOf symbols.now self.old }
        requires stands { position (symbol_eq (as_symbol key)) symbols.now.all ≡ Some at }
        requires absent { list_any (symbol_eq (as_symbol key)) self.old.all ≡ false }
        ensures ok { OnOk result (self.new.all ≡ self.old.all ++ as_symbol key ∷ []) }
        ensures err { OnErr result (self.new.all ≡ self.old.all) }
        ensures marked { self.new.marked ≡ self.old.marked }
        ensures part { IsPartOf symbols.now self.new }
    {
        self.make_room(symbols.len())?;
        self.push(at, key)?;
        Ok(())
    }

    /// Puts a symbol at the end that stands at a place among all, where it is not here yet, and answers
    /// whether it was not.
    ///
    /// # Errors
    /// Want of memory. The symbols are as before.
    pub(crate) fn put(&mut self, symbols: &Symbols, at: usize, key: Key) -> Result<bool, AllocError>
        requires part { IsPartOf symbols.now self.old }
        requires stands { position (symbol_eq (as_symbol key)) symbols.now.all ≡ Some at }
        ensures noted { OnOk result (self.new.all ≡ with_first symbol_eq self.old.all (as_symbol key)) }
        ensures fresh { IfOk result (λ fresh. fresh ≡ not (list_any (symbol_eq (as_symbol key)) self.old.all)) }
        ensures err { OnErr result (self.new.all ≡ self.old.all) }
        ensures marked { self.new.marked ≡ self.old.marked }
        ensures part { IsPartOf symbols.now self.new }
    {
        if self.has_by(symbols, at, &key) {
            return Ok(false);
        }
        self.add(symbols, at, key)?;
        Ok(true)
    }

    /// Marks what is there.
    pub(crate) fn mark(&mut self)
        ensures { self.new ≡ record self.old { marked = self.old.all } }
    {
        self.mark = self.keys.len();
    }

    /// Takes away what came after the mark.
    pub(crate) fn go_back(&mut self)
        ensures { self.new ≡ record self.old { all = self.old.marked } }
    {
        self.keys.truncate(self.mark);
    }

    /// The place of a symbol here, from 0; None exactly where it is not here.
    #[tactic(auto, using(crate::proofs::Parts::found_by, crate::proofs::Parts::found_nowhere))]
    pub(crate) fn place(&self, symbols: &Symbols, key: &Key) -> Option<usize>
        requires { IsPartOf symbols.now self.now }
        ensures place { result ≡ position (symbol_eq (as_symbol key.now)) self.now.all }
        ensures within { IfSome result (λ place. place < length self.now.all) }
    {
        match symbols.place(key) {
            Some(at) => self.place_by(at, key),
            None => None,
        }
    }

    /// The symbols that came after the mark, in order.
    pub(crate) fn fresh(&self) -> &[Key]
        ensures { map as_symbol result.now ≡ drop (length self.now.marked) self.now.all }
    {
        &self.keys.as_slice()[self.mark..]
    }

    /// The symbols, in order.
    pub(crate) fn keys(&self) -> &[Key]
        ensures { map as_symbol result.now ≡ self.now.all }
    {
        self.keys.as_slice()
    }
}
