//! A growing list of symbols without repeats.
ghost use Rattle.std.specs.Prelude.{◌≡◌, not, ◌<◌, ◌+◌, ◌≤◌, [], ◌∷◌, ◌^◌, Some, length, map, drop, position, option_map, OnOk, OnErr, IfOk, IfSome};
ghost use Rattle.std.specs.List.{list_any};
ghost use Rattle.linking_model.specs.Names.{with_first};
ghost use Rattle.linking_model.specs.Kept.{symbol_eq};
ghost use Rattle.esd_index.specs.Keys.{as_symbol};
ghost use Rattle.esd_index.specs.Marked.{with_some};

use crate::key::{Key, stands_at};
use indexmap::IndexSet;
use std::alloc::{AllocError, Global};
use std::marker::Model;

/// Symbols in the order in which they were noted. Contracts see them, and those that stood there at
/// the last mark.
#[derive(Drop)]
pub struct Symbols {
    keys: IndexSet<Key>,
    mark: usize,
}

impl Model for Symbols {
    ghost use Rattle.std.specs.Prelude.{◌≤◌, length, map, take};
    ghost use Rattle.esd_index.specs.Keys.{as_symbol};
    ghost use Rattle.esd_index.specs.Marked.{Marked};

    ghost Value = { Marked };

    ghost view = { λ s. record { all = map as_symbol s.keys.keys; marked = take s.mark (map as_symbol s.keys.keys) } };

    ghost invariant = { λ s. s.mark ≤ length s.keys.keys };
}

impl Symbols {
    /// No symbols. Takes no memory.
    pub fn new(alloc: Global) -> Symbols
        ensures { result ≡ record { all = []; marked = [] } }
    {
        Symbols {
            keys: IndexSet::new(alloc),
            mark: 0,
        }
    }

    /// Puts a symbol at the end, where it is not there yet, and answers whether it was not. What was
    /// marked stays.
    ///
    /// # Errors
    /// Want of memory.
    fn put(&mut self, key: Key) -> Result<bool, AllocError>
        ensures noted { OnOk result (self.new.all ≡ with_first symbol_eq self.old.all (as_symbol key)) }
        ensures fresh { IfOk result (λ fresh. fresh ≡ not (list_any (symbol_eq (as_symbol key)) self.old.all)) }
        ensures marked { self.new.marked ≡ self.old.marked }
    {
        Ok(self.keys.insert(key)?)
    }

    /// Puts a symbol at the end, where it is not there yet, and answers its place, from 0. Where it is
    /// likely to stand is tried first, and costs no hash.
    ///
    /// # Errors
    /// Want of memory. The symbols are as before.
    pub(crate) fn put_near(&mut self, key: Key, likely: usize) -> Result<usize, AllocError>
        ensures noted { OnOk result (self.new.all ≡ with_first symbol_eq self.old.all (as_symbol key)) }
        ensures marked { self.new.marked ≡ self.old.marked }
        ensures place { IfOk result (λ place. position (symbol_eq (as_symbol key)) self.new.all ≡ Some place) }
        ensures err { OnErr result (self.new ≡ self.old) }
    {
        if stands_at(self.keys.as_slice(), likely, &key) {
            return Ok(likely);
        }
        let (place, _fresh) = self.keys.insert_full(key)?;
        Ok(place)
    }

    /// Puts a symbol at the end, if there is one and it is not there yet. What was marked stays.
    ///
    /// # Errors
    /// Want of memory.
    pub fn note(&mut self, key: Option<Key>) -> Result<(), AllocError>
        ensures noted { OnOk result (self.new.all ≡ with_some self.old.all (option_map as_symbol key)) }
        ensures marked { self.new.marked ≡ self.old.marked }
    {
        match key {
            None => Ok(()),
            Some(key) => {
                self.put(key)?;
                Ok(())
            }
        }
    }

    /// Marks what is there.
    pub fn mark(&mut self)
        ensures { self.new ≡ record { all = self.old.all; marked = self.old.all } }
    {
        self.mark = self.keys.len();
    }

    /// Takes away what came after the mark.
    pub fn go_back(&mut self)
        ensures { self.new ≡ record { all = self.old.marked; marked = self.old.marked } }
    {
        self.keys.truncate(self.mark);
    }

    /// How many symbols there were at the mark.
    pub fn marked_len(&self) -> usize
        ensures { result ≡ length self.now.marked }
    {
        self.mark
    }

    /// The symbols that came after the mark, in order.
    pub fn fresh(&self) -> &[Key]
        ensures { map as_symbol result.now ≡ drop (length self.now.marked) self.now.all }
    {
        &self.keys.as_slice()[self.mark..]
    }

    /// Whether the symbol is there.
    pub fn has(&self, key: &Key) -> bool
        ensures { result ≡ list_any (symbol_eq (as_symbol key.now)) self.now.all }
    {
        if self.keys.as_slice().is_empty() {
            return false;
        }
        self.keys.contains(key)
    }

    /// The place of the symbol, from 0; None exactly where it is not there.
    pub fn place(&self, key: &Key) -> Option<usize>
        ensures place { result ≡ position (symbol_eq (as_symbol key.now)) self.now.all }
        ensures within { IfSome result (λ place. place < length self.now.all) }
    {
        self.keys.get_index_of(key)
    }

    /// How many symbols there are.
    pub fn len(&self) -> usize
        ensures len { result ≡ length self.now.all }
        ensures small { result < 2 ^ 63 }
    {
        self.keys.len()
    }

    /// The symbols, in order.
    pub fn keys(&self) -> &[Key]
        ensures { map as_symbol result.now ≡ self.now.all }
    {
        self.keys.as_slice()
    }
}
