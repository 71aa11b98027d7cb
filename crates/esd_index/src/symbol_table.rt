//! All symbols, and which of them are of some kind.
ghost use Rattle.std.specs.Prelude.{◌≡◌, ◌<◌, Some, not, [], length, map, drop, position, option_map, OnOk, OnErr, IfOk, IfSome};
ghost use Rattle.std.specs.List.{list_any};
ghost use Rattle.linking_model.specs.Kept.{symbol_eq};
ghost use Rattle.esd_index.specs.Keys.{as_symbol};
ghost use Rattle.esd_index.specs.Marked.{with_some, with_put};

use crate::key::Key;
use crate::subset::Subset;
use crate::symbols::Symbols;
use std::alloc::{AllocError, Global};
use std::marker::Model;

/// The symbols, in order of first appearance, and which of them are sections, names of SD items, and
/// names of references that are not weak. A symbol is looked up once among all, and its place there
/// tells the rest. Contracts see four lists, each with what stood there at the last mark.
#[derive(Drop)]
pub struct SymbolTable {
    symbols: Symbols,
    sections: Subset,
    controls: Subset,
    strong: Subset,
}

impl Model for SymbolTable {
    ghost use Rattle.esd_index.specs.Tables.{Sorted, marked_part, AreParts};

    ghost Value = { Sorted };

    ghost view = { λ t. record { symbols = t.symbols; sections = marked_part t.sections; controls = marked_part t.controls; strong = marked_part t.strong } };

    ghost invariant = { AreParts };
}

impl SymbolTable {
    /// No symbols. Takes no memory.
    pub fn new(alloc: Global) -> SymbolTable
        ensures { result ≡ record { symbols = record { all = []; marked = [] }; sections = record { all = []; marked = [] }; controls = record { all = []; marked = [] }; strong = record { all = []; marked = [] } } }
    {
        SymbolTable {
            symbols: Symbols::new(alloc),
            sections: Subset::new(alloc),
            controls: Subset::new(alloc),
            strong: Subset::new(alloc),
        }
    }

    /// Marks what is there.
    pub fn mark(&mut self)
        ensures { self.new ≡ record { symbols = record { all = self.old.symbols.all; marked = self.old.symbols.all }; sections = record { all = self.old.sections.all; marked = self.old.sections.all }; controls = record { all = self.old.controls.all; marked = self.old.controls.all }; strong = record { all = self.old.strong.all; marked = self.old.strong.all } } }
    {
        self.symbols.mark();
        self.sections.mark();
        self.controls.mark();
        self.strong.mark();
    }

    /// Takes away what came after the mark.
    pub fn go_back(&mut self)
        ensures { self.new ≡ record { symbols = record { all = self.old.symbols.marked; marked = self.old.symbols.marked }; sections = record { all = self.old.sections.marked; marked = self.old.sections.marked }; controls = record { all = self.old.controls.marked; marked = self.old.controls.marked }; strong = record { all = self.old.strong.marked; marked = self.old.strong.marked } } }
    {
        self.symbols.go_back();
        self.sections.go_back();
        self.controls.go_back();
        self.strong.go_back();
    }

    /// Puts a symbol at the end, where it is not there yet, and answers its place, from 0. Where it is
    /// likely to stand is tried first, and costs no hash.
    ///
    /// # Errors
    /// Want of memory. The symbols are as before.
    pub fn put(&mut self, key: Key, likely: usize) -> Result<usize, AllocError>
        ensures noted { OnOk result (self.new ≡ record self.old { symbols = with_put self.old.symbols (as_symbol key) }) }
        ensures place { IfOk result (λ place. position (symbol_eq (as_symbol key)) self.new.symbols.all ≡ Some place) }
        ensures err { OnErr result (self.new ≡ self.old) }
    {
        self.symbols.put_near(key, likely)
    }

    /// Puts a symbol at the end, if there is one and it is not there yet.
    ///
    /// # Errors
    /// Want of memory. The symbols are as before.
    pub fn note(&mut self, key: Option<Key>) -> Result<(), AllocError>
        ensures noted { OnOk result (self.new ≡ record self.old { symbols = record { all = with_some self.old.symbols.all (option_map as_symbol key); marked = self.old.symbols.marked } }) }
        ensures err { OnErr result (self.new ≡ self.old) }
    {
        match key {
            None => Ok(()),
            Some(key) => {
                self.put(key, 0)?;
                Ok(())
            }
        }
    }

    /// Puts a symbol that has a place among the sections, where it is not there yet.
    ///
    /// # Errors
    /// Want of memory. The symbols are as before.
    pub fn put_section(&mut self, key: Key, at: usize) -> Result<(), AllocError>
        requires { position (symbol_eq (as_symbol key)) self.old.symbols.all ≡ Some at }
        ensures noted { OnOk result (self.new ≡ record self.old { sections = with_put self.old.sections (as_symbol key) }) }
        ensures err { OnErr result (self.new ≡ self.old) }
    {
        self.sections.put(&self.symbols, at, key)?;
        Ok(())
    }

    /// Puts a symbol that has a place among the names of SD items, where it is not there yet, and answers
    /// whether it was not.
    ///
    /// # Errors
    /// Want of memory. The symbols are as before.
    pub fn put_control(&mut self, key: Key, at: usize) -> Result<bool, AllocError>
        requires { position (symbol_eq (as_symbol key)) self.old.symbols.all ≡ Some at }
        ensures noted { OnOk result (self.new ≡ record self.old { controls = with_put self.old.controls (as_symbol key) }) }
        ensures fresh { IfOk result (λ fresh. fresh ≡ not (list_any (symbol_eq (as_symbol key)) self.old.controls.all)) }
        ensures err { OnErr result (self.new ≡ self.old) }
    {
        self.controls.put(&self.symbols, at, key)
    }

    /// Puts a symbol that has a place among the names of references that are not weak, where it is not
    /// there yet.
    ///
    /// # Errors
    /// Want of memory. The symbols are as before.
    pub fn put_strong(&mut self, key: Key, at: usize) -> Result<(), AllocError>
        requires { position (symbol_eq (as_symbol key)) self.old.symbols.all ≡ Some at }
        ensures noted { OnOk result (self.new ≡ record self.old { strong = with_put self.old.strong (as_symbol key) }) }
        ensures err { OnErr result (self.new ≡ self.old) }
    {
        self.strong.put(&self.symbols, at, key)?;
        Ok(())
    }

    /// The symbols, in order of first appearance.
    pub fn symbols(&self) -> &Symbols
        ensures { result.now ≡ self.now.symbols }
    {
        &self.symbols
    }

    /// The sections, in the order of the first section item.
    pub fn sections(&self) -> &[Key]
        ensures { map as_symbol result.now ≡ self.now.sections.all }
    {
        self.sections.keys()
    }

    /// The names of SD items, in the order of the first.
    pub fn controls(&self) -> &[Key]
        ensures { map as_symbol result.now ≡ self.now.controls.all }
    {
        self.controls.keys()
    }

    /// The place of a symbol among the sections, from 0; None exactly where it is none.
    pub fn section_place(&self, key: &Key) -> Option<usize>
        ensures place { result ≡ position (symbol_eq (as_symbol key.now)) self.now.sections.all }
        ensures within { IfSome result (λ place. place < length self.now.sections.all) }
    {
        self.sections.place(&self.symbols, key)
    }

    /// The place of a name among those of SD items, from 0; None exactly where it is not among them.
    pub fn control_place(&self, key: &Key) -> Option<usize>
        ensures place { result ≡ position (symbol_eq (as_symbol key.now)) self.now.controls.all }
        ensures within { IfSome result (λ place. place < length self.now.controls.all) }
    {
        self.controls.place(&self.symbols, key)
    }

    /// The names of references that are not weak and that came after the mark, in the order of the first.
    pub fn fresh_strong(&self) -> &[Key]
        ensures { map as_symbol result.now ≡ drop (length self.now.strong.marked) self.now.strong.all }
    {
        self.strong.fresh()
    }

    /// Whether a symbol is a section.
    #[tactic(auto, using(crate::proofs::Parts::position_found))]
    pub fn is_section(&self, key: &Key) -> bool
        ensures { result ≡ list_any (symbol_eq (as_symbol key.now)) self.now.sections.all }
    {
        self.sections.place(&self.symbols, key).is_some()
    }

    /// Whether a name is that of a reference that is not weak.
    #[tactic(auto, using(crate::proofs::Parts::position_found))]
    pub fn is_strong(&self, key: &Key) -> bool
        ensures { result ≡ list_any (symbol_eq (as_symbol key.now)) self.now.strong.all }
    {
        self.strong.place(&self.symbols, key).is_some()
    }
}
