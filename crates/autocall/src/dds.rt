//! Symbols, each with the data set of the library that it is called from.
ghost use Rattle.std.specs.Prelude.{◌≡◌, [], find, length, option_map, take, OnOk, OnErr};
ghost use Rattle.le_bytes.specs.declared.name.Name.{Name};
ghost use Rattle.le_bytes.specs.Names.{name_eq};
ghost use Rattle.linking_model.specs.Names.{with_first};
ghost use Rattle.autocall.specs.Rules.{has_symbol_of, with_dds, BeginsWith};

use indexmap::IndexMap;
use le_bytes::Name;
use std::alloc::{AllocError, Global};
use std::marker::Model;

/// The data definition names of symbols, in the order in which they were put. Contracts see pairs of a
/// symbol and its data definition name.
#[derive(Drop)]
pub struct Dds {
    by_symbol: IndexMap<Name, Name>,
}

impl Model for Dds {
    ghost use Rattle.std.specs.Prelude.{List};
    ghost use Rattle.le_bytes.specs.declared.name.Name.{Name};

    ghost Value = { List (Name × Name) };

    ghost view = { λ d. d.by_symbol.entries };
}

impl Dds {
    /// No symbols. Takes no memory.
    pub fn new(alloc: Global) -> Dds
        ensures { result ≡ [] }
    {
        Dds {
            by_symbol: IndexMap::new(alloc),
        }
    }

    /// Puts a symbol with this dd at the end, where it has none yet.
    fn put(&mut self, symbol: Name, dd: Name) -> Result<(), AllocError>
        ensures ok { OnOk result (self.new ≡ with_first has_symbol_of self.old (symbol, dd)) }
        ensures err { OnErr result (self.new ≡ self.old) }
    {
        if !self.by_symbol.contains_key(&symbol) {
            self.by_symbol.insert(symbol, dd)?;
        }
        Ok(())
    }

    /// Puts each of these symbols with this dd at the end, where it has none yet.
    ///
    /// # Errors
    /// Out of memory. Some of the symbols may have been put.
    pub fn put_all(&mut self, dd: Name, symbols: &[Name]) -> Result<(), AllocError>
        ensures ok { OnOk result (self.new ≡ with_dds dd self.old symbols.now) }
        ensures kept { BeginsWith self.new self.old }
    {
        for symbol in symbols {
            self.put(*symbol, dd)?;
        }
        Ok(())
    }

    /// The dd of a symbol; None exactly where it has none.
    pub fn of(&self, symbol: &Name) -> Option<Name>
        ensures { result ≡ option_map (λ (p : Name × Name). p.1) (find (λ (p : Name × Name). name_eq symbol.now p.0) self.now) }
    {
        self.by_symbol.get(symbol).copied()
    }

    /// How many symbols there are.
    pub fn len(&self) -> usize
        ensures { result ≡ length self.now }
    {
        self.by_symbol.len()
    }

    /// Keeps the first `len` symbols.
    pub fn truncate(&mut self, len: usize)
        ensures { self.new ≡ take len self.old }
    {
        self.by_symbol.truncate(len);
    }

    /// Takes away all symbols.
    pub fn clear(&mut self)
        ensures { self.new ≡ [] }
    {
        self.by_symbol.clear();
    }
}
