//! A growing list of names without repeats.
ghost use Rattle.std.specs.Prelude.{◌≡◌, [], length, take, OnOk, OnErr};
ghost use Rattle.std.specs.List.{list_any};
ghost use Rattle.le_bytes.specs.Names.{name_eq};
ghost use Rattle.linking_model.specs.Names.{with_first};
ghost use Rattle.autocall.specs.Rules.{with_names, BeginsWith};

use indexmap::IndexSet;
use le_bytes::Name;
use std::alloc::{AllocError, Global};
use std::marker::Model;

/// Names in the order in which they were put.
#[derive(Drop)]
pub struct NameList {
    names: IndexSet<Name>,
}

impl Model for NameList {
    ghost use Rattle.std.specs.Prelude.{List};
    ghost use Rattle.le_bytes.specs.declared.name.Name.{Name};

    ghost Value = { List Name };

    ghost view = { λ l. l.names.keys };
}

impl NameList {
    /// No names. Takes no memory.
    pub fn new(alloc: Global) -> NameList
        ensures { result ≡ [] }
    {
        NameList {
            names: IndexSet::new(alloc),
        }
    }

    /// Puts a name at the end, where it is not there yet.
    ///
    /// # Errors
    /// Out of memory. The names are as before.
    pub fn put(&mut self, n: Name) -> Result<(), AllocError>
        ensures ok { OnOk result (self.new ≡ with_first name_eq self.old n) }
        ensures err { OnErr result (self.new ≡ self.old) }
    {
        self.names.insert(n)?;
        Ok(())
    }

    /// Puts each of these names at the end, where it is not there yet.
    ///
    /// # Errors
    /// Out of memory. Some of the names may have been put.
    pub fn put_all(&mut self, names: &[Name]) -> Result<(), AllocError>
        ensures ok { OnOk result (self.new ≡ with_names self.old names.now) }
        ensures kept { BeginsWith self.new self.old }
    {
        for n in names {
            self.put(*n)?;
        }
        Ok(())
    }

    /// Whether the name is there.
    pub fn has(&self, n: &Name) -> bool
        ensures { result ≡ list_any (name_eq n.now) self.now }
    {
        self.names.contains(n)
    }

    /// How many names there are.
    pub fn len(&self) -> usize
        ensures { result ≡ length self.now }
    {
        self.names.len()
    }

    /// Keeps the first `len` names.
    pub fn truncate(&mut self, len: usize)
        ensures { self.new ≡ take len self.old }
    {
        self.names.truncate(len);
    }

    /// Takes away all names.
    pub fn clear(&mut self)
        ensures { self.new ≡ [] }
    {
        self.names.clear();
    }
}
