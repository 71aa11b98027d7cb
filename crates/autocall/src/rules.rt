//! What LIBRARY statements said, and which names were tried.
ghost use Rattle.std.specs.Prelude.{◌≡◌, ◌||◌, take, OnOk, OnErr};
ghost use Rattle.autocall.specs.Rules.{Rules, no_rules, with_item, with_items, with_tried, for_next_module, is_stopped, dd_of, syslib, Extend};

use crate::dds::Dds;
use crate::name_list::NameList;
use ctl_cards::LibraryItem;
use le_bytes::{Memory, Name};
use std::alloc::{AllocError, Global};
use std::marker::Model;

/// The data set of the library from which symbols are called that no LIBRARY statement gives another:
/// `SYSLIB`.
pub const SYSLIB: Name = Name([0xE2, 0xE8, 0xE2, 0xD3, 0xC9, 0xC2, 0x40, 0x40]);

/// What LIBRARY statements said of symbols, for this load module and for the whole run, and the names
/// that were tried for this one. Contracts see the lists; inside each is found by hash.
#[derive(Drop)]
pub struct CallRules {
    dds: Dds,
    no_call: NameList,
    never_call: NameList,
    tried: NameList,
}

impl Model for CallRules {
    ghost use Rattle.autocall.specs.Rules.{Rules};

    ghost Value = { Rules };

    ghost view = { λ r. record { dds = r.dds; no_call = r.no_call; never_call = r.never_call; tried = r.tried } };
}

impl CallRules {
    ghost use Rattle.std.specs.Prelude.{◌≡◌, ◌||◌, take, OnOk, OnErr};
    ghost use Rattle.autocall.specs.Rules.{Rules, no_rules, with_item, with_items, with_tried, for_next_module, is_stopped, was_tried, dd_of, Extend};

    /// No rules. Keeps the allocator and takes no memory.
    pub fn new(alloc: Global) -> CallRules
        ensures { result ≡ no_rules }
    {
        CallRules {
            dds: Dds::new(alloc),
            no_call: NameList::new(alloc),
            never_call: NameList::new(alloc),
            tried: NameList::new(alloc),
        }
    }

    fn put_item(&mut self, item: &LibraryItem) -> Result<(), AllocError>
        ensures ok { OnOk result (self.new ≡ with_item self.old item.now) }
        ensures kept { Extend self.old self.new }
    {
        match item {
            LibraryItem::From(dd, symbols) => self.dds.put_all(*dd, symbols.as_slice()),
            LibraryItem::NoCall(symbols) => self.no_call.put_all(symbols.as_slice()),
            LibraryItem::NeverCall(symbols) => self.never_call.put_all(symbols.as_slice()),
        }
    }

    fn put_items(&mut self, items: &[LibraryItem]) -> Result<(), AllocError>
        ensures ok { OnOk result (self.new ≡ with_items self.old items.now) }
        ensures kept { Extend self.old self.new }
    {
        for item in items {
            self.put_item(item)?;
        }
        Ok(())
    }

    /// Takes away all but so many of what statements said.
    fn go_back(&mut self, dds: usize, no_call: usize, never_call: usize)
        ensures { self.new ≡ record self.old {
          dds = take dds self.old.dds;
          no_call = take no_call self.old.no_call;
          never_call = take never_call self.old.never_call;
        } }
    {
        self.dds.truncate(dds);
        self.no_call.truncate(no_call);
        self.never_call.truncate(never_call);
    }

    /// A LIBRARY statement. A stop wins over a dd, whichever came first, and of several dds for one
    /// symbol the first wins. Linear in the names of the statement.
    ///
    /// # Errors
    /// Out of memory. The rules are as before.
    pub fn library(&mut self, _alloc: Global, items: &[LibraryItem]) -> Result<(), Memory>
        ensures ok { OnOk result (self.new ≡ with_items self.old items.now) }
        ensures err { OnErr result (self.new ≡ self.old) }
    {
        let dds = self.dds.len();
        let no_call = self.no_call.len();
        let never_call = self.never_call.len();
        match self.put_items(items) {
            Ok(()) => Ok(()),
            Err(_) => {
                self.go_back(dds, no_call, never_call);
                Err(Memory)
            }
        }
    }

    /// A name was tried: it is not tried again for this load module.
    ///
    /// # Errors
    /// Out of memory. The rules are as before.
    pub fn tried(&mut self, _alloc: Global, n: Name) -> Result<(), Memory>
        ensures ok { OnOk result (self.new ≡ with_tried self.old n) }
        ensures err { OnErr result (self.new ≡ self.old) }
    {
        self.tried.put(n)?;
        Ok(())
    }

    /// The next load module begins: the names that are never called are kept alone.
    pub fn next_module(&mut self)
        ensures { self.new ≡ for_next_module self.old }
    {
        self.dds.clear();
        self.no_call.clear();
        self.tried.clear();
    }

    /// Whether the name is not to be called: a statement stops it, or it was tried.
    pub(crate) fn is_barred(&self, n: &Name) -> bool
        ensures { result ≡ is_stopped self.now n.now || was_tried self.now n.now }
    {
        self.no_call.has(n) || self.never_call.has(n) || self.tried.has(n)
    }

    /// The data set of the library that a name is called from.
    pub(crate) fn dd_of(&self, n: &Name) -> Name
        ensures { result ≡ dd_of self.now n.now }
    {
        self.dds.of(n).unwrap_or(SYSLIB)
    }
}
