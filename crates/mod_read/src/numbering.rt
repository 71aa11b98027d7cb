//! The symbol items of a member, and the numbers that those get in the module which are kept.
ghost use Rattle.std.specs.Prelude.{◌≡◌, ◌+◌, ◌<◌, ◌≤◌, ◌^◌, length, IfOk};
ghost use Rattle.member_model.specs.Symbols.{symbol_at, is_table, address_in_module};
ghost use Rattle.member_model.specs.ReadBack.{is_gone, is_kept_at, new_number};
ghost use Rattle.mod_read.specs.Numbering.{counts_of, count_with};

use le_bytes::Memory;
use load_recs::{SymbolItem, SymbolKind};
use member_checks::symbol_at;
use std::alloc::Global;
use std::marker::Model;
use sym_mod::is_reserved;

/// The most symbol items that are numbered.
const MOST_SYMBOLS: usize = u32::MAX as usize - 1;

/// Symbol items, which count from 1. Contracts see their list.
#[derive(Drop)]
pub(crate) struct Numbering {
    symbols: Vec<SymbolItem>,
    /// How many are kept of the first 0, 1, 2 and so on, up to all.
    counts: Vec<u32>,
}

impl Model for Numbering {
    ghost use Rattle.std.specs.Prelude.{List, ◌≡◌};
    ghost use Rattle.load_recs.specs.declared.items.SymbolItem.{SymbolItem};
    ghost use Rattle.mod_read.specs.Numbering.{counts_of};

    ghost Value = { List SymbolItem };

    ghost view = { λ n. n.symbols.items };

    ghost invariant = { λ n. n.counts.items ≡ counts_of n.symbols.items };
}

impl Numbering {
    /// The items with their numbers. Linear in the items.
    ///
    /// # Errors
    /// Out of memory, as also of more than 4,294,967,294 items.
    pub(crate) fn new(alloc: Global, symbols: Vec<SymbolItem>) -> Result<Numbering, Memory>
        ensures { IfOk result (λ made. made ≡ symbols.items) }
    {
        if symbols.len() > MOST_SYMBOLS {
            return Err(Memory);
        }
        let counts = counts_of(alloc, symbols.as_slice())?;
        Ok(Numbering { symbols, counts })
    }

    /// The items, in order.
    pub(crate) fn symbols(&self) -> &[SymbolItem]
        ensures { result.now ≡ self.now }
    {
        self.symbols.as_slice()
    }

    /// Item `n`, from 1.
    pub(crate) fn at(&self, n: u32) -> Option<SymbolItem>
        ensures { result ≡ symbol_at self.now n }
    {
        symbol_at(self.symbols.as_slice(), n)
    }

    /// Whether the item is left out: it is null, an overlay table, or a label in one.
    pub(crate) fn is_gone(&self, x: &SymbolItem) -> bool
        ensures { result ≡ is_gone self.now x.now }
    {
        is_gone(self.symbols.as_slice(), x)
    }

    /// Whether item `n` is there and is not left out.
    pub(crate) fn is_kept_at(&self, n: u32) -> bool
        ensures { result ≡ is_kept_at self.now n }
    {
        match self.at(n) {
            Some(x) => !self.is_gone(&x),
            None => false,
        }
    }

    /// The number in the module, from 0, of item `n`.
    pub(crate) fn number(&self, n: u32) -> u32
        ensures { result ≡ new_number self.now n }
    {
        let before = (n as usize).saturating_sub(1).min(self.symbols.len());
        self.counts[before]
    }

    /// The address in the member of item `n`, 0 where there is none.
    pub(crate) fn address(&self, n: u32) -> u32
        ensures { result ≡ address_in_module self.now n }
    {
        match self.at(n) {
            Some(x) => x.address,
            None => 0,
        }
    }
}

/// Whether the item is a table of overlay.
fn is_table(x: &SymbolItem) -> bool
    ensures { result ≡ is_table x.now }
{
    x.kind == SymbolKind::Sd && is_reserved(&x.name)
}

/// Whether the item is left out, among these.
fn is_gone(symbols: &[SymbolItem], x: &SymbolItem) -> bool
    ensures { result ≡ is_gone symbols.now x.now }
{
    match x.kind {
        SymbolKind::Lr => match symbol_at(symbols, x.length) {
            Some(owner) => is_table(&owner),
            None => false,
        },
        SymbolKind::Null => true,
        _ => is_table(x),
    }
}

/// How many are kept of the first 0, 1, 2 and so on, up to all.
fn counts_of(alloc: Global, symbols: &[SymbolItem]) -> Result<Vec<u32>, Memory>
    requires { length symbols.now + 2 ≤ 2 ^ 32 }
    ensures { IfOk result (λ counts. counts.items ≡ counts_of symbols.now) }
{
    let mut counts = Vec::new(alloc);
    let mut count = 0;
    counts.push(count)?;
    for x in symbols {
        count = count_with(symbols, x, count);
        counts.push(count)?;
    }
    Ok(counts)
}

/// So many, and one more if the item is kept.
fn count_with(symbols: &[SymbolItem], x: &SymbolItem, count: u32) -> u32
    requires { count + 1 < 2 ^ 32 }
    ensures { result ≡ count_with symbols.now x.now count }
{
    if is_gone(symbols, x) {
        count
    } else {
        count + 1
    }
}
