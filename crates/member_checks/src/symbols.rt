//! The symbol items of a member, with what later records ask of them.
ghost use Rattle.std.specs.Prelude.{◌≡◌, ◌∷◌, [], ◌++◌, ◌<◌, ◌≤◌, ◌-◌, slice_get, unwrap_or, ◌&&◌, ◌==◌, if◌then◌else◌, ℕ, length, nat_eq, Some, IfOk, OnOk, true, false};
ghost use Rattle.std.specs.HashMap.{get};
ghost use Rattle.std.specs.Option.{option_map_or};
ghost use Rattle.load_recs.specs.Kinds.{is_text_kind};
ghost use Rattle.member_model.specs.Symbols.{symbol_at, end_of, section_rank, is_section};
ghost use Rattle.member_model.specs.Faults.{is_section_outside, label_fault, symbol_fault, symbols_fault};
ghost use Rattle.load_recs.specs.Items.{symbols_of};
ghost use Rattle.member_checks.specs.Symbols.{names_text, addresses_of, numbers_of, end_in, number_after, section_address};
ghost use Rattle.member_checks.specs.Kept.{Keeps};

use crate::refused::Refused;
use crate::segments::symbol_at;
use le_bytes::RecWhat;
use load_recs::{SymbolItem, SymbolKind, symbol_item};
use pds_lib::Entry;
use std::alloc::{AllocError, Global};
use std::collections::HashMap;
use std::marker::Model;

const SYMBOL_SIZE: usize = 16;

/// Symbol items in their order, which count from 1.
#[derive(Drop)]
pub struct Symbols {
    items: Vec<SymbolItem>,
    /// The address of each section.
    addresses: Vec<usize>,
    /// Of each item the number of the scatter item of its section, from 1, or 0.
    numbers: Vec<usize>,
    /// The end of the last section of each segment that has one.
    ends: HashMap<u8, u64>,
}

impl Model for Symbols {
    ghost use Rattle.std.specs.Prelude.{List, nat_eq};
    ghost use Rattle.std.specs.HashMap.{get};
    ghost use Rattle.load_recs.specs.declared.items.SymbolItem.{SymbolItem};
    ghost use Rattle.member_checks.specs.Symbols.{AreKept};

    ghost Value = { List SymbolItem };

    ghost view = { λ s. s.items.items };

    ghost invariant = { λ s. AreKept s.items.items s.addresses.items s.numbers.items (get nat_eq s.ends) };
}

impl Symbols {
    /// No items. Takes no memory.
    pub fn new(alloc: Global) -> Symbols
        ensures { result ≡ [] }
    {
        Symbols {
            items: Vec::new(alloc),
            addresses: Vec::new(alloc),
            numbers: Vec::new(alloc),
            ends: HashMap::new(alloc),
        }
    }

    /// The items.
    pub fn as_slice(&self) -> &[SymbolItem]
        ensures { result.now ≡ self.now }
    {
        self.items.as_slice()
    }

    /// The items.
    pub fn into_vec(self) -> Vec<SymbolItem>
        ensures { result.items ≡ self }
    {
        self.items
    }

    /// Item `n`, from 1.
    pub fn at(&self, n: u32) -> Option<SymbolItem>
        ensures { result ≡ symbol_at self.now n }
    {
        symbol_at(self.items.as_slice(), n)
    }

    /// The addresses of the sections.
    pub fn addresses(&self) -> &[usize]
        ensures { result.now ≡ addresses_of self.now }
    {
        self.addresses.as_slice()
    }

    /// Of each item the number of the scatter item of its section, from 1, or 0.
    pub fn numbers(&self) -> &[usize]
        ensures { result.now ≡ numbers_of self.now }
    {
        self.numbers.as_slice()
    }

    /// The end of the last section of the segment, 0 where it has none.
    fn end_in(&self, segment: u8) -> u64
        ensures { result ≡ end_in self.now segment }
    {
        self.ends.get(&segment).copied().unwrap_or(0)
    }

    /// Whether the section ends after the module, is in no segment of the member, or begins before
    /// the last section of its segment ends.
    #[tactic(auto, unfolding(crate::specs::Symbols::end_in))]
    fn is_section_outside(&self, e: &Entry, x: &SymbolItem) -> bool
        ensures { result ≡ is_section_outside e.now self.now x.now }
    {
        u64::from(e.length) < end_of(x)
            || x.segment == 0
            || (!e.is_overlay() && x.segment != 1)
            || u64::from(x.address) < self.end_in(x.segment)
    }

    fn label_fault(&self, x: &SymbolItem) -> Option<RecWhat>
        ensures { result ≡ label_fault x.now (symbol_at self.now x.now.length) }
    {
        let Some(owner) = self.at(x.length) else {
            return Some(RecWhat::BadEsdid);
        };
        if !owner.kind.has_text() {
            return Some(RecWhat::BadEsdid);
        }
        if x.address < owner.address || end_of(&owner) < u64::from(x.address) {
            return Some(RecWhat::SectionOutside);
        }
        None
    }

    /// What is wrong with an item that comes after these.
    fn fault(&self, e: &Entry, x: &SymbolItem) -> Option<RecWhat>
        ensures { result ≡ symbol_fault e.now self.now x.now x.now.kind }
    {
        if x.kind == SymbolKind::Lr {
            return self.label_fault(x);
        }
        if x.kind.is_section() && self.is_section_outside(e, x) {
            return Some(RecWhat::SectionOutside);
        }
        None
    }

    /// The number of the scatter item of the section `n`, which is an SD or PC.
    fn number_of(&self, n: u32) -> usize
        requires { option_map_or (λ owner. is_text_kind owner.kind) (symbol_at self.now n) false ≡ true }
        ensures { result ≡ section_rank self.now n }
    {
        if n == 0 {
            return 0;
        }
        number_at(self.numbers(), n)
    }

    /// The number of the scatter item of the section of an item that comes after these.
    #[tactic(auto, using(crate::proofs::SymbolLists::after_label, crate::proofs::SymbolLists::after_section, crate::proofs::SymbolLists::after_other))]
    fn number_after(&self, x: &SymbolItem) -> usize
        requires { names_text self.now x.now x.now.kind ≡ true }
        ensures { result ≡ number_after self.now x.now }
    {
        match x.kind {
            SymbolKind::Lr => self.number_of(x.length),
            SymbolKind::Sd | SymbolKind::Pc | SymbolKind::Cm => self.addresses.len() + 1,
            SymbolKind::Er | SymbolKind::Pr | SymbolKind::Null | SymbolKind::Wx => 0,
        }
    }

    /// The items with one more.
    #[tactic(auto, using(crate::proofs::SymbolLists::kept_more))]
    fn with(self, x: SymbolItem) -> Result<Symbols, AllocError>
        requires { names_text self x x.kind ≡ true }
        ensures { IfOk result (λ symbols. symbols ≡ self ++ x ∷ []) }
    {
        let number = self.number_after(&x);
        let Symbols {
            mut items,
            mut addresses,
            mut numbers,
            mut ends,
        } = self;
        note_address(&mut addresses, &x)?;
        note_end(&mut ends, &x)?;
        numbers.push(number)?;
        items.push(x)?;
        Ok(Symbols {
            items,
            addresses,
            numbers,
            ends,
        })
    }

    /// The items with those of a record, each of which is judged after those before it.
    ///
    /// # Errors
    /// The first fault of an item; want of memory.
    #[tactic(auto, using(crate::proofs::ItemLists::item_next, crate::proofs::ItemLists::items_over, crate::proofs::SymbolLists::named_symbol))]
    pub fn with_items(self, e: &Entry, items: &[u8]) -> Result<Symbols, Refused>
        requires { length items.now ≤ 240 }
        ensures { Keeps (symbols_fault e.now self (symbols_of items.now)) (self ++ symbols_of items.now) result }
    {
        let mut symbols = self;
        for k in 0..items.len() / SYMBOL_SIZE {
            let x = symbol_item(items, k as u32);
            match symbols.fault(e, &x) {
                Some(what) => return Err(Refused::What(what)),
                None => symbols = symbols.with(x)?,
            }
        }
        Ok(symbols)
    }
}

/// Number `n`, from 1, and 0 past the end.
fn number_at(numbers: &[usize], n: u32) -> usize
    requires { 0 < n }
    ensures { result ≡ unwrap_or (slice_get numbers.now (n - 1)) 0 }
{
    numbers.get(n as usize - 1).copied().unwrap_or(0)
}

/// Puts the address of the item at the end, if it is a section.
fn note_address(addresses: &mut Vec<usize>, x: &SymbolItem) -> Result<(), AllocError>
    ensures { OnOk result (addresses.new.items ≡ addresses.old.items ++ section_address x.now) }
{
    if x.kind.is_section() {
        addresses.push(x.address as usize)?;
    }
    Ok(())
}

/// Puts the end of the item in the place of the last one of its segment, if it is a section.
fn note_end(ends: &mut HashMap<u8, u64>, x: &SymbolItem) -> Result<(), AllocError>
    ensures { OnOk result ((segment : ℕ) → get nat_eq ends.new segment ≡ (if is_section x.now && x.now.segment == segment then Some (end_of x.now) else get nat_eq ends.old segment)) }
{
    if x.kind.is_section() {
        let _ = ends.insert(x.segment, end_of(x))?;
    }
    Ok(())
}

/// The address behind the section.
pub fn end_of(x: &SymbolItem) -> u64
    ensures { result ≡ end_of x.now }
{
    u64::from(x.address) + u64::from(x.length)
}
