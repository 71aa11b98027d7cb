//! What the modules that were read say of each symbol.
ghost use Rattle.std.specs.Prelude.{◌≡◌, ◌&&◌, ◌||◌, not, [], ◌∷◌, Some, is_some, option_map, OnOk, IfOk};
ghost use Rattle.std.specs.List.{list_any};
ghost use Rattle.sym_mod.specs.Kinds.{is_sd, kind_of};
ghost use Rattle.linking_model.specs.Kept.{symbol_eq};
ghost use Rattle.esd_index.specs.Keys.{as_symbol, sight};
ghost use Rattle.esd_index.specs.Contents.{now_of, marked_of};
ghost use Rattle.esd_index.specs.Marked.{with_some};
ghost use Rattle.esd_index.specs.Steps.{with_sight, label_meant, with_seen, with_target, clashes_over, is_kept_over};

use crate::key::{Key, Sighted};
use crate::symbol_table::SymbolTable;
use crate::symbols::Symbols;
use std::alloc::{AllocError, Global};
use sym_mod::{Item, ItemKind, SymTarget, SymTerm};

/// What the modules that were read say of each symbol, and what those said that were read when it was
/// last marked.
#[derive(Drop)]
pub struct Index {
    /// The symbols, in order of first appearance, and which of them are sections, names of SD items, and
    /// names of references that are not weak.
    pub table: SymbolTable,
    pub registers: Symbols,
    /// The names of labels whose section is kept.
    pub labels: Symbols,
    /// The names of weak references.
    pub weak: Symbols,
    /// The names to which kept constants refer, by the name and by a label item.
    pub named: Symbols,
    pub labelled: Symbols,
    /// Where the symbol of each item of a module was found among all, 0 where it has none.
    pub(crate) found: Vec<usize>,
}

impl Index {
    /// Of no modules. Takes no memory.
    pub fn new(alloc: Global) -> Index
        ensures now { now_of result ≡ record { symbols = []; sections = []; registers = []; controls = []; labels = []; strong = []; weak = []; named = []; labelled = [] } }
        ensures marked { marked_of result ≡ now_of result }
    {
        Index {
            table: SymbolTable::new(alloc),
            registers: Symbols::new(alloc),
            labels: Symbols::new(alloc),
            weak: Symbols::new(alloc),
            named: Symbols::new(alloc),
            labelled: Symbols::new(alloc),
            found: Vec::new(alloc),
        }
    }

    /// Marks what it says.
    pub fn mark(&mut self)
        ensures now { now_of self.new ≡ now_of self.old }
        ensures marked { marked_of self.new ≡ now_of self.old }
    {
        self.table.mark();
        self.registers.mark();
        self.labels.mark();
        self.weak.mark();
        self.named.mark();
        self.labelled.mark();
    }

    /// Says again what it said at the mark.
    pub fn go_back(&mut self)
        ensures now { now_of self.new ≡ marked_of self.old }
        ensures marked { marked_of self.new ≡ marked_of self.old }
    {
        self.table.go_back();
        self.registers.go_back();
        self.labels.go_back();
        self.weak.go_back();
        self.named.go_back();
        self.labelled.go_back();
    }

    /// Whether an item is a section that is kept, where the SD items before it are noted; and notes its
    /// symbol, and the name of an SD item.
    pub(crate) fn keep_item(&mut self, x: &Sighted) -> Result<bool, AllocError>
        ensures kept { IfOk result (λ kept. kept ≡ is_kept_over (now_of self.old).controls x.now.item (kind_of x.now.item)) }
        ensures noted { OnOk result (now_of self.new ≡ with_seen (now_of self.old) (sight x.now)) }
        ensures marked { marked_of self.new ≡ marked_of self.old }
    {
        let Some(key) = x.symbol() else {
            self.found.push(0)?;
            return Ok(false);
        };
        // A deck often names again what the deck before named last.
        let likely = self.table.symbols().len().saturating_sub(1);
        let place = self.table.put(key, likely)?;
        self.found.push(place)?;
        match x.item.kind_kept() {
            ItemKind::Sd => self.table.put_control(key, place),
            ItemKind::Pc => Ok(true),
            ItemKind::Cm => Ok(true),
            _ => Ok(false),
        }
    }

    /// Whether the item would give its name a second meaning.
    pub(crate) fn clashes(&self, kept: &[bool], x: &Sighted) -> bool
        ensures { result ≡ clashes_over kept.now (now_of self.now) (sight x.now) }
    {
        let name = Key::Named(x.item.name);
        (x.is_kept_section(kept) && self.labels.has(&name))
            || (x.is_kept_label(kept) && (self.labels.has(&name) || self.table.is_section(&name)))
    }

    /// Where the symbol of an item of a number was found.
    fn found_at(&self, number: usize) -> usize {
        match self.found.get(number) {
            Some(place) => *place,
            None => 0,
        }
    }

    /// Notes the symbol of an item, and what it says of it by the item's kind.
    #[tactic(auto, unfolding(crate::specs::Steps::with_sight))]
    pub(crate) fn note_item(&mut self, kept: &[bool], x: &Sighted) -> Result<(), AllocError>
        ensures noted { OnOk result (now_of self.new ≡ with_sight kept.now (now_of self.old) (sight x.now)) }
        ensures marked { marked_of self.new ≡ marked_of self.old }
    {
        let Some(key) = x.symbol() else {
            return self.registers.note(x.register());
        };
        let likely = self.found_at(x.number);
        let place = self.table.put(key, likely)?;
        match x.item.kind_kept() {
            ItemKind::Sd | ItemKind::Pc | ItemKind::Cm => self.table.put_section(key, place),
            ItemKind::Er => self.table.put_strong(key, place),
            ItemKind::Wx => self.weak.note(Some(key)),
            _ => self.labels.note(x.kept_label(kept)),
        }
    }

    #[tactic(auto, unfolding(crate::specs::Steps::with_target))]
    pub(crate) fn note_target(&mut self, items: &[Item], t: &SymTerm) -> Result<(), AllocError>
        ensures noted { OnOk result (now_of self.new ≡ with_target items.now (now_of self.old) t.now) }
        ensures marked { marked_of self.new ≡ marked_of self.old }
    {
        match t.target {
            SymTarget::Named(name) => self.note_named(Key::Named(name)),
            SymTarget::Own(n) => self.labelled.note(label_name(items, n as usize)),
            _ => Ok(()),
        }
    }

    /// Notes a name to which a constant refers by the name.
    fn note_named(&mut self, name: Key) -> Result<(), AllocError>
        ensures noted { OnOk result (now_of self.new ≡ record (now_of self.old) { symbols = with_some (now_of self.old).symbols (Some (as_symbol name)); named = with_some (now_of self.old).named (Some (as_symbol name)) }) }
        ensures marked { marked_of self.new ≡ marked_of self.old }
    {
        self.table.note(Some(name))?;
        self.named.note(Some(name))
    }
}

/// The name of the label item of a number.
fn label_name(items: &[Item], n: usize) -> Option<Key>
    ensures { option_map as_symbol result ≡ label_meant items.now (SymTarget.Own n) }
{
    match items.get(n) {
        Some(x) => {
            if x.kind == ItemKind::Label {
                Some(Key::Named(x.name))
            } else {
                None
            }
        }
        None => None,
    }
}
