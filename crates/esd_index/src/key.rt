//! What may be referred to, and the items that bring it.
ghost use Rattle.std.specs.Prelude.{◌≡◌, map, option_map};
ghost use Rattle.sym_mod.specs.Kinds.{is_register};
ghost use Rattle.linking_model.specs.Kept.{symbol_of, section_symbol};
ghost use Rattle.esd_index.specs.Keys.{as_symbol, sight};
ghost use Rattle.esd_index.specs.Parts.{stands_at};
ghost use Rattle.esd_index.specs.Steps.{named_if, is_kept_section_by, is_kept_label_by, kept_label_by, flag_at};

use le_bytes::Name;
use std::hash::{Hash, Hasher};
use sym_mod::{Item, ItemKind};

/// What may be referred to: a name, or a private section, by its module and its number there, both
/// from 0.
#[derive(Clone, Copy, Debug, PartialEq, Eq)]
pub enum Key {
    Named(Name),
    Private(usize, usize),
}

/// A name is written at once, with nothing of its kind before it: a name is looked up far more often
/// than a private section, and each write costs.
impl Hash for Key {
    ghost use Rattle.std.proofs.Common.{rules};
    ghost use Rattle.std.specs.Cmp.Rules.{hashing};
    ghost use Rattle.esd_index.specs.Written.{written};

    ghost hash_input = { written };

    ghost respects_eq = { Prim.search (hashing, rules) };

    fn hash<H: Hasher>(&self, state: &mut H) {
        match self {
            Key::Named(name) => state.write(&name.0),
            Key::Private(of_module, number) => {
                state.write_usize(*of_module);
                state.write_usize(*number);
            }
        }
    }
}

/// An item where it is seen.
#[derive(Clone, Copy, Debug, PartialEq, Eq)]
pub struct Sighted {
    pub of_module: usize,
    pub number: usize,
    pub segment: u8,
    pub item: Item,
}

/// Whether the item of a number is marked; false where there is none.
pub fn flag_at(flags: &[bool], number: usize) -> bool
    ensures { result ≡ flag_at flags.now number }
{
    match flags.get(number) {
        Some(flag) => *flag,
        None => false,
    }
}

/// Whether the symbol stands at a place, from 0.
#[tactic(auto, using(crate::proofs::Parts::key_stands))]
pub fn stands_at(keys: &[Key], place: usize, key: &Key) -> bool
    ensures { result ≡ stands_at (map as_symbol keys.now) place (as_symbol key.now) }
{
    match keys.get(place) {
        Some(there) => *there == *key,
        None => false,
    }
}

impl Sighted {
    /// The symbol of the item; registers have names apart.
    pub fn symbol(&self) -> Option<Key>
        ensures { option_map as_symbol result ≡ symbol_of (sight self.now) }
    {
        match self.item.kind_kept() {
            ItemKind::Pc => Some(Key::Private(self.of_module, self.number)),
            ItemKind::Register => None,
            _ => Some(Key::Named(self.item.name)),
        }
    }

    /// The symbol of a section.
    pub fn section_symbol(&self) -> Option<Key>
        ensures { option_map as_symbol result ≡ section_symbol (sight self.now) }
    {
        match self.item.kind_kept() {
            ItemKind::Sd | ItemKind::Cm => Some(Key::Named(self.item.name)),
            ItemKind::Pc => Some(Key::Private(self.of_module, self.number)),
            _ => None,
        }
    }

    /// The name of a register.
    pub fn register(&self) -> Option<Key>
        ensures { option_map as_symbol result ≡ named_if is_register self.now.item }
    {
        match self.item.kind_kept() {
            ItemKind::Register => Some(Key::Named(self.item.name)),
            _ => None,
        }
    }

    /// Whether the item is a named section or an area that is kept.
    pub fn is_kept_section(&self, kept: &[bool]) -> bool
        ensures { result ≡ is_kept_section_by kept.now (sight self.now) }
    {
        match self.item.kind_kept() {
            ItemKind::Sd | ItemKind::Cm => flag_at(kept, self.number),
            _ => false,
        }
    }

    /// Whether the item is a label whose section is kept.
    pub fn is_kept_label(&self, kept: &[bool]) -> bool
        ensures { result ≡ is_kept_label_by kept.now (sight self.now) }
    {
        match self.item.kind_kept() {
            ItemKind::Label => flag_at(kept, self.item.owner as usize),
            _ => false,
        }
    }

    /// The name of a label whose section is kept.
    pub fn kept_label(&self, kept: &[bool]) -> Option<Key>
        ensures { option_map as_symbol result ≡ kept_label_by kept.now (sight self.now) }
    {
        if self.is_kept_label(kept) {
            Some(Key::Named(self.item.name))
        } else {
            None
        }
    }
}
