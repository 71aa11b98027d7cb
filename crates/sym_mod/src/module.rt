//! One module as it was read, by its symbols.
use crate::terms::Terms;
use le_bytes::{Bytes, Items, Name};
use std::alloc::Global;

/// What an item of a module's symbol list is (GC28-6538, the types of the external symbol
/// dictionary). `Sd` is a section, `Pc` a private section, `Cm` a common area, `Label` a label in
/// a section, `Er` a reference, `Wx` a weak reference and `Register` a pseudo-register.
///
/// An `Sd` whose name is blank counts as a `Pc` wherever sections are kept.
#[derive(Clone, Copy, Debug, PartialEq, Eq)]
pub enum ItemKind {
    Sd,
    Pc,
    Cm,
    Label,
    Er,
    Wx,
    Register,
}

impl ItemKind {
    ghost use Rattle.std.specs.Prelude.{◌≡◌};
    ghost use Rattle.sym_mod.specs.Kinds.{has_text, is_section};

    /// Whether an item of this kind may have text and constants.
    pub fn has_text(self) -> bool
        ensures { result ≡ has_text self }
    {
        matches!(self, ItemKind::Sd | ItemKind::Pc)
    }

    /// Whether an item of this kind is a section.
    pub fn is_section(self) -> bool
        ensures { result ≡ is_section self }
    {
        self.has_text() || self == ItemKind::Cm
    }
}

/// An item of a module's symbol list. A field that counts for no item of its kind is 0.
#[derive(Clone, Copy, Debug, PartialEq, Eq)]
pub struct Item {
    /// Blank for a `Pc` and for blank common.
    pub name: Name,
    pub kind: ItemKind,
    /// The address in the module as it was assembled, in bytes.
    pub base: u32,
    /// The length in bytes.
    pub length: u32,
    /// Of a `Label`: the number of its section's item, from 0.
    pub owner: u32,
    /// Of a `Register`: 1, 2, 4 or 8.
    pub align: u32,
}

impl Item {
    ghost use Rattle.std.specs.Prelude.{◌≡◌};
    ghost use Rattle.sym_mod.specs.Kinds.{kind_of};

    /// The kind that counts where sections are kept: that of an SD with a blank name is PC.
    pub fn kind_kept(&self) -> ItemKind
        ensures { result ≡ kind_of self.now }
    {
        if self.kind == ItemKind::Sd && self.name.is_blank() {
            ItemKind::Pc
        } else {
            self.kind
        }
    }
}

/// Text that stands from `offset`, in bytes, of item number `item` on.
#[derive(Debug, Drop, PartialEq, Eq)]
pub struct Frag {
    pub item: u32,
    pub offset: u32,
    pub bytes: Bytes,
}

/// What a constant's field is filled with (GC28-6538, the flag of the relocation dictionary): an
/// address, the address by which a call goes, a register's displacement, or the total of the
/// registers.
#[derive(Clone, Copy, Debug, PartialEq, Eq)]
pub enum Kind {
    Address,
    Branch,
    Displacement,
    Total,
}

/// What a term of a constant refers to: the item of a number, a name, a register by its name, or
/// all registers.
#[derive(Clone, Copy, Debug, Default, PartialEq, Eq)]
pub enum SymTarget {
    Own(u32),
    Named(Name),
    Register(Name),
    #[default]
    Total,
}

/// A signed part of a constant.
#[derive(Clone, Copy, Debug, Default, PartialEq, Eq)]
pub struct SymTerm {
    pub minus: bool,
    pub target: SymTarget,
    /// The target's address as it was assembled, which the stored number already has; 0 for a
    /// reference.
    pub base: u32,
}

/// An address constant of `length` bytes, 1 to 4, at `offset` of item number `item`.
#[derive(Debug, Drop, PartialEq, Eq)]
pub struct SymConst {
    pub item: u32,
    pub offset: u32,
    pub length: u8,
    pub kind: Kind,
    pub terms: Terms<SymTerm>,
}

/// Where a module asks to be entered: nowhere, at an offset in an item, or at a name.
#[derive(Clone, Copy, Debug, PartialEq, Eq)]
pub enum SymEntry {
    None,
    At(u32, u32),
    Named(Name),
}

/// A module as it was read, object deck or load module. Item numbers count from 0 in `items`.
#[derive(Debug, Drop, PartialEq, Eq)]
pub struct SymModule {
    pub items: Items<Item>,
    /// In reading order: a later one wins where two overlap.
    pub fragments: Items<Frag>,
    pub constants: Items<SymConst>,
    pub entry: SymEntry,
}

impl SymModule {
    ghost use Rattle.std.specs.Prelude.{◌≡◌, []};
    ghost use Rattle.sym_mod.specs.Sound.{IsSoundModule};

    /// A module without items. Takes no memory.
    pub fn empty(alloc: Global) -> SymModule
        ensures empty { result ≡ record { items = []; fragments = []; constants = []; entry = SymEntry.None } }
        ensures sound { IsSoundModule result }
    {
        SymModule {
            items: Items::new(alloc),
            fragments: Items::new(alloc),
            constants: Items::new(alloc),
            entry: SymEntry::None,
        }
    }
}
