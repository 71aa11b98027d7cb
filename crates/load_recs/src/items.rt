//! What the items of a record say.
ghost use Rattle.std.specs.Prelude.{◌≡◌, ◌≤◌};
ghost use Rattle.load_recs.specs.Kinds.{is_outside_kind, is_section_kind, is_text_kind};
ghost use Rattle.load_recs.specs.Relocations.{field_kind, field_length, is_address_kind, is_branch, is_joined, is_marked_outside, is_minus};

use le_bytes::Name;

/// What a symbol item is.
#[derive(Clone, Copy, Debug, PartialEq, Eq)]
pub enum SymbolKind {
    /// A section.
    Sd,
    /// An unresolved name.
    Er,
    /// A label.
    Lr,
    /// Private code.
    Pc,
    /// A common area.
    Cm,
    /// A pseudo-register.
    Pr,
    /// Nothing.
    Null,
    /// A weak unresolved name.
    Wx,
}

impl SymbolKind {
    /// Whether the item is a section: SD, PC or CM.
    pub fn is_section(self) -> bool
        ensures { result ≡ is_section_kind self }
    {
        matches!(self, SymbolKind::Sd | SymbolKind::Pc | SymbolKind::Cm)
    }

    /// Whether the item is a section that has text: SD or PC.
    pub fn has_text(self) -> bool
        ensures { result ≡ is_text_kind self }
    {
        matches!(self, SymbolKind::Sd | SymbolKind::Pc)
    }

    /// Whether the item is a name that is not defined: ER or WX.
    pub fn is_outside(self) -> bool
        ensures { result ≡ is_outside_kind self }
    {
        matches!(self, SymbolKind::Er | SymbolKind::Wx)
    }
}

/// A symbol item.
#[derive(Clone, Copy, Debug, PartialEq, Eq)]
pub struct SymbolItem {
    /// The symbol's name. That of private code is blank.
    pub name: Name,
    pub kind: SymbolKind,
    /// The address in the module, or the displacement of a pseudo-register; below 16,777,216.
    pub address: u32,
    /// The segment, or the alignment less one of a pseudo-register: 0, 1, 3 or 7.
    pub segment: u8,
    /// The length in bytes, or the item number of a label's section.
    pub length: u32,
}

/// A note item: where a segment is.
#[derive(Clone, Copy, Debug, PartialEq, Eq)]
pub struct NoteItem {
    /// The number in the member of the segment's first record, from 1.
    pub first: u32,
    /// The address in the module at which the segment begins.
    pub origin: u32,
    /// The segment's length in bytes.
    pub length: u32,
}

/// A relocation item.
#[derive(Clone, Copy, Debug, PartialEq, Eq)]
pub struct RldItem {
    /// The item number of the symbol that the constant refers to, 0 where it refers to none.
    pub r: u32,
    /// The item number of the section that the constant stands in.
    pub p: u32,
    /// The constant's kind, length and sign, and whether the next item has the same numbers.
    pub flag: u8,
    /// The constant's address in the module.
    pub address: u32,
}

impl RldItem {
    /// The kind of the constant: 0 A-type, 1 V-type, 2 displacement, 3 total; more has no meaning.
    pub fn field_kind(&self) -> u8
        ensures value { result ≡ field_kind self.now.flag }
        ensures most { result ≤ 7 }
    {
        self.flag / 16 % 8
    }

    /// Whether the constant is of V-type: a branch.
    pub fn is_branch(&self) -> bool
        ensures { result ≡ is_branch self.now.flag }
    {
        self.field_kind() == 1
    }

    /// Whether the constant is of A-type or V-type.
    pub fn is_address_kind(&self) -> bool
        ensures { result ≡ is_address_kind self.now.flag }
    {
        self.field_kind() < 2
    }

    /// Whether the item says that its symbol is not defined.
    pub fn is_marked_outside(&self) -> bool
        ensures { result ≡ is_marked_outside self.now.flag }
    {
        self.flag > 127
    }

    /// The length of the constant in bytes, 1 to 4.
    pub fn field_length(&self) -> u8
        ensures value { result ≡ field_length self.now.flag }
        ensures some { 1 ≤ result }
        ensures most { result ≤ 4 }
    {
        self.flag / 4 % 4 + 1
    }

    /// Whether the value is subtracted.
    pub fn is_minus(&self) -> bool
        ensures { result ≡ is_minus self.now.flag }
    {
        self.flag / 2 % 2 == 1
    }

    /// Whether the next item has the same numbers, which the record does not say again.
    pub fn shares_pointers(&self) -> bool
        ensures { result ≡ is_joined self.now.flag }
    {
        self.flag % 2 == 1
    }
}
