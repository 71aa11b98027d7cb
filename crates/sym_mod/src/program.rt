//! A program as it was merged from modules, by its symbols.
use crate::module::Kind;
use crate::terms::Terms;
use le_bytes::{Bytes, Items, Name};

/// What a section of a program is: named, private or common.
#[derive(Clone, Copy, Debug, PartialEq, Eq)]
pub enum SecKind {
    Sd,
    Pc,
    Cm,
}

/// A kept section of a program.
#[derive(Debug, Drop, PartialEq, Eq)]
pub struct Section {
    /// Blank for a `Pc` and for blank common.
    pub name: Name,
    pub kind: SecKind,
    /// The place of the name, or of the `Pc`, in the order of first appearance.
    pub rank: u32,
    /// The number of the segment, from 1.
    pub segment: u8,
    /// The segments in which a common area of the name came, in the order in which they came.
    pub users: Items<u8>,
    /// The length in bytes.
    pub length: u32,
}

/// A label in a kept section.
#[derive(Clone, Copy, Debug, PartialEq, Eq)]
pub struct Label {
    pub name: Name,
    /// The place of the name in the order of first appearance.
    pub rank: u32,
    pub section: u32,
    /// In bytes from the section's first byte.
    pub offset: u32,
}

/// A name that is referred to and not defined.
#[derive(Clone, Copy, Debug, PartialEq, Eq)]
pub struct Unknown {
    pub name: Name,
    pub weak: bool,
}

/// A pseudo-register: its length in bytes, and its alignment, 1, 2, 4 or 8.
#[derive(Clone, Copy, Debug, PartialEq, Eq)]
pub struct Register {
    pub name: Name,
    pub length: u32,
    pub align: u32,
}

/// What a term of a constant refers to: a section, a label, an unresolved name or a register by
/// its number, or all registers.
#[derive(Clone, Copy, Debug, Default, PartialEq, Eq)]
pub enum Target {
    Section(u32),
    Label(u32),
    Unresolved(u32),
    Register(u32),
    #[default]
    Total,
}

/// A signed part of a constant.
#[derive(Clone, Copy, Debug, Default, PartialEq, Eq)]
pub struct Term {
    pub minus: bool,
    pub target: Target,
    /// The target's address as it was assembled, which the stored number already has; 0 for a
    /// reference.
    pub base: u32,
}

/// An address constant of `length` bytes, 1 to 4, at `offset` of a section.
#[derive(Debug, Drop, PartialEq, Eq)]
pub struct Constant {
    pub section: u32,
    pub offset: u32,
    pub length: u8,
    pub kind: Kind,
    pub terms: Terms<Term>,
}

/// Text that stands from `offset` of a section on.
#[derive(Debug, Drop, PartialEq, Eq)]
pub struct Text {
    pub section: u32,
    pub offset: u32,
    pub bytes: Bytes,
}

/// Where a module of the program asked to be entered: at an offset in a section, or at a name.
#[derive(Clone, Copy, Debug, PartialEq, Eq)]
pub enum StartAt {
    At(u32, u32),
    Named(Name),
}

/// A program as it was merged. Numbers in it count from 0 in its lists.
#[derive(Debug, Drop, PartialEq, Eq)]
pub struct Program {
    /// In the order of their first section item, whatever their segments.
    pub sections: Items<Section>,
    /// In the order of first appearance, as are the unresolved names and the registers.
    pub labels: Items<Label>,
    pub unresolved: Items<Unknown>,
    pub registers: Items<Register>,
    /// In reading order: a later one wins where two overlap.
    pub texts: Items<Text>,
    pub constants: Items<Constant>,
    /// In reading order, those in dropped sections left out.
    pub starts: Items<StartAt>,
}

/// The targets that have an entry in the table of each segment, segment 1 first.
#[derive(Debug, Drop, PartialEq, Eq)]
pub struct Tables {
    pub entries: Items<Items<Target>>,
}

/// The addresses in a module, in bytes from its origin.
#[derive(Debug, Drop, PartialEq, Eq)]
pub struct Places {
    /// Of each section.
    pub sections: Items<u32>,
    /// Of the table of entries of each segment, segment 1 first; where it would stand, if the
    /// segment has none.
    pub tables: Items<u32>,
    /// Of the first byte of each segment, and of the byte after its last.
    pub origins: Items<u32>,
    pub ends: Items<u32>,
    /// The displacement of each register.
    pub registers: Items<u32>,
    /// The end of the last register.
    pub total: u32,
    /// The greatest end of a segment.
    pub length: u32,
}
