//! An item with its ESDID.
use obj_cards::EsdItem;

/// An item of the external symbol dictionary with its ESDID; a label has none, and 0 here.
#[derive(Clone, Copy, Debug, Default, PartialEq, Eq)]
pub struct Numbered {
    pub esdid: u32,
    pub item: EsdItem,
}
