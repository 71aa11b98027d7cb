//! The items of the module.
ghost use Rattle.std.specs.Prelude.{◌≡◌, ◌+◌, IfOk};
ghost use Rattle.member_model.specs.ReadBack.{plain_item, private_item, item_as, items_of};
ghost use Rattle.mod_read.specs.Gathered.{with_symbol};

use crate::numbering::Numbering;
use le_bytes::{Items, Name};
use load_recs::{SymbolItem, SymbolKind};
use std::alloc::{AllocError, Global};
use sym_mod::{Item, ItemKind};

/// The items of the module: the symbol items that are kept, in order. Linear in the items.
///
/// # Errors
/// Out of memory.
pub(crate) fn items(alloc: Global, numbering: &Numbering) -> Result<Items<Item>, AllocError>
    ensures { IfOk result (λ made. made ≡ items_of numbering.now) }
{
    let mut made = Vec::new(alloc);
    for x in numbering.symbols() {
        made = with_symbol(numbering, made, x)?;
    }
    Ok(Items::from_vec(made))
}

/// The items with that of a symbol item, if it is kept.
#[tactic(auto, unfolding(crate::specs::Gathered::with_symbol))]
fn with_symbol(
    numbering: &Numbering,
    made: Vec<Item>,
    x: &SymbolItem,
) -> Result<Vec<Item>, AllocError>
    ensures { IfOk result (λ more. more.items ≡ with_symbol numbering.now made.items x.now) }
{
    let mut made = made;
    if !numbering.is_gone(x) {
        made.push(item(numbering, x))?;
    }
    Ok(made)
}

/// A symbol item as an item of the module.
fn item(numbering: &Numbering, x: &SymbolItem) -> Item
    ensures { result ≡ item_as numbering.now x.now x.now.kind }
{
    match x.kind {
        SymbolKind::Sd if x.name.is_blank() => private_item(x),
        SymbolKind::Sd => plain_item(x.name, ItemKind::Sd, x.address, x.length),
        SymbolKind::Pc => private_item(x),
        SymbolKind::Cm => plain_item(x.name, ItemKind::Cm, x.address, x.length),
        SymbolKind::Lr => label_item(numbering, x),
        SymbolKind::Pr => register_item(x),
        SymbolKind::Wx => plain_item(x.name, ItemKind::Wx, 0, 0),
        SymbolKind::Er | SymbolKind::Null => plain_item(x.name, ItemKind::Er, 0, 0),
    }
}

/// An item that is neither a label nor a register.
fn plain_item(name: Name, kind: ItemKind, base: u32, length: u32) -> Item
    ensures { result ≡ plain_item name kind base length }
{
    Item {
        name,
        kind,
        base,
        length,
        owner: 0,
        align: 0,
    }
}

/// A section without a name.
fn private_item(x: &SymbolItem) -> Item
    ensures { result ≡ private_item x.now }
{
    plain_item(Name::BLANK, ItemKind::Pc, x.address, x.length)
}

/// A label, with the number of its section's item.
fn label_item(numbering: &Numbering, x: &SymbolItem) -> Item
    ensures { result ≡ item_as numbering.now x.now SymbolKind.Lr }
{
    Item {
        owner: numbering.number(x.length),
        ..plain_item(x.name, ItemKind::Label, x.address, 0)
    }
}

/// A register, with its alignment.
fn register_item(x: &SymbolItem) -> Item
    ensures { result ≡ record (plain_item x.now.name ItemKind.Register 0 x.now.length) { align = x.now.segment + 1 } }
{
    Item {
        align: u32::from(x.segment) + 1,
        ..plain_item(x.name, ItemKind::Register, 0, x.length)
    }
}
