//! The symbolic module that the facts of a deck make.
ghost use Rattle.std.specs.Prelude.{◌≡◌, ◌<◌, ◌^◌, length, map, take, IfOk};
ghost use Rattle.obj_read.specs.Module.{symbol_kind, length_for, owner_for, align_for, symbol, base_of, number_or, fragment, entry};
ghost use Rattle.obj_read.specs.Steps.{made_of};

use crate::constants::constants;
use crate::dictionary::Dictionary;
use crate::facts::Facts;
use crate::numbered::Numbered;
use le_bytes::{Bytes, Items};
use obj_cards::{EndStart, EsdItem, EsdKind, TxtCard};
use std::alloc::{AllocError, Global};
use sym_mod::{Frag, Item, ItemKind, SymEntry, SymModule};

/// The module of items that have their lengths, of text and of terms.
///
/// # Errors
/// Want of memory.
pub fn made(alloc: Global, facts: &Facts, start: &EndStart) -> Result<SymModule, AllocError>
    requires { length facts.now.items < 2 ^ 32 }
    ensures { IfOk result (λ made. made ≡ made_of facts.now start.now) }
{
    let items = &facts.items;
    Ok(SymModule {
        items: symbols(alloc, items)?,
        fragments: fragments(alloc, items, facts.texts.as_slice())?,
        constants: constants(alloc, items, facts.terms.as_slice())?,
        entry: entry(items, start),
    })
}

/// The number of an item and its assembled address.
#[derive(Clone, Copy)]
pub struct Origin {
    pub number: u32,
    pub base: u32,
}

/// Those of the item with an ESDID, both 0 if there is none.
pub fn origin_of(items: &Dictionary, esdid: u32) -> Origin
    requires { length items.now < 2 ^ 32 }
    ensures number { result.number ≡ number_or items.now esdid }
    ensures base { result.base ≡ base_of items.now esdid }
{
    match items.find(esdid) {
        Some(found) => Origin {
            number: found.number as u32,
            base: found.item.item.address,
        },
        None => Origin { number: 0, base: 0 },
    }
}

fn symbols(alloc: Global, items: &Dictionary) -> Result<Items<Item>, AllocError>
    requires { length items.now < 2 ^ 32 }
    ensures { IfOk result (λ made. made ≡ map (symbol items.now) items.now) }
{
    let mut made = Vec::with_capacity(alloc, items.items().len())?;
    for x in items.items() {
        made.push(symbol(items, x))?;
    }
    Ok(Items::from_vec(made))
}

fn symbol(items: &Dictionary, x: &Numbered) -> Item
    requires { length items.now < 2 ^ 32 }
    ensures { result ≡ symbol items.now x.now }
{
    Item {
        name: x.item.name,
        kind: symbol_kind(x.item.kind, x.item.name.is_blank()),
        base: x.item.address,
        length: length_for(&x.item),
        owner: owner_for(items, &x.item),
        align: align_for(&x.item),
    }
}

/// A section without a name is private code.
fn symbol_kind(kind: EsdKind, blank: bool) -> ItemKind
    ensures { result ≡ symbol_kind kind blank }
{
    match kind {
        EsdKind::Sd => { if blank { ItemKind::Pc } else { ItemKind::Sd } }
        EsdKind::Ld => ItemKind::Label,
        EsdKind::Er => ItemKind::Er,
        EsdKind::Pc => ItemKind::Pc,
        EsdKind::Cm => ItemKind::Cm,
        EsdKind::Pr => ItemKind::Register,
        EsdKind::Wx => ItemKind::Wx,
    }
}

fn length_for(x: &EsdItem) -> u32
    ensures { result ≡ length_for x.now x.now.kind }
{
    match x.kind {
        EsdKind::Ld => 0,
        _ => x.length,
    }
}

/// Of a label: the number of its section.
fn owner_for(items: &Dictionary, x: &EsdItem) -> u32
    requires { length items.now < 2 ^ 32 }
    ensures { result ≡ owner_for items.now x.now x.now.kind }
{
    match x.kind {
        EsdKind::Ld => origin_of(items, x.length).number,
        _ => 0,
    }
}

fn align_for(x: &EsdItem) -> u32
    ensures { result ≡ align_for x.now x.now.kind }
{
    match x.kind {
        EsdKind::Pr => u32::from(x.align) + 1,
        _ => 0,
    }
}

fn fragments(
    alloc: Global,
    items: &Dictionary,
    texts: &[TxtCard],
) -> Result<Items<Frag>, AllocError>
    requires { length items.now < 2 ^ 32 }
    ensures { IfOk result (λ made. made ≡ map (fragment items.now) texts.now) }
{
    let mut made = Vec::with_capacity(alloc, texts.len())?;
    for t in texts {
        made.push(fragment(alloc, items, t)?)?;
    }
    Ok(Items::from_vec(made))
}

fn fragment(alloc: Global, items: &Dictionary, t: &TxtCard) -> Result<Frag, AllocError>
    requires { length items.now < 2 ^ 32 }
    ensures { IfOk result (λ made. made ≡ fragment items.now t.now) }
{
    let section = origin_of(items, t.esdid);
    Ok(Frag {
        item: section.number,
        offset: t.address.saturating_sub(section.base),
        bytes: Bytes::from_slice(alloc, used(t))?,
    })
}

/// The text in use.
fn used(t: &TxtCard) -> &[u8]
    ensures { result.now ≡ take t.now.count t.now.bytes }
{
    &t.bytes[..usize::from(t.count).min(56)]
}

fn entry(items: &Dictionary, start: &EndStart) -> SymEntry
    requires { length items.now < 2 ^ 32 }
    ensures { result ≡ entry items.now start.now }
{
    match start {
        EndStart::None => SymEntry::None,
        EndStart::At(address, esdid) => {
            let section = origin_of(items, *esdid);
            SymEntry::At(section.number, address.saturating_sub(section.base))
        }
        EndStart::Named(name) => SymEntry::Named(*name),
    }
}
