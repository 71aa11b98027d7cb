//! The records of symbols, and of a scatter list.
ghost use Rattle.std.specs.Prelude.{◌≡◌, ◌^◌, ◌<◌, ◌∷◌, ◌++◌, All, IfOk, OnOk, map, length, replicate};
ghost use Rattle.byteorder.specs.Endian.{big_bytes};
ghost use Rattle.load_recs.specs.ItemBytes.{symbol_bytes, IsSymbol};
ghost use Rattle.load_recs.specs.Records.{rec_bytes};
ghost use Rattle.member_model.specs.Cuts.{together};
ghost use Rattle.sym_mod.specs.declared.program.Label.{Label};
ghost use Rattle.member_model.specs.Parts.{OneSection, part_place, part_number};
ghost use Rattle.member_model.specs.SymbolList.{first_records, symbol_records, scatter_records, scatter_items, translation_numbers};
ghost use Rattle.mod_parts.specs.Listed.{CanBeListed};
ghost use Rattle.mod_parts.specs.Placed.{ArePlacesOf};
ghost use Rattle.mod_parts.specs.Seen.{seen, IsPartOf};
ghost use Rattle.mod_segments.specs.Records.{IsStored};

use crate::cutting::{Kind, put_records};
use le_bytes::{Bytes, Items, Memory, put16, put24};
use load_recs::{SymbolItem, put_symbol_item};
use mod_parts::{Part, PartList, symbol_items};
use std::alloc::{AllocError, Global};
use sym_mod::Places;

/// The records of a member before its note list: its symbol items, and with `scatter` the address of
/// each section and table and the number of each symbol's section. Linear in the items.
///
/// # Errors
/// Want of memory.
#[tactic(auto, using(crate::proofs::Recorded::firsts_plain, crate::proofs::Recorded::firsts_scattered))]
pub fn head_records(
    alloc: Global,
    list: &PartList<'_>,
    a: &Places,
    scatter: bool,
) -> Result<Items<Bytes>, Memory>
    requires { ArePlacesOf list.now a.now }
    ensures records { IfOk result (λ records. records ≡ map rec_bytes (first_records list.now scatter)) }
    ensures sizes { IfOk result (All IsStored) }
{
    let _ = list.program();
    let mut records = Items::new(alloc);
    put_symbols(alloc, &mut records, list, a)?;
    if !scatter {
        return Ok(records);
    }
    put_scatter_list(alloc, &mut records, list, a)?;
    Ok(records)
}

#[tactic(auto, using(crate::proofs::Recorded::symbols_whole))]
fn put_symbols(
    alloc: Global,
    records: &mut Items<Bytes>,
    list: &PartList<'_>,
    a: &Places,
) -> Result<(), Memory>
    requires can { CanBeListed list.now }
    requires places { ArePlacesOf list.now a.now }
    requires sizes { All IsStored records.old }
    ensures records { OnOk result (records.new ≡ records.old ++ map rec_bytes (symbol_records list.now)) }
    ensures sizes { OnOk result (All IsStored records.new) }
{
    let items = symbol_items(alloc, list, a)?;
    let bytes = symbols_bytes(alloc, items.as_slice())?;
    put_records(alloc, records, Kind::Symbol, bytes.as_slice())?;
    Ok(())
}

fn symbols_bytes(alloc: Global, items: &[SymbolItem]) -> Result<Vec<u8>, AllocError>
    requires { All IsSymbol items.now }
    ensures { IfOk result (λ bytes. bytes.items ≡ together (map symbol_bytes items.now)) }
{
    let mut bytes = Vec::new(alloc);
    for item in items {
        let mut own = [0; 16];
        put_symbol_item(&mut own, item);
        bytes.extend_from_slice(&own)?;
    }
    Ok(bytes)
}

#[tactic(auto, using(crate::proofs::Recorded::scatter_whole))]
fn put_scatter_list(
    alloc: Global,
    records: &mut Items<Bytes>,
    list: &PartList<'_>,
    a: &Places,
) -> Result<(), Memory>
    requires can { CanBeListed list.now }
    requires places { ArePlacesOf list.now a.now }
    requires sizes { All IsStored records.old }
    ensures records { OnOk result (records.new ≡ records.old ++ map rec_bytes (scatter_records list.now)) }
    ensures sizes { OnOk result (All IsStored records.new) }
{
    let addresses = scatter_bytes(alloc, list, a)?;
    put_records(alloc, records, Kind::Scatter, addresses.as_slice())?;
    let numbers = translation_bytes(alloc, list)?;
    put_records(alloc, records, Kind::Translation, numbers.as_slice())?;
    Ok(())
}

/// The address of each section and table.
fn scatter_bytes(alloc: Global, list: &PartList<'_>, a: &Places) -> Result<Vec<u8>, AllocError>
    requires { ArePlacesOf list.now a.now }
    ensures { IfOk result (λ bytes. bytes.items ≡ together (scatter_items list.now)) }
{
    let mut bytes = Vec::new(alloc);
    for i in 0..list.tree().count() {
        put_addresses(&mut bytes, list, a, list.in_segment(i + 1))?;
    }
    Ok(bytes)
}

fn put_addresses(
    bytes: &mut Vec<u8>,
    list: &PartList<'_>,
    a: &Places,
    parts: &[Part],
) -> Result<(), AllocError>
    requires places { ArePlacesOf list.now a.now }
    requires present { All (λ x. IsPartOf list.now (seen x)) parts.now }
    ensures { OnOk result (bytes.new.items ≡ bytes.old.items
        ++ together (map (λ x. 0 ∷ big_bytes 3 (part_place list.now x)) (map seen parts.now))) }
{
    for part in parts {
        bytes.extend_from_slice(&address_item(list.place_of(a, *part)))?;
    }
    Ok(())
}

fn address_item(address: u32) -> [u8; 4]
    requires { address < 2 ^ 24 }
    ensures { result ≡ 0 ∷ big_bytes 3 address }
{
    let mut item = [0; 4];
    put24(&mut item, 1, address);
    item
}

/// The number of the section of each symbol, 0 where it stands in none.
fn translation_bytes(alloc: Global, list: &PartList<'_>) -> Result<Vec<u8>, AllocError>
    ensures { IfOk result (λ bytes. bytes.items ≡ together (map (big_bytes 2) (translation_numbers list.now))) }
{
    let mut bytes = Vec::new(alloc);
    for i in 0..list.tree().count() {
        put_numbers(&mut bytes, list, list.in_segment(i + 1))?;
    }
    put_label_numbers(&mut bytes, list)?;
    let others = list.program().unresolved.len() + list.program().registers.len();
    put_zeros(&mut bytes, others)?;
    Ok(bytes)
}

fn put_numbers(bytes: &mut Vec<u8>, list: &PartList<'_>, parts: &[Part]) -> Result<(), AllocError>
    requires { All (λ x. IsPartOf list.now (seen x)) parts.now }
    ensures { OnOk result (bytes.new.items ≡ bytes.old.items
        ++ together (map (λ x. big_bytes 2 (part_number list.now x)) (map seen parts.now))) }
{
    for part in parts {
        bytes.extend_from_slice(&number_item(list.number_of(*part)))?;
    }
    Ok(())
}

fn put_label_numbers(bytes: &mut Vec<u8>, list: &PartList<'_>) -> Result<(), AllocError>
    ensures { OnOk result (bytes.new.items ≡ bytes.old.items
        ++ together (map (λ (x : Label). big_bytes 2 (part_number list.now (OneSection x.section))) list.now.program.labels)) }
{
    for label in list.program().labels.as_slice() {
        let section = Part::Section(label.section);
        bytes.extend_from_slice(&number_item(list.number_of(section)))?;
    }
    Ok(())
}

fn put_zeros(bytes: &mut Vec<u8>, count: usize) -> Result<(), AllocError>
    ensures { OnOk result (bytes.new.items ≡ bytes.old.items ++ together (map (big_bytes 2) (replicate count 0))) }
{
    for _ in 0..count {
        bytes.extend_from_slice(&number_item(0))?;
    }
    Ok(())
}

fn number_item(number: u16) -> [u8; 2]
    ensures { result ≡ big_bytes 2 number }
{
    let mut item = [0; 2];
    put16(&mut item, 0, number as u32);
    item
}
