//! The constants of the module, one for each field of a section that is kept.
ghost use Rattle.std.specs.Prelude.{◌≡◌, ◌+◌, ◌<◌, ◌∷◌, [], length, take, IfOk};
ghost use Rattle.member_model.specs.ReadBack.{constant_of};
ghost use Rattle.member_walk.specs.Fields.{items_of};
ghost use Rattle.mod_read.specs.Gathered.{holding, kept_among, constants_in};
ghost use Rattle.mod_read.specs.Placed.{IsGathered, IsJoined, HasNumber};

use crate::numbering::Numbering;
use crate::terms::{kind_of, term_of};
use le_bytes::Items;
use load_recs::RldItem;
use member_walk::SegmentField;
use std::alloc::{AllocError, Global};
use std::collections::HashMap;
use sym_mod::{SymConst, SymTerm, Terms};

/// Where a field begins.
#[derive(Clone, Copy, Debug, PartialEq, Eq, Hash)]
pub(crate) struct FieldPlace {
    /// The item number of the section, from 1.
    section: u32,
    /// The address in the member.
    address: u32,
}

/// The constants of the relocation items so far, and the number of each by its field.
#[derive(Drop)]
struct Gathered {
    constants: Vec<SymConst>,
    numbers: HashMap<FieldPlace, usize>,
}

/// The constants of the module, in the order of their first items. Linear in the items, but for
/// look-ups in a map.
///
/// # Errors
/// Out of memory.
pub(crate) fn constants(
    alloc: Global,
    numbering: &Numbering,
    fields: &[SegmentField],
) -> Result<Items<SymConst>, AllocError>
    ensures { IfOk result (λ made. made ≡ constants_in numbering.now (kept_among numbering.now (items_of fields.now))) }
{
    let items = kept_items(alloc, numbering, fields)?;
    constants_of(alloc, numbering, items.as_slice())
}

/// The relocation items whose sections are kept.
fn kept_items(
    alloc: Global,
    numbering: &Numbering,
    fields: &[SegmentField],
) -> Result<Vec<RldItem>, AllocError>
    ensures { IfOk result (λ items. items.items ≡ kept_among numbering.now (items_of fields.now)) }
{
    let mut items = Vec::new(alloc);
    for field in fields {
        if numbering.is_kept_at(field.item.p) {
            items.push(field.item)?;
        }
    }
    Ok(items)
}

/// A constant for each field of these items.
fn constants_of(
    alloc: Global,
    numbering: &Numbering,
    items: &[RldItem],
) -> Result<Items<SymConst>, AllocError>
    ensures { IfOk result (λ made. made ≡ constants_in numbering.now items.now) }
{
    let mut gathered = Gathered {
        constants: Vec::new(alloc),
        numbers: HashMap::new(alloc),
    };
    for k in 0..items.len() {
        gathered = with_item(alloc, numbering, items, k, gathered)?;
    }
    let Gathered {
        constants,
        numbers: _,
    } = gathered;
    Ok(Items::from_vec(constants))
}

/// The constants of the first `k` items with item `k`.
fn with_item(
    alloc: Global,
    numbering: &Numbering,
    items: &[RldItem],
    k: usize,
    gathered: Gathered,
) -> Result<Gathered, AllocError>
    requires within { k < length items.now }
    requires before { IsGathered numbering.now (take k items.now) gathered }
    ensures { IfOk result (IsGathered numbering.now (take (k + 1) items.now)) }
{
    let Gathered { constants, numbers } = gathered;
    let x = items[k];
    let place = FieldPlace {
        section: x.p,
        address: x.address,
    };
    match numbers.get(&place).copied() {
        Some(number) => {
            let constants = joined(constants, number, term_of(numbering, &x))?;
            Ok(Gathered { constants, numbers })
        }
        None => {
            let numbers = with_number(numbers, place, constants.len())?;
            let mut constants = constants;
            constants.push(alone(alloc, numbering, &x)?)?;
            Ok(Gathered { constants, numbers })
        }
    }
}

/// The constants, one of them with one more term.
fn joined(
    constants: Vec<SymConst>,
    number: usize,
    term: SymTerm,
) -> Result<Vec<SymConst>, AllocError>
    requires { number < length constants.items }
    ensures { IfOk result (λ more. IsJoined constants.items more.items number term) }
{
    let mut constants = constants;
    constants[number].terms.push(term)?;
    Ok(constants)
}

/// The constant of an item that is alone at its field.
fn alone(alloc: Global, numbering: &Numbering, x: &RldItem) -> Result<SymConst, AllocError>
    ensures { IfOk result (λ made. made ≡ constant_of (holding numbering.now [] []) (x.now ∷ []) x.now) }
{
    let mut terms = Terms::new(alloc);
    terms.push(term_of(numbering, x))?;
    Ok(constant_of(numbering, x, terms))
}

/// The constant of the field of `x` with the terms that are given.
fn constant_of(numbering: &Numbering, x: &RldItem, terms: Terms<SymTerm>) -> SymConst
    ensures { result ≡ record (constant_of (holding numbering.now [] []) [] x.now) { terms = terms } }
{
    SymConst {
        item: numbering.number(x.p),
        offset: x.address.saturating_sub(numbering.address(x.p)),
        length: x.field_length(),
        kind: kind_of(x),
        terms,
    }
}

/// The numbers with that of a place, unless there is one.
fn with_number(
    numbers: HashMap<FieldPlace, usize>,
    place: FieldPlace,
    number: usize,
) -> Result<HashMap<FieldPlace, usize>, AllocError>
    ensures { IfOk result (λ more. HasNumber numbers more place number) }
{
    let mut numbers = numbers;
    if numbers.contains_key(&place) {
        return Ok(numbers);
    }
    let _ = numbers.insert(place, number)?;
    Ok(numbers)
}
