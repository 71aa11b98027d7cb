//! The address constants that terms make, one for each place.
ghost use Rattle.std.specs.Prelude.{◌≡◌, ◌+◌, ◌<◌, ◌^◌, ◌∷◌, [], length, map, filter, take, IfOk};
ghost use Rattle.std.specs.List.{list_any};
ghost use Rattle.obj_read.specs.Flags.{kind_of_flag};
ghost use Rattle.obj_read.specs.Module.{same_place, term, target_of, base_for, constant, leaders, constants};
ghost use Rattle.obj_read.specs.Placed.{IsGathered, IsJoined, HasNumber};

use crate::building::origin_of;
use crate::dictionary::Dictionary;
use crate::few::FEW;
use crate::flags::{is_minus, kind_of, length_of};
use crate::terms::BytePlace;
use le_bytes::Items;
use obj_cards::CardRld;
use std::alloc::{AllocError, Global};
use std::collections::HashMap;
use sym_mod::{Kind, SymConst, SymTarget, SymTerm, Terms};

/// The constants of the terms so far, and the number of each by its place.
#[derive(Drop)]
struct Gathered {
    constants: Vec<SymConst>,
    numbers: HashMap<BytePlace, usize>,
}

/// The constants in the order of their first terms, each with its terms in order.
///
/// # Errors
/// Want of memory.
pub fn constants(
    alloc: Global,
    items: &Dictionary,
    terms: &[CardRld],
) -> Result<Items<SymConst>, AllocError>
    requires { length items.now < 2 ^ 32 }
    ensures { IfOk result (λ made. made ≡ constants items.now terms.now) }
{
    if terms.len() <= FEW {
        few_constants(alloc, items, terms)
    } else {
        many_constants(alloc, items, terms)
    }
}

/// The constants of few terms: one for each term with no other before it at its place.
fn few_constants(
    alloc: Global,
    items: &Dictionary,
    terms: &[CardRld],
) -> Result<Items<SymConst>, AllocError>
    requires { length items.now < 2 ^ 32 }
    ensures { IfOk result (λ made. made ≡ constants items.now terms.now) }
{
    let mut made = Vec::with_capacity(alloc, terms.len())?;
    for k in 0..terms.len() {
        made = with_constant(alloc, items, terms, k, made)?;
    }
    Ok(Items::from_vec(made))
}

/// The constants whose first terms are among the first `k`, and that of term `k` if it is a first.
fn with_constant(
    alloc: Global,
    items: &Dictionary,
    terms: &[CardRld],
    k: usize,
    made: Vec<SymConst>,
) -> Result<Vec<SymConst>, AllocError>
    requires few { length items.now < 2 ^ 32 }
    requires within { k < length terms.now }
    requires before { made.items ≡ map (constant items.now terms.now) (leaders [] (take k terms.now)) }
    ensures { IfOk result (λ more. more.items ≡ map (constant items.now terms.now) (leaders [] (take (k + 1) terms.now))) }
{
    let mut made = made;
    if has_place(&terms[..k], &terms[k]) {
        return Ok(made);
    }
    made.push(constant(alloc, items, terms, &terms[k])?)?;
    Ok(made)
}

/// Whether one of the terms has the place of `f`.
fn has_place(terms: &[CardRld], f: &CardRld) -> bool
    ensures { result ≡ list_any (same_place f.now) terms.now }
{
    terms.iter().any(|g| is_same_place(f, g))
}

fn is_same_place(f: &CardRld, g: &CardRld) -> bool
    ensures { result ≡ same_place f.now g.now }
{
    f.p == g.p && f.address == g.address
}

/// The constant at the place of `f`, with all terms of that place.
fn constant(
    alloc: Global,
    items: &Dictionary,
    terms: &[CardRld],
    f: &CardRld,
) -> Result<SymConst, AllocError>
    requires { length items.now < 2 ^ 32 }
    ensures { IfOk result (λ made. made ≡ constant items.now terms.now f.now) }
{
    Ok(constant_of(items, f, terms_at(alloc, items, terms, f)?))
}

/// The terms of a constant: those at the place of `f`.
fn terms_at(
    alloc: Global,
    items: &Dictionary,
    terms: &[CardRld],
    f: &CardRld,
) -> Result<Terms<SymTerm>, AllocError>
    requires { length items.now < 2 ^ 32 }
    ensures { IfOk result (λ made. made ≡ map (term items.now) (filter (same_place f.now) terms.now)) }
{
    let mut made = Terms::new(alloc);
    for g in terms {
        if is_same_place(f, g) {
            made.push(term(items, g))?;
        }
    }
    Ok(made)
}

/// The constants of terms however many: the constant of each place is found by a map.
fn many_constants(
    alloc: Global,
    items: &Dictionary,
    terms: &[CardRld],
) -> Result<Items<SymConst>, AllocError>
    requires { length items.now < 2 ^ 32 }
    ensures { IfOk result (λ made. made ≡ constants items.now terms.now) }
{
    let mut gathered = Gathered {
        constants: Vec::with_capacity(alloc, terms.len())?,
        numbers: HashMap::new(alloc),
    };
    for k in 0..terms.len() {
        gathered = with_term(alloc, items, terms, k, gathered)?;
    }
    let Gathered {
        constants,
        numbers: _,
    } = gathered;
    Ok(Items::from_vec(constants))
}

/// The constants of the first `k` terms with term `k`.
fn with_term(
    alloc: Global,
    items: &Dictionary,
    terms: &[CardRld],
    k: usize,
    gathered: Gathered,
) -> Result<Gathered, AllocError>
    requires few { length items.now < 2 ^ 32 }
    requires within { k < length terms.now }
    requires before { IsGathered items.now (take k terms.now) gathered }
    ensures { IfOk result (IsGathered items.now (take (k + 1) terms.now)) }
{
    let Gathered { constants, numbers } = gathered;
    let f = terms[k];
    let place = BytePlace {
        section: f.p,
        byte: u64::from(f.address),
    };
    match numbers.get(&place).copied() {
        Some(number) => {
            let constants = joined(constants, number, term(items, &f))?;
            Ok(Gathered { constants, numbers })
        }
        None => {
            let numbers = with_number(numbers, place, constants.len())?;
            let mut constants = constants;
            constants.push(alone(alloc, items, &f)?)?;
            Ok(Gathered { constants, numbers })
        }
    }
}

/// The constants, one of them with one more term.
fn joined(
    constants: Vec<SymConst>,
    number: usize,
    term: SymTerm,
) -> Result<Vec<SymConst>, AllocError>
    requires { number < length constants.items }
    ensures { IfOk result (λ more. IsJoined constants.items more.items number term) }
{
    let mut constants = constants;
    constants[number].terms.push(term)?;
    Ok(constants)
}

/// The constant of a term that is alone at its place.
fn alone(alloc: Global, items: &Dictionary, f: &CardRld) -> Result<SymConst, AllocError>
    requires { length items.now < 2 ^ 32 }
    ensures { IfOk result (λ made. made ≡ constant items.now (f.now ∷ []) f.now) }
{
    let mut terms = Terms::new(alloc);
    terms.push(term(items, f))?;
    Ok(constant_of(items, f, terms))
}

/// The constant at the place of `f` with the terms that are given.
fn constant_of(items: &Dictionary, f: &CardRld, terms: Terms<SymTerm>) -> SymConst
    requires { length items.now < 2 ^ 32 }
    ensures { result ≡ record (constant items.now [] f.now) { terms = terms } }
{
    let section = origin_of(items, f.p);
    SymConst {
        item: section.number,
        offset: f.address.saturating_sub(section.base),
        length: length_of(f),
        kind: kind_of(f),
        terms,
    }
}

fn with_number(
    numbers: HashMap<BytePlace, usize>,
    place: BytePlace,
    number: usize,
) -> Result<HashMap<BytePlace, usize>, AllocError>
    ensures { IfOk result (λ more. HasNumber numbers more place number) }
{
    let mut numbers = numbers;
    if numbers.contains_key(&place) {
        return Ok(numbers);
    }
    numbers.insert(place, number)?;
    Ok(numbers)
}

fn term(items: &Dictionary, f: &CardRld) -> SymTerm
    requires { length items.now < 2 ^ 32 }
    ensures { result ≡ term items.now f.now }
{
    let (target, base) = target_of(items, f);
    SymTerm {
        minus: is_minus(f),
        target,
        base,
    }
}

/// What a term refers to, and the target's assembled address.
fn target_of(items: &Dictionary, f: &CardRld) -> (SymTarget, u32)
    requires { length items.now < 2 ^ 32 }
    ensures { result ≡ (target_of items.now f.now (kind_of_flag f.now.flag), base_for items.now f.now (kind_of_flag f.now.flag)) }
{
    match kind_of(f) {
        Kind::Address | Kind::Branch => {
            let target = origin_of(items, f.r);
            (SymTarget::Own(target.number), target.base)
        }
        Kind::Displacement => match items.find(f.r) {
            Some(found) => (SymTarget::Register(found.item.item.name), 0),
            None => (SymTarget::Total, 0),
        },
        Kind::Total => (SymTarget::Total, 0),
    }
}
