//! The terms of the address constants of a deck, found by the bytes of their fields.
ghost use Rattle.std.specs.Prelude.{◌≡◌, ◌+◌, ◌++◌, ◌∷◌, [], find, true, false, IfOk, OnOk};
ghost use Rattle.std.specs.List.{list_any};
ghost use Rattle.obj_read.specs.Covered.{IsCovered, CoversByte, CoversBytes, touches};
ghost use Rattle.obj_read.specs.Faults.{covers};
ghost use Rattle.obj_read.specs.Flags.{length_of_flag};

use crate::few::FEW;
use crate::flags::length_of;
use obj_cards::CardRld;
use smallvec::SmallVec;
use std::alloc::{AllocError, Global};
use std::collections::HashMap;
use std::marker::Model;

/// A byte of a section, by the section's ESDID and the assembled address.
#[derive(Clone, Copy, Debug, PartialEq, Eq, Hash)]
pub struct BytePlace {
    pub section: u32,
    pub byte: u64,
}

/// The terms in order, of which up to four take no memory of their own. Contracts see the list.
#[derive(Drop)]
pub struct Terms {
    terms: SmallVec<CardRld, 4>,
    /// The first term whose field a byte stands in. There is no map while the terms are few.
    covered: Option<HashMap<BytePlace, CardRld>>,
}

impl Model for Terms {
    ghost use Rattle.std.specs.Prelude.{List};
    ghost use Rattle.obj_cards.specs.declared.card.CardRld.{CardRld};
    ghost use Rattle.obj_read.specs.Covered.{IsCoveredIfMany};

    ghost Value = { List CardRld };

    ghost view = { λ t. t.terms.items };

    ghost invariant = { λ t. IsCoveredIfMany t.terms.items t.covered };
}

impl Terms {
    /// No terms. Takes no memory.
    pub fn new(alloc: Global) -> Terms
        ensures { result ≡ [] }
    {
        Terms {
            terms: SmallVec::new(alloc),
            covered: None,
        }
    }

    /// Puts a term at the end.
    ///
    /// # Errors
    /// Want of memory.
    pub fn push(&mut self, term: CardRld) -> Result<(), AllocError>
        ensures { OnOk result (self.new ≡ self.old ++ term ∷ []) }
    {
        if self.covered.is_some() {
            return self.push_covered(term);
        }
        self.terms.push(term)?;
        if self.terms.len() > FEW {
            self.map()?;
        }
        Ok(())
    }

    /// Puts a term at the end, and the bytes of its field into the map.
    fn push_covered(&mut self, term: CardRld) -> Result<(), AllocError>
        ensures { OnOk result (self.new ≡ self.old ++ term ∷ []) }
    {
        let covered = self.covered.take();
        self.terms.push(term)?;
        if let Some(covered) = covered {
            self.covered = Some(with_field(covered, &term)?);
        }
        Ok(())
    }

    /// Makes the map of the terms.
    fn map(&mut self) -> Result<(), AllocError>
        ensures { OnOk result (self.new ≡ self.old) }
    {
        let covered = covered_by(*self.terms.allocator(), self.terms.as_slice())?;
        self.covered = Some(covered);
        Ok(())
    }

    /// The first term in whose field a byte stands.
    pub fn covering(&self, section: u32, byte: u64) -> Option<CardRld>
        ensures { result ≡ find (covers section byte) self.now }
    {
        match &self.covered {
            Some(covered) => covered.get(&BytePlace { section, byte }).copied(),
            None => first_covering(self.terms.as_slice(), section, byte),
        }
    }

    /// Whether the terms are few and none has a byte of its field in that of `f`.
    pub fn lie_apart(&self, f: &CardRld) -> bool
        ensures { result ≡ true → list_any (touches f.now) self.now ≡ false }
    {
        self.covered.is_none() && !touch(self.terms.as_slice(), f)
    }

    /// The terms, in order.
    pub fn as_slice(&self) -> &[CardRld]
        ensures { result.now ≡ self.now }
    {
        self.terms.as_slice()
    }
}

/// The first of the terms in whose field a byte stands.
fn first_covering(terms: &[CardRld], section: u32, byte: u64) -> Option<CardRld>
    ensures { result ≡ find (covers section byte) terms.now }
{
    for f in terms {
        if covers(f, section, byte) {
            return Some(*f);
        }
    }
    None
}

/// Whether one of the terms has a byte of its field in that of `f`.
fn touch(terms: &[CardRld], f: &CardRld) -> bool
    ensures { result ≡ list_any (touches f.now) terms.now }
{
    terms.iter().any(|g| touches(f, g))
}

/// Whether the fields of both terms share a byte.
fn touches(f: &CardRld, g: &CardRld) -> bool
    ensures { result ≡ touches f.now g.now }
{
    f.p == g.p && u64::from(g.address) < end_of(f) && u64::from(f.address) < end_of(g)
}

/// The address behind the field of the term.
fn end_of(f: &CardRld) -> u64
    ensures { result ≡ f.now.address + length_of_flag f.now.flag }
{
    u64::from(f.address) + u64::from(length_of(f))
}

/// Whether the byte of the section stands in the field of the term.
fn covers(f: &CardRld, section: u32, byte: u64) -> bool
    ensures { result ≡ covers section byte f.now }
{
    let from = u64::from(f.address);
    f.p == section && from <= byte && byte < from + u64::from(length_of(f))
}

/// The map of the terms.
fn covered_by(alloc: Global, terms: &[CardRld]) -> Result<HashMap<BytePlace, CardRld>, AllocError>
    ensures { IfOk result (IsCovered terms.now) }
{
    let mut covered = HashMap::new(alloc);
    for k in 0..terms.len() {
        covered = with_field(covered, &terms[k])?;
    }
    Ok(covered)
}

/// The map with the term at each byte of its field where it has none.
fn with_field(
    covered: HashMap<BytePlace, CardRld>,
    term: &CardRld,
) -> Result<HashMap<BytePlace, CardRld>, AllocError>
    ensures { IfOk result (λ more. CoversBytes covered more term.now (length_of_flag term.now.flag)) }
{
    let mut covered = covered;
    for i in 0..u64::from(length_of(term)) {
        let place = BytePlace {
            section: term.p,
            byte: u64::from(term.address) + i,
        };
        covered = with_byte(covered, place, term)?;
    }
    Ok(covered)
}

fn with_byte(
    covered: HashMap<BytePlace, CardRld>,
    place: BytePlace,
    term: &CardRld,
) -> Result<HashMap<BytePlace, CardRld>, AllocError>
    ensures { IfOk result (λ more. CoversByte covered more place term.now) }
{
    let mut covered = covered;
    if covered.contains_key(&place) {
        return Ok(covered);
    }
    covered.insert(place, *term)?;
    Ok(covered)
}
