//! The walk itself.
ghost use Rattle.std.specs.Prelude.{◌≡◌, ◌++◌, ◌∷◌, [], List, ℕ, Bool, map, OnOk, OnErr, IfOk, IfErr};
ghost use Rattle.pds_directory.specs.declared.entry.Entry.{Entry as DirectoryEntry};
ghost use Rattle.member_model.specs.Faults.{is_incomplete};
ghost use Rattle.member_model.specs.FirstBad.{first_bad_of};
ghost use Rattle.member_model.specs.Symbols.{symbol_at};
ghost use Rattle.member_walk.specs.Fields.{field_of};
ghost use Rattle.member_walk.specs.Walked.{walked_of, IsWalked};
ghost use Rattle.member_walk.specs.Steps.{head_bad, end_bad, Steps};
ghost use Rattle.member_walk.specs.Told.{text_told, fault_told, IsFirstFault, is_fetched_on, is_fetched_whole};

use crate::faults::WalkFault;
use crate::fields::SegmentField;
use crate::gathered::Gathered;
use crate::parts::{TextPlace, WalkParts};
use le_bytes::RecWhat;
use load_recs::{NoteItem, SymbolItem, TextHead};
use member_checks::{Refused, begins_with_symbols, head_of};
use pds_lib::Entry;
use std::alloc::Global;
use std::marker::Model;
use std::mem;

/// The most records that are walked.
const MOST_RECORDS: u32 = u32::MAX - 1;

/// A walk over the records of a member from its first record on. It keeps what they hold but their
/// text. Contracts see what records gave it, of which `IsWalked` says that none has a fault.
#[derive(Drop)]
pub struct Walk {
    gathered: Gathered,
    number: u32,
    in_head: bool,
}

impl Model for Walk {
    ghost use Rattle.std.specs.Prelude.{◌≤◌, ◌+◌, ◌^◌};
    ghost use Rattle.member_walk.specs.Walked.{Walked};

    ghost Value = { Walked };

    ghost view = { λ w. record { facts = w.gathered; number = w.number; in_head = w.in_head } };

    ghost invariant = { λ w. (w.number + 2 ≤ 2 ^ 32) × (w.gathered.segment ≤ w.number + 1) };
}

impl Walk {
    /// A walk before the first record. Takes no memory.
    #[tactic(auto, using(crate::proofs::Walking::starts))]
    pub fn new(alloc: Global) -> Walk
        ensures value { result ≡ walked_of [] }
        ensures walked { (e : DirectoryEntry) → IsWalked e [] result }
    {
        Walk::at_start(alloc)
    }

    #[tactic(auto, unfolding(member_model::specs::Facts::facts))]
    fn at_start(alloc: Global) -> Walk
        ensures { result ≡ walked_of [] }
    {
        Walk {
            gathered: Gathered::new(alloc),
            number: 0,
            in_head: true,
        }
    }

    /// Takes the next record of the member with this entry, and tells where its text lies if it is
    /// text. Linear in the record's items, but for look-ups in maps. After an error the walk is as new.
    ///
    /// # Errors
    /// The first fault of the member, whatever records come after this one. Want of memory, as also
    /// after 4,294,967,294 records.
    pub fn next(
        &mut self,
        alloc: Global,
        e: &Entry,
        bytes: &[u8],
    ) -> Result<Option<TextPlace>, WalkFault>
        ensures walked { OnOk result ((records : List (List ℕ)) → IsWalked e.now records self.old → IsWalked e.now (records ++ bytes.now ∷ []) self.new) }
        ensures told { IfOk result (λ told. told ≡ text_told self.old) }
        ensures fault { IfErr result (λ fault. IsFirstFault e.now self.old bytes.now fault) }
        ensures anew { OnErr result (self.new ≡ walked_of []) }
    {
        let told = self.text_told();
        let walk = mem::replace(self, Walk::at_start(alloc));
        match walk.after(e, bytes) {
            Ok(next) => {
                *self = next;
                Ok(told)
            }
            Err(fault) => Err(fault),
        }
    }

    fn text_told(&self) -> Option<TextPlace>
        ensures { result ≡ text_told self.now }
    {
        let text = self.gathered.due()?;
        Some(TextPlace {
            segment: self.gathered.segment(),
            section: text.section,
            address: text.address,
        })
    }

    /// The fault of the entry point, or of the first record, where the symbol records end before this
    /// record.
    #[tactic(auto, unfolding(crate::specs::Steps::head_bad))]
    fn head_fault(&self, e: &Entry, bytes: &[u8]) -> Option<(u32, RecWhat)>
        ensures { result ≡ head_bad e.now self.now bytes.now }
    {
        if !self.in_head || begins_with_symbols(bytes) {
            return None;
        }
        if self.number == 0
            && let Err(what) = head_of(bytes)
        {
            return Some((1, what));
        }
        if self.gathered.enters(e) {
            return None;
        }
        Some((0, RecWhat::BadEntryPoint))
    }

    /// The walk after one more record.
    #[tactic(auto, using(crate::proofs::Textless::segment_reach), unfolding(crate::specs::Steps::step_bad, crate::specs::Steps::stepped))]
    fn after(self, e: &Entry, bytes: &[u8]) -> Result<Walk, WalkFault>
        ensures { Steps e.now self bytes.now result }
    {
        if let Some((number, what)) = self.head_fault(e, bytes) {
            return Err(WalkFault::At(number, what));
        }
        let Walk {
            gathered,
            number,
            in_head,
        } = self;
        if number == MOST_RECORDS {
            return Err(WalkFault::Memory);
        }
        match gathered.after(e, bytes) {
            Ok(gathered) => Ok(Walk {
                gathered,
                number: number + 1,
                in_head: in_head && begins_with_symbols(bytes),
            }),
            Err(Refused::What(what)) => Err(WalkFault::At(number + 1, what)),
            Err(Refused::Memory) => Err(WalkFault::Memory),
        }
    }

    /// Whether the records that were walked make up what had to come, which `is_whole` says: that the
    /// module has ended, or of the part of an overlay member that a fetch reads that segment 1 has.
    ///
    /// # Errors
    /// The first fault: number 0 and BadEntryPoint where no record came but symbol records, and these
    /// give no section for the entry point; else the number after the last record, and NoEnd.
    #[tactic(auto, using(crate::proofs::Walking::ends))]
    pub fn finish(&self, e: &Entry, is_whole: bool) -> Result<(), (u32, RecWhat)>
        ensures { (records : List (List ℕ)) → IsWalked e.now records self.now → fault_told result ≡ first_bad_of e.now records is_whole }
    {
        self.judge_end(e, is_whole)
    }

    #[tactic(auto, unfolding(crate::specs::Steps::end_bad))]
    fn judge_end(&self, e: &Entry, is_whole: bool) -> Result<(), (u32, RecWhat)>
        ensures { fault_told result ≡ end_bad e.now self.now is_whole }
    {
        if self.in_head && !self.gathered.enters(e) {
            return Err((0, RecWhat::BadEntryPoint));
        }
        if !is_whole {
            return Err((self.number + 1, RecWhat::NoEnd));
        }
        Ok(())
    }

    /// The symbol items, which count from 1.
    pub fn symbols(&self) -> &[SymbolItem]
        ensures { result.now ≡ self.now.facts.symbols }
    {
        self.gathered.symbols()
    }

    /// Symbol item `n`, from 1.
    pub fn symbol(&self, n: u32) -> Option<SymbolItem>
        ensures { result ≡ symbol_at self.now.facts.symbols n }
    {
        self.gathered.symbol(n)
    }

    /// The note items of segments 1, 2 and so on.
    pub fn notes(&self) -> &[NoteItem]
        ensures { result.now ≡ self.now.facts.notes }
    {
        self.gathered.notes()
    }

    /// The relocation items.
    pub fn fields(&self) -> &[SegmentField]
        ensures { map field_of result.now ≡ self.now.facts.fields }
    {
        self.gathered.fields()
    }

    /// The number of the segment that goes on, from 1, or the number after the last.
    pub fn segment(&self) -> u32
        ensures { result ≡ self.now.facts.segment }
    {
        self.gathered.segment()
    }

    /// Whether the module has ended.
    pub fn ended(&self) -> bool
        ensures { result ≡ self.now.facts.ended }
    {
        self.gathered.ended()
    }

    /// Whether scatter or translation items are still to come.
    pub fn is_incomplete(&self) -> bool
        ensures { result ≡ is_incomplete self.now.facts }
    {
        self.gathered.is_incomplete()
    }

    /// What the next record is, if it is text.
    pub fn due(&self) -> Option<TextHead>
        ensures { result ≡ self.now.facts.due }
    {
        self.gathered.due()
    }

    /// How many records have been walked.
    pub fn number(&self) -> u32
        ensures { result ≡ self.now.number }
    {
        self.number
    }

    /// Whether a fetch reads the next record too: always, unless segment 1 of an overlay member has
    /// ended.
    pub fn is_fetched_on(&self, e: &Entry) -> bool
        ensures { result ≡ is_fetched_on e.now self.now }
    {
        !e.is_overlay() || self.gathered.segment() == 1
    }

    /// Whether what a fetch has to read has come: of an overlay member segment 1, of any other member
    /// all.
    pub fn is_fetched_whole(&self, e: &Entry) -> bool
        ensures { result ≡ is_fetched_whole e.now self.now }
    {
        if e.is_overlay() {
            self.gathered.segment() > 1
        } else {
            self.gathered.ended()
        }
    }

    /// What was kept, none of it copied.
    pub fn into_parts(self) -> WalkParts
        ensures symbols { result.symbols.items ≡ self.facts.symbols }
        ensures notes { result.notes.items ≡ self.facts.notes }
        ensures fields { map field_of result.fields.items ≡ self.facts.fields }
    {
        self.gathered.into_parts()
    }
}
