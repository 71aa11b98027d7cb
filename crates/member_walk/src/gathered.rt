//! What the records of a member held so far.
ghost use Rattle.std.specs.Prelude.{◌≡◌, ◌<◌, ◌≤◌, ◌+◌, ◌^◌, ◌||◌, ◌==◌, not, nat_lt, length, map, Some, None, false};
ghost use Rattle.std.specs.Option.{option_map_or, option_or};
ghost use Rattle.load_recs.specs.Records.{SymbolRecord, ScatterRecord, TranslationRecord, NoteRecord, ControlRecord, RldRecord, ControlRldRecord, record_of};
ghost use Rattle.le_bytes.specs.declared.record_what.RecWhat.TheVariants.{BadLength, BadOrder};
ghost use Rattle.load_recs.specs.Relocations.{rlds_of};
ghost use Rattle.member_model.specs.Symbols.{symbol_at};
ghost use Rattle.member_model.specs.Facts.{no_facts, stage_of, ended_by, with_fields, with_contents, with_record, seen};
ghost use Rattle.member_model.specs.Faults.{is_asked, when, lacks_scatter, is_incomplete, segment_count, ends_wrongly, fields_fault, segment_fault, kind_fault, fault_with, fault};
ghost use Rattle.member_model.specs.FirstBad.{is_entry_section};
ghost use Rattle.member_walk.specs.Walked.{without_texts};
ghost use Rattle.member_walk.specs.Fields.{field_of};
ghost use Rattle.member_walk.specs.Segments.{start_fault};
ghost use Rattle.member_checks.specs.Heads.{HasFewItems};
ghost use Rattle.member_checks.specs.Kept.{Keeps};

use crate::fields::{Fields, SegmentField};
use crate::parts::WalkParts;
use le_bytes::{Items, RecWhat};
use load_recs::{Ends, NoteItem, Rec, SymbolItem, TextHead};
use member_checks::{
    Refused, Stage, Symbols, end_of, head_of, is_asked, scattered_after, stage_of, text_fault,
    translated_after, with_notes,
};
use pds_lib::Entry;
use std::alloc::Global;
use std::marker::Model;

/// The items of the records so far, and what may come next.
#[derive(Drop)]
pub(crate) struct Gathered {
    symbols: Symbols,
    /// How many scatter and translation items came.
    scattered: usize,
    translated: usize,
    notes: Items<NoteItem>,
    fields: Fields,
    /// The kind of the last record but text.
    stage: Stage,
    /// The number of the segment that goes on, from 1.
    segment: u32,
    /// The text that is due, and what ends after it.
    due: Option<TextHead>,
    ends: Ends,
    /// The module has ended.
    ended: bool,
}

impl Model for Gathered {
    ghost use Rattle.std.specs.Prelude.{[], map};
    ghost use Rattle.member_model.specs.Facts.{Facts};
    ghost use Rattle.member_walk.specs.Fields.{field_of};
    ghost use Rattle.member_checks.specs.Stages.{place_of};

    ghost Value = { Facts };

    ghost view = { λ w. record {
      symbols = w.symbols;
      scattered = w.scattered;
      translated = w.translated;
      notes = w.notes;
      texts = [];
      fields = map field_of w.fields;
      stage = place_of w.stage;
      segment = w.segment;
      due = w.due;
      ends = w.ends;
      ended = w.ended;
    } };
}

impl Gathered {
    /// Nothing yet. Takes no memory.
    pub(crate) fn new(alloc: Global) -> Gathered
        ensures { result ≡ no_facts }
    {
        Gathered {
            symbols: Symbols::new(alloc),
            scattered: 0,
            translated: 0,
            notes: Items::new(alloc),
            fields: Fields::new(alloc),
            stage: Stage::Symbols,
            segment: 1,
            due: None,
            ends: Ends {
                segment: false,
                module: false,
            },
            ended: false,
        }
    }

    pub(crate) fn symbols(&self) -> &[SymbolItem]
        ensures { result.now ≡ self.now.symbols }
    {
        self.symbols.as_slice()
    }

    pub(crate) fn symbol(&self, n: u32) -> Option<SymbolItem>
        ensures { result ≡ symbol_at self.now.symbols n }
    {
        self.symbols.at(n)
    }

    pub(crate) fn notes(&self) -> &[NoteItem]
        ensures { result.now ≡ self.now.notes }
    {
        self.notes.as_slice()
    }

    pub(crate) fn fields(&self) -> &[SegmentField]
        ensures { map field_of result.now ≡ self.now.fields }
    {
        self.fields.as_slice()
    }

    pub(crate) fn segment(&self) -> u32
        ensures { result ≡ self.now.segment }
    {
        self.segment
    }

    pub(crate) fn ended(&self) -> bool
        ensures { result ≡ self.now.ended }
    {
        self.ended
    }

    pub(crate) fn due(&self) -> Option<TextHead>
        ensures { result ≡ self.now.due }
    {
        self.due
    }

    pub(crate) fn into_parts(self) -> WalkParts
        ensures symbols { result.symbols.items ≡ self.symbols }
        ensures notes { result.notes.items ≡ self.notes }
        ensures fields { map field_of result.fields.items ≡ self.fields }
    {
        WalkParts {
            symbols: self.symbols.into_vec(),
            notes: self.notes.into_vec(),
            fields: self.fields.into_vec(),
        }
    }

    /// Whether the entry point lies in a section of segment 1, or at its end.
    pub(crate) fn enters(&self, e: &Entry) -> bool
        ensures { result ≡ option_map_or (is_entry_section e.now) (symbol_at self.now.symbols e.now.entry_section) false }
    {
        match self.symbols.at(u32::from(e.entry_section)) {
            Some(x) => is_entry_section(e, &x),
            None => false,
        }
    }

    fn with_symbols(self, e: &Entry, first: u32, items: &[u8]) -> Result<Gathered, Refused>
        requires { length items.now ≤ 240 }
        ensures { Keeps (kind_fault e.now self (SymbolRecord first items.now)) (with_contents self (SymbolRecord first items.now)) result }
    {
        if !comes_next(first, self.symbols.as_slice().len()) {
            return Err(Refused::What(RecWhat::BadEsdid));
        }
        Ok(Gathered {
            symbols: self.symbols.with_items(e, items)?,
            stage: Stage::Symbols,
            ..self
        })
    }

    #[tactic(auto, unfolding(member_checks::specs::Symbols::addresses_of, member_checks::specs::Matching::count_after))]
    fn with_scatter(self, e: &Entry, first: u32, items: &[u8]) -> Result<Gathered, Refused>
        requires { length items.now ≤ 240 }
        ensures { Keeps (kind_fault e.now self (ScatterRecord first items.now)) (with_contents self (ScatterRecord first items.now)) result }
    {
        if !comes_next(first, self.scattered) {
            return Err(Refused::What(RecWhat::BadScatter));
        }
        match scattered_after(self.symbols.addresses(), self.scattered, items) {
            Some(scattered) => Ok(Gathered {
                scattered,
                stage: Stage::Scatter,
                ..self
            }),
            None => Err(Refused::What(RecWhat::BadScatter)),
        }
    }

    #[tactic(auto, unfolding(member_checks::specs::Symbols::numbers_of, member_checks::specs::Matching::count_after))]
    fn with_translation(self, e: &Entry, first: u32, items: &[u8]) -> Result<Gathered, Refused>
        requires { length items.now ≤ 240 }
        ensures { Keeps (kind_fault e.now self (TranslationRecord first items.now)) (with_contents self (TranslationRecord first items.now)) result }
    {
        if !comes_next(first, self.translated) || self.lacks_scatter() {
            return Err(Refused::What(RecWhat::BadScatter));
        }
        match translated_after(self.symbols.numbers(), self.translated, items) {
            Some(translated) => Ok(Gathered {
                translated,
                stage: Stage::Translation,
                ..self
            }),
            None => Err(Refused::What(RecWhat::BadScatter)),
        }
    }

    fn with_notes(self, e: &Entry, first: u32, items: &[u8]) -> Result<Gathered, Refused>
        requires { length items.now ≤ 240 }
        ensures { Keeps (kind_fault e.now self (NoteRecord first items.now)) (with_contents self (NoteRecord first items.now)) result }
    {
        Ok(Gathered {
            notes: with_notes(self.notes, first, items)?,
            stage: Stage::Notes,
            ..self
        })
    }

    /// Whether some section has no scatter item yet.
    #[tactic(auto, using(member_checks::proofs::SymbolLists::sections_counted))]
    fn lacks_scatter(&self) -> bool
        ensures { result ≡ lacks_scatter self.now }
    {
        self.scattered < self.symbols.addresses().len()
    }

    /// Whether scatter or translation items are still to come.
    pub(crate) fn is_incomplete(&self) -> bool
        ensures { result ≡ is_incomplete self.now }
    {
        self.lacks_scatter() || self.translated < self.symbols.as_slice().len()
    }

    /// How many segments the member has.
    fn segment_count(&self, e: &Entry) -> usize
        ensures { result ≡ segment_count e.now self.now }
    {
        if e.is_overlay() { self.notes.len() } else { 1 }
    }

    /// Whether the module ends before its last segment, or that segment without it.
    fn ends_wrongly(&self, e: &Entry, ends: Ends) -> bool
        ensures { result ≡ ends_wrongly e.now self.now ends }
    {
        let count = self.segment_count(e);
        let segment = self.segment as usize;
        (ends.module && segment < count) || (ends.segment && !ends.module && segment == count)
    }

    /// What is wrong with a record of a segment, before its relocation items are judged.
    fn start_fault(&self, e: &Entry, text: Option<TextHead>) -> Option<RecWhat>
        ensures { result ≡ start_fault e.now self.now text }
    {
        if e.is_scatter() && self.is_incomplete() {
            return Some(RecWhat::BadScatter);
        }
        if e.is_overlay() && self.notes.is_empty() {
            return Some(RecWhat::BadOrder);
        }
        text_fault(self.symbols.as_slice(), self.segment, &text?)
    }

    /// The items with the relocation items of a record of a segment, if nothing is wrong with it.
    #[tactic(auto, using(crate::proofs::SegmentRecords::segment_parts))]
    fn with_fields(
        self,
        e: &Entry,
        ends: Ends,
        text: Option<TextHead>,
        items: &[u8],
    ) -> Result<Gathered, Refused>
        ensures { Keeps (segment_fault e.now self ends text (rlds_of items.now)) (with_fields (rlds_of items.now) self) result }
    {
        match self.start_fault(e, text) {
            Some(what) => Err(Refused::What(what)),
            None => self.with_judged_fields(e, ends, items),
        }
    }

    /// The items with the relocation items of a record, if nothing is wrong with these and with what
    /// ends.
    fn with_judged_fields(self, e: &Entry, ends: Ends, items: &[u8]) -> Result<Gathered, Refused>
        ensures { Keeps (option_or (fields_fault self (map (λ x. x.item) self.fields) (rlds_of items.now)) (when (ends_wrongly e.now self ends) BadOrder)) (with_fields (rlds_of items.now) self) result }
    {
        let ends_wrongly = self.ends_wrongly(e, ends);
        match self.fields.with_items(&self.symbols, self.segment, items) {
            Err(refused) => Err(refused),
            Ok(fields) => {
                if ends_wrongly {
                    return Err(Refused::What(RecWhat::BadOrder));
                }
                Ok(Gathered {
                    fields,
                    stage: Stage::Segments,
                    ..self
                })
            }
        }
    }

    /// Where a segment ends, the next goes on.
    fn ended_by(self, ends: Ends) -> Gathered
        requires { self.segment + 1 < 2 ^ 32 }
        ensures { result ≡ ended_by ends self }
    {
        if !ends.segment {
            return self;
        }
        Gathered {
            segment: self.segment + 1,
            ended: ends.module,
            ..self
        }
    }

    /// The text that is told is due.
    fn with_due(self, ends: Ends, text: TextHead) -> Gathered
        ensures { result ≡ record self { due = Some text; ends = ends } }
    {
        Gathered {
            due: Some(text),
            ends,
            ..self
        }
    }

    #[tactic(auto, using(crate::proofs::SegmentRecords::no_fields))]
    fn with_control(self, e: &Entry, ends: Ends, text: TextHead) -> Result<Gathered, Refused>
        ensures { Keeps (kind_fault e.now self (ControlRecord ends text)) (with_contents self (ControlRecord ends text)) result }
    {
        let gathered = self.with_fields(e, ends, Some(text), &[])?;
        Ok(gathered.with_due(ends, text))
    }

    fn with_rld(self, e: &Entry, ends: Ends, items: &[u8]) -> Result<Gathered, Refused>
        requires { self.segment + 1 < 2 ^ 32 }
        ensures { Keeps (kind_fault e.now self (RldRecord ends items.now)) (with_contents self (RldRecord ends items.now)) result }
    {
        let gathered = self.with_fields(e, ends, None, items)?;
        Ok(gathered.ended_by(ends))
    }

    fn with_control_rld(
        self,
        e: &Entry,
        ends: Ends,
        items: &[u8],
        text: TextHead,
    ) -> Result<Gathered, Refused>
        ensures { Keeps (kind_fault e.now self (ControlRldRecord ends items.now text)) (with_contents self (ControlRldRecord ends items.now text)) result }
    {
        let gathered = self.with_fields(e, ends, Some(text), items)?;
        Ok(gathered.with_due(ends, text))
    }

    /// What this record adds, where its kind may stand.
    fn with_record(self, e: &Entry, held: Rec<'_>) -> Result<Gathered, Refused>
        requires few { self.segment + 1 < 2 ^ 32 }
        requires short { HasFewItems (record_of held) }
        ensures { Keeps (kind_fault e.now self (record_of held.entry)) (with_contents self (record_of held.entry)) result }
    {
        match held {
            Rec::Cesd(first, items) => self.with_symbols(e, first, items),
            Rec::Scatter(first, items) => self.with_scatter(e, first, items),
            Rec::Translation(first, items) => self.with_translation(e, first, items),
            Rec::Note(first, items) => self.with_notes(e, first, items),
            Rec::Control(ends, text) => self.with_control(e, ends, text),
            Rec::Rld(ends, items) => self.with_rld(e, ends, items),
            Rec::ControlRld(ends, items, text) => self.with_control_rld(e, ends, items, text),
            Rec::Text(_) => Ok(self),
        }
    }

    fn is_out_of_place(&self, e: &Entry, held: &Rec<'_>) -> bool
        ensures { result ≡ (self.now.ended || nat_lt (stage_of (record_of held.now)) self.now.stage || not (is_asked e.now (record_of held.now))) }
    {
        self.ended || stage_of(held).is_before(self.stage) || !is_asked(e, held)
    }

    /// What a record adds where no text is due.
    fn after_head(self, e: &Entry, bytes: &[u8]) -> Result<Gathered, Refused>
        requires { self.segment + 1 < 2 ^ 32 }
        ensures { Keeps (fault_with e.now self None bytes.now) (with_record self None bytes.now) result }
    {
        let held = match head_of(bytes) {
            Ok(held) => held,
            Err(what) => return Err(Refused::What(what)),
        };
        if self.is_out_of_place(e, &held) {
            return Err(Refused::What(RecWhat::BadOrder));
        }
        self.with_record(e, held)
    }

    /// What the text adds that is due.
    fn after_text(self, text: TextHead, bytes: &[u8]) -> Result<Gathered, Refused>
        requires { self.segment + 1 < 2 ^ 32 }
        ensures { Keeps (when (not (length bytes.now == text.length)) BadLength) (without_texts (with_record self (Some text) bytes.now)) result }
    {
        if bytes.len() != text.length as usize {
            return Err(Refused::What(RecWhat::BadLength));
        }
        let ends = self.ends;
        Ok(self.taken().ended_by(ends))
    }

    /// No text is due.
    fn taken(self) -> Gathered
        ensures { result ≡ without_texts (record self { due = None }) }
    {
        Gathered { due: None, ..self }
    }

    /// What has come after one more record.
    ///
    /// # Errors
    /// The first fault of the record; want of memory.
    pub(crate) fn after(self, e: &Entry, bytes: &[u8]) -> Result<Gathered, Refused>
        requires { self.segment + 1 < 2 ^ 32 }
        ensures { Keeps (fault e.now self bytes.now) (without_texts (seen self bytes.now)) result }
    {
        match self.due {
            Some(text) => self.after_text(text, bytes),
            None => self.after_head(e, bytes),
        }
    }
}

/// Whether item `first` comes after the first `done` items.
pub(crate) fn comes_next(first: u32, done: usize) -> bool
    ensures { result ≡ (first == done + 1) }
{
    first > 0 && first as usize - 1 == done
}

fn is_entry_section(e: &Entry, x: &SymbolItem) -> bool
    ensures { result ≡ is_entry_section e.now x.now }
{
    x.kind.is_section() && x.segment == 1 && x.address <= e.entry && u64::from(e.entry) <= end_of(x)
}
