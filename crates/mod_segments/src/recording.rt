//! Pieces as records.
ghost use Rattle.std.specs.Prelude.{◌≡◌, ◌+◌, ◌<◌, ◌≤◌, ◌++◌, ◌==◌, if◌then◌else◌, [], ◌∷◌, List, All, length, map, IfOk, OnOk};
ghost use Rattle.load_recs.specs.Records.{ControlRecord, RldRecord, ControlRldRecord, record_of, rec_bytes, AreEnds, AreRlds};
ghost use Rattle.member_model.specs.Facts.{nothing_ends};
ghost use Rattle.member_model.specs.Pieces.{Piece as Seen, piece_records, records_or_empty};
ghost use Rattle.mod_segments.specs.Chunks.{IsChunk};
ghost use Rattle.mod_segments.specs.Pieces.{seen, IsPiece};
ghost use Rattle.mod_segments.specs.Records.{IsStored, text_records, chunk_records, but_last, last_of};
ghost use Rattle.mod_segments.specs.Writing.{IsReady, HasPieces};

use crate::chunk_list::ChunkList;
use crate::piece::Piece;
use le_bytes::{Bytes, Items, Memory};
use load_recs::{Ends, Rec, TextHead, write_rec};
use std::alloc::{AllocError, Global};
use std::mem;

/// Neither a segment nor the module ends.
const NOTHING: Ends = Ends {
    segment: false,
    module: false,
};

/// The records of a segment that is being written piece by piece: for each a control record and its
/// text, which is not copied, and then its chunks. The last chunk joins the next control record. The
/// last piece is held back until it is known whether others follow.
#[derive(Drop)]
pub struct SegmentRecords {
    records: Records,
    held: Option<Piece>,
    /// A chunk that a control record has said, whose memory serves the next chunk.
    pub(crate) spare: Bytes,
}

impl SegmentRecords {
    /// No pieces yet, with memory for the records of so many that have few relocation items.
    ///
    /// # Errors
    /// Want of memory.
    pub fn new(alloc: Global, pieces: usize) -> Result<SegmentRecords, AllocError>
        ensures none { IfOk result (λ records. HasPieces records []) }
        ensures ready { IfOk result IsReady }
    {
        Ok(SegmentRecords {
            records: Records::new(alloc, pieces)?,
            held: None,
            spare: Bytes::new(alloc),
        })
    }

    /// Puts a piece after those that are there.
    pub(crate) fn put(&mut self, alloc: Global, piece: Piece) -> Result<(), Memory>
        requires piece { IsPiece (seen piece) }
        requires ready { IsReady self.old }
        ensures pieces { OnOk result ((before : List Seen) → HasPieces self.old before → HasPieces self.new (before ++ seen piece ∷ [])) }
        ensures ready { OnOk result (IsReady self.new) }
    {
        if let Some(before) = self.held.replace(piece) {
            let said = self.records.add(alloc, before)?;
            self.keep(said);
        }
        Ok(())
    }

    /// Keeps the memory of a chunk that has been said, where it has any.
    fn keep(&mut self, said: Bytes)
        ensures records { self.new.records ≡ self.old.records }
        ensures held { self.new.held ≡ self.old.held }
    {
        if said.len() > 0 {
            self.spare = said;
        }
    }

    /// The records of all pieces. A segment without text is one record without items. `ends` is what
    /// ends with the last record.
    ///
    /// # Errors
    /// Want of memory.
    pub fn end(self, alloc: Global, ends: Ends) -> Result<Items<Bytes>, Memory>
        requires ready { IsReady self }
        requires ends { AreEnds ends }
        ensures value { IfOk result (λ records. (pieces : List Seen) → HasPieces self pieces → records ≡ map rec_bytes (records_or_empty ends pieces)) }
        ensures sizes { IfOk result (λ records. (pieces : List Seen) → HasPieces self pieces → All IsStored records) }
    {
        let SegmentRecords { records, held, .. } = self;
        match held {
            Some(piece) => records.end(alloc, piece, ends),
            None => records.empty(alloc, ends),
        }
    }
}

/// The records so far, and the chunk that joins the next control record.
#[derive(Drop)]
pub(crate) struct Records {
    done: Items<Bytes>,
    carried: Bytes,
}

impl Records {
    /// No records, with memory for those of so many pieces that have few items.
    fn new(alloc: Global, pieces: usize) -> Result<Records, AllocError>
        ensures { IfOk result (λ records. records ≡ record { done = []; carried = [] }) }
    {
        Ok(Records {
            done: Items::from_vec(Vec::with_capacity(alloc, pieces.saturating_mul(2))?),
            carried: Bytes::new(alloc),
        })
    }

    /// Puts the records of a piece that others follow. Gives the chunk that joined its control record.
    fn add(&mut self, alloc: Global, piece: Piece) -> Result<Bytes, Memory>
        requires carried { AreRlds self.old.carried }
        requires piece { IsPiece (seen piece) }
        ensures value { OnOk result (self.new ≡ record {
          done = self.old.done ++ map rec_bytes (text_records nothing_ends self.old.carried (seen piece) ++ chunk_records (but_last piece.chunks));
          carried = last_of piece.chunks;
        }) }
        ensures carried { OnOk result (AreRlds self.new.carried) }
    {
        let (before, last) = self.put_text(alloc, NOTHING, piece)?.parted(alloc);
        let said = mem::replace(&mut self.carried, last);
        self.put_chunks(alloc, before.as_slice())?;
        Ok(said)
    }

    /// The records with one that has no items.
    fn empty(mut self, alloc: Global, ends: Ends) -> Result<Items<Bytes>, Memory>
        requires ends { AreEnds ends }
        ensures { IfOk result (λ records. records ≡ self.done ++ rec_bytes (RldRecord ends []) ∷ []) }
    {
        self.put_chunk(alloc, ends, &[])?;
        Ok(self.done)
    }

    /// The records with those of the last piece.
    fn end(mut self, alloc: Global, piece: Piece, ends: Ends) -> Result<Items<Bytes>, Memory>
        requires carried { AreRlds self.carried }
        requires piece { IsPiece (seen piece) }
        requires ends { AreEnds ends }
        ensures { IfOk result (λ records. records ≡ self.done
            ++ map rec_bytes (piece_records ends self.carried (seen piece ∷ []))) }
    {
        if piece.chunks.is_empty() {
            self.put_text(alloc, ends, piece)?;
            return Ok(self.done);
        }
        let (before, last) = self.put_text(alloc, NOTHING, piece)?.parted(alloc);
        self.put_chunks(alloc, before.as_slice())?;
        self.put_chunk(alloc, ends, last.as_slice())?;
        Ok(self.done)
    }

    /// Puts a control record, with the chunk that joins it, and the text of a piece. Gives its chunks.
    fn put_text(&mut self, alloc: Global, ends: Ends, piece: Piece) -> Result<ChunkList, Memory>
        requires carried { AreRlds self.old.carried }
        requires piece { IsPiece (seen piece) }
        requires ends { AreEnds ends }
        ensures value { OnOk result (self.new ≡ record self.old { done = self.old.done ++ map rec_bytes (text_records ends self.old.carried (seen piece)) }) }
        ensures chunks { IfOk result (λ chunks. chunks ≡ piece.chunks) }
    {
        let Piece {
            section,
            address,
            bytes,
            chunks,
        } = piece;
        let head = TextHead {
            address,
            length: bytes.len() as u32,
            section,
        };
        let control = control(ends, self.carried.as_slice(), head);
        self.done
            .push(Bytes::from_vec(write_rec(alloc, &control)?))?;
        self.done.push(bytes)?;
        Ok(chunks)
    }

    /// Puts records of chunks with which nothing ends.
    fn put_chunks(&mut self, alloc: Global, chunks: &[Bytes]) -> Result<(), Memory>
        requires { All IsChunk chunks.now }
        ensures { OnOk result (self.new ≡ record self.old { done = self.old.done ++ map rec_bytes (chunk_records chunks.now) }) }
    {
        for chunk in chunks {
            self.put_chunk(alloc, NOTHING, chunk.as_slice())?;
        }
        Ok(())
    }

    /// Puts the record of a chunk.
    fn put_chunk(&mut self, alloc: Global, ends: Ends, chunk: &[u8]) -> Result<(), Memory>
        requires ends { AreEnds ends }
        requires items { AreRlds chunk.now }
        ensures { OnOk result (self.new ≡ record self.old { done = self.old.done ++ rec_bytes (RldRecord ends chunk.now) ∷ [] }) }
    {
        let record = write_rec(alloc, &Rec::Rld(ends, chunk))?;
        self.done.push(Bytes::from_vec(record))?;
        Ok(())
    }
}

/// A control record, with a chunk where one joins it.
fn control<'a>(ends: Ends, carried: &'a [u8], text: TextHead) -> Rec<'a>
    ensures { record_of result ≡ (if length carried.now == 0 then ControlRecord ends text else ControlRldRecord ends carried.now text) }
{
    if carried.is_empty() {
        Rec::Control(ends, text)
    } else {
        Rec::ControlRld(ends, carried, text)
    }
}
