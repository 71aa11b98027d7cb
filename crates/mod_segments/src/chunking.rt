//! Relocation items in chunks.
ghost use Rattle.std.specs.Prelude.{◌≡◌, ◌+◌, ◌≤◌, ◌==◌, ◌∷◌, [], ◌++◌, false, true, ℕ, List, All, length, map, if◌then◌else◌, IfOk, OnOk};
ghost use Rattle.load_recs.specs.ItemBytes.{IsRld, rld_item_bytes};
ghost use Rattle.load_recs.specs.Relocations.{is_joined};
ghost use Rattle.load_recs.specs.declared.items.RldItem.{RldItem as Item};
ghost use Rattle.member_model.specs.Chunks.{chunks, chunk_bytes, same_pointers, room_after};
ghost use Rattle.mod_segments.specs.Chunks.{IsItem, IsChunk, told, size, begun, continued, closed, chunks_from};

use crate::chunk_list::ChunkList;
use le_bytes::{Bytes, Items, Memory};
use load_recs::{RldItem, put_rld_item};
use std::alloc::{AllocError, Global};
use std::mem;

/// The greatest number of bytes of a chunk.
const MOST_BYTES: usize = 240;
/// The number of items that fill a chunk where each says its numbers.
const FEWEST_ITEMS: usize = 30;

/// Cuts relocation items into chunks, each of as many items as stand in 240 bytes, in one pass. An
/// item that has the numbers of the one before it in its chunk does not say them again. The first
/// chunk takes the memory of `spare`, which then has none; without items it is left as it was.
///
/// # Errors
/// Want of memory.
pub fn chunks(alloc: Global, spare: &mut Bytes, items: &[RldItem]) -> Result<ChunkList, Memory>
    requires { All IsItem items.now }
    ensures value { IfOk result (λ made. made ≡ map chunk_bytes (chunks items.now)) }
    ensures kept { IfOk result (All IsChunk) }
    ensures spare { spare.new ≡ (if length items.now == 0 then spare.old else []) }
{
    let [first, rest @ ..] = items else {
        return Ok(ChunkList::new());
    };
    filled(alloc, mem::replace(spare, Bytes::new(alloc)), *first, rest)
}

/// The chunks of an item and those after it, the first of them in memory that something else had.
fn filled(
    alloc: Global,
    spare: Bytes,
    first: RldItem,
    rest: &[RldItem],
) -> Result<ChunkList, Memory>
    requires first { IsItem first }
    requires rest { All IsItem rest.now }
    ensures value { IfOk result (λ made. made ≡ map chunk_bytes (chunks (first ∷ rest.now))) }
    ensures kept { IfOk result (All IsChunk) }
{
    let mut made = Items::from_vec(Vec::with_capacity(alloc, rest.len() / FEWEST_ITEMS)?);
    let mut chunk = Filling::begun(spare, first, rest.len())?;
    for item in rest {
        put_item(alloc, &mut made, &mut chunk, *item)?;
    }
    Ok(ChunkList::ending(made, chunk.closed()?))
}

/// Puts one more item into the chunk, or, where that has no room for it, closes the chunk and begins
/// one after it.
#[tactic(auto, unfolding(crate::specs::Chunks::chunks_from))]
fn put_item(
    alloc: Global,
    made: &mut Items<Bytes>,
    chunk: &mut Filling,
    item: RldItem,
) -> Result<(), Memory>
    requires last { IsItem chunk.old.last }
    requires short { size chunk.old ≤ 240 }
    ensures chunks { OnOk result ((rest : List Item) → made.new ++ chunks_from chunk.new rest ≡ made.old ++ chunks_from chunk.old (item ∷ rest)) }
    ensures last { OnOk result (chunk.new.last ≡ item) }
    ensures short { OnOk result (size chunk.new ≤ 240) }
{
    if MOST_BYTES < chunk.size() + room_after(&chunk.last, &item) {
        let full = mem::replace(
            chunk,
            Filling::begun(Bytes::new(alloc), item, FEWEST_ITEMS)?,
        );
        made.push(full.closed()?)?;
        return Ok(());
    }
    chunk.add(item)
}

fn has_same_pointers(x: &RldItem, y: &RldItem) -> bool
    ensures { result ≡ same_pointers x.now y.now }
{
    x.r == y.r && x.p == y.p
}

/// The bytes that an item takes after another one.
fn room_after(x: &RldItem, y: &RldItem) -> usize
    ensures value { result ≡ room_after x.now y.now }
    ensures most { result ≤ 8 }
{
    if has_same_pointers(x, y) { 4 } else { 8 }
}

/// A chunk that is being filled: the bytes of its items but the last, and the last, which is spelled
/// once it is known whether the next has the same numbers.
#[derive(Drop)]
pub(crate) struct Filling {
    bytes: Bytes,
    last: RldItem,
    short: bool,
}

impl Filling {
    /// A chunk of one item, with memory for so many after it, or for as many as a chunk has. The
    /// memory that other bytes had serves first.
    fn begun(spare: Bytes, item: RldItem, after: usize) -> Result<Filling, AllocError>
        ensures { IfOk result (λ chunk. chunk ≡ begun item) }
    {
        let mut bytes = spare.into_vec();
        bytes.clear();
        bytes.reserve(8 * FEWEST_ITEMS.min(after.saturating_add(1)))?;
        Ok(Filling {
            bytes: Bytes::from_vec(bytes),
            last: item,
            short: false,
        })
    }

    /// The bytes of all its items.
    fn size(&self) -> usize
        requires { length self.now.bytes ≤ 240 }
        ensures value { result ≡ size self.now }
        ensures most { result ≤ 248 }
    {
        self.bytes.len() + if self.short { 4 } else { 8 }
    }

    /// Puts one more item after the last.
    fn add(&mut self, item: RldItem) -> Result<(), Memory>
        requires { IsItem self.old.last }
        ensures { OnOk result (self.new ≡ continued self.old item) }
    {
        let joined = has_same_pointers(&self.last, &item);
        self.spell(joined)?;
        self.last = item;
        self.short = joined;
        Ok(())
    }

    /// The bytes of all its items.
    fn closed(mut self) -> Result<Bytes, Memory>
        requires { IsItem self.last }
        ensures { IfOk result (λ bytes. bytes ≡ closed self) }
    {
        self.spell(false)?;
        let Filling { bytes, .. } = self;
        Ok(bytes)
    }

    /// Spells the last item.
    fn spell(&mut self, joined: bool) -> Result<(), Memory>
        requires { IsItem self.old.last }
        ensures { OnOk result (self.new ≡ record self.old { bytes = self.old.bytes ++ rld_item_bytes self.old.short (told joined self.old.last) }) }
    {
        let item = told(self.last, joined);
        let mut field = [0; 8];
        let size = if self.short { 4 } else { 8 };
        let spelled = &mut field[..size];
        put_rld_item(spelled, &item, self.short);
        self.bytes.extend(spelled)?;
        Ok(())
    }
}

/// The item, which tells whether the next has the same numbers.
fn told(item: RldItem, joined: bool) -> RldItem
    requires { IsItem item }
    ensures value { result ≡ told joined item }
    ensures fits { IsRld result }
{
    if joined {
        RldItem {
            flag: item.flag + 1,
            ..item
        }
    } else {
        item
    }
}
