//! Whole sets and whole texts.
ghost use Rattle.std.specs.Prelude.{◌≡◌, ℕ, ◌+◌, ◌<◌, ◌≤◌, length, IfOk, vec_len};
ghost use Rattle.le_io.specs.Counts.{NoneFalls, WhereTold};
ghost use Rattle.le_io.specs.Whole.{WholeTold, WholeHasCause, TextHasCause, TextGains};
ghost use Rattle.le_io.specs.Piece.{PieceTold};
ghost use Rattle.le_io.specs.declared.whole.ReadStop.TheVariants.{Memory};

use crate::sink::Sink;
use crate::store::{Failed, Got, SET_LIMIT, Store};
use std::alloc::{AllocError, Global};

/// How many bytes are asked for at once: 256 KiB, so that the longest set takes 257 reads.
const PIECE: usize = 262_144;

/// Why a set was not read whole.
#[derive(Clone, Copy, Debug, PartialEq, Eq)]
pub enum ReadStop {
    /// Nothing stands at the path.
    Absent,
    /// A read failed.
    Failed,
    /// It has more than [`SET_LIMIT`] bytes.
    TooLong,
    /// Memory ran out.
    Memory,
}

impl From<AllocError> for ReadStop {
    ghost from_gives = { λ _ e. e ≡ Memory };

    fn from(_e: AllocError) -> ReadStop {
        ReadStop::Memory
    }
}

/// Reads some bytes from `at` on, and none exactly at the end. At the limit it asks for one byte more, to see whether
/// the set is too long.
fn read_piece<S: Store>(
    s: &mut S,
    path: &str,
    at: usize,
    buffer: &mut [u8],
) -> Result<usize, ReadStop>
    requires at { at ≤ SET_LIMIT }
    requires room { 0 < length buffer.old }
    ensures within { IfOk result (λ n. n ≤ length buffer.new) }
    ensures limit { IfOk result (λ n. at + n ≤ SET_LIMIT) }
    ensures piece { WhereTold (S.told s.old) (λ files. PieceTold files path.now at buffer.new result) }
    ensures told { S.told s.new ≡ S.told s.old }
    ensures counts { NoneFalls (S.counts s.old) (S.counts s.new) }
    ensures cause { WholeHasCause (S.counts s.old) (S.counts s.new) path.now result }
{
    let left = SET_LIMIT as usize - at;
    let room = buffer.len().min(left.max(1));
    match s.read_at(path, at as u64, &mut buffer[..room]) {
        Got::Bytes(n) if n > left => Err(ReadStop::TooLong),
        Got::Bytes(n) => Ok(n),
        Got::Absent => Err(ReadStop::Absent),
        Got::Failed => Err(ReadStop::Failed),
    }
}

fn zeros(alloc: Global, len: usize) -> Result<Vec<u8>, AllocError>
    ensures { IfOk result (λ bytes. vec_len bytes ≡ len) }
{
    vec![in alloc; 0u8; len]
}

/// Reads the whole set at the path. Every turn takes at least one byte or ends the reading.
pub fn read_all<S: Store>(alloc: Global, s: &mut S, path: &str) -> Result<Vec<u8>, ReadStop>
    ensures whole { WhereTold (S.told s.old) (λ files. WholeTold files path.now result) }
    ensures limit { IfOk result (λ bytes. vec_len bytes ≤ SET_LIMIT) }
    ensures told { S.told s.new ≡ S.told s.old }
    ensures counts { NoneFalls (S.counts s.old) (S.counts s.new) }
    ensures cause { WholeHasCause (S.counts s.old) (S.counts s.new) path.now result }
{
    let mut buffer = zeros(alloc, PIECE)?;
    let mut bytes = Vec::new(alloc);
    loop {
        match read_piece(s, path, bytes.len(), &mut buffer) {
            Ok(0) => return Ok(bytes),
            Ok(n) => {
                if bytes.extend_from_slice(&buffer[..n]).is_err() {
                    return Err(ReadStop::Memory);
                }
            }
            Err(why) => return Err(why),
        }
    }
}

/// Writes the whole text, as much at a time as the sink takes.
pub fn write_all<K: Sink>(k: &mut K, b: &[u8]) -> Result<(), Failed>
    ensures held { TextGains (K.held k.old) (K.held k.new) b.now result }
    ensures counts { K.faults k.old ≤ K.faults k.new }
    ensures cause { TextHasCause (K.faults k.old) (K.faults k.new) result }
{
    let mut done = 0;
    while done < b.len() {
        match k.write(&b[done..]) {
            Ok(0) => return Err(Failed),
            Ok(n) => done += n,
            Err(stop) => return Err(stop),
        }
    }
    Ok(())
}
