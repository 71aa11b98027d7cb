//! The entries of one directory block.
ghost use Rattle.std.specs.Prelude.{◌≡◌, ◌≤◌, ◌<◌, ◌^◌, ◌+◌, ◌-◌, length, drop, IsTrue, IfOk, IfSome};
ghost use Rattle.pds_directory.specs.Order.{ascends};
ghost use Rattle.pds_directory.specs.Answers.{Gives};
ghost use Rattle.pds_directory.specs.Directory.{data_length, entry_length, entry_fits, is_alias, is_last, is_closed, is_above, has_size, is_good, entry_of, data_of, listed_of, entry_at, entries_from, listed_name};

use crate::entry::{Entry, Listed, Span};
use crate::header::Head;
use crate::kinds::LibKind;
use crate::parts::{is_below, name_at, number16, number24};
use crate::stop::LibStop;
use le_bytes::{LibFault, Name};

/// The bytes of an entry before its user data.
const FIXED: usize = 12;

/// The name of the last entry, which no member has.
const LAST_NAME: [u8; 8] = [0xFF; 8];

/// What follows the last name.
const ZEROS: [u8; 4] = [0; 4];

fn data_length(rest: &[u8]) -> usize
    requires { 12 ≤ length rest.now }
    ensures value { result ≡ data_length rest.now }
    ensures small { result ≤ 62 }
{
    2 * (rest[11] % 32) as usize
}

fn entry_fits(rest: &[u8]) -> bool
    ensures { result ≡ entry_fits rest.now }
{
    rest.len() >= FIXED && rest.len() >= FIXED + data_length(rest)
}

fn is_alias(rest: &[u8]) -> bool
    requires { 12 ≤ length rest.now }
    ensures { result ≡ is_alias rest.now }
{
    rest[11] >= 128
}

fn is_last(rest: &[u8]) -> bool
    requires { 12 ≤ length rest.now }
    ensures { result ≡ is_last rest.now }
{
    rest[0..8] == LAST_NAME[..]
}

fn is_closed(rest: &[u8]) -> bool
    requires { 12 ≤ length rest.now }
    ensures { result ≡ is_closed rest.now }
{
    rest[8..12] == ZEROS[..]
}

fn is_above(entries: &[Listed], name: &Name) -> bool
    ensures { result ≡ is_above entries.now name.now }
{
    match entries.last() {
        None => true,
        Some(last) => is_below(&last.entry.name, name),
    }
}

fn has_size(kind: LibKind, rest: &[u8]) -> bool
    requires { 12 ≤ length rest.now }
    ensures { result ≡ has_size kind rest.now }
{
    match kind {
        LibKind::Cards => true,
        LibKind::Modules => data_length(rest) == if is_alias(rest) { 20 } else { 12 },
    }
}

fn is_good(h: &Head, entries: &[Listed], rest: &[u8]) -> bool
    requires { 12 ≤ length rest.now }
    ensures { result ≡ is_good h.now entries.now rest.now }
{
    let first = number24(rest, 8);
    is_above(entries, &name_at(rest, 0))
        && first >= 1
        && first <= h.records
        && has_size(h.kind, rest)
}

fn module_entry(rest: &[u8]) -> Entry
    requires fits { IsTrue (entry_fits rest.now) }
    requires size { IsTrue (has_size LibKind.Modules rest.now) }
    ensures { result ≡ entry_of LibKind.Modules rest.now }
{
    let name = name_at(rest, 0);
    let alias = is_alias(rest);
    Entry {
        name,
        main: if alias { name_at(rest, 24) } else { name },
        alias,
        attr: rest[12],
        length: number24(rest, 14),
        entry: number24(rest, 18),
        entry_section: number16(rest, 22) as u16,
    }
}

fn card_entry(rest: &[u8]) -> Entry
    requires { IsTrue (entry_fits rest.now) }
    ensures { result ≡ entry_of LibKind.Cards rest.now }
{
    let name = name_at(rest, 0);
    Entry {
        name,
        main: name,
        alias: is_alias(rest),
        attr: 0,
        length: 0,
        entry: 0,
        entry_section: 0,
    }
}

fn entry_of(kind: LibKind, rest: &[u8]) -> Entry
    requires fits { IsTrue (entry_fits rest.now) }
    requires size { IsTrue (has_size kind rest.now) }
    ensures { result ≡ entry_of kind rest.now }
{
    match kind {
        LibKind::Cards => card_entry(rest),
        LibKind::Modules => module_entry(rest),
    }
}

fn data_of(kind: LibKind, end: usize, rest: &[u8]) -> Span
    requires fits { IsTrue (entry_fits rest.now) }
    requires end { length rest.now ≤ end }
    ensures { result ≡ data_of kind end rest.now }
{
    match kind {
        LibKind::Cards => Span {
            at: end - rest.len() + FIXED,
            len: data_length(rest),
        },
        LibKind::Modules => Span { at: 0, len: 0 },
    }
}

fn listed_of(h: &Head, block: u32, number: u32, end: usize, rest: &[u8]) -> Listed
    requires fits { IsTrue (entry_fits rest.now) }
    requires size { IsTrue (has_size h.now.kind rest.now) }
    requires end { length rest.now ≤ end }
    ensures { result ≡ listed_of h.now block number end rest.now }
{
    Listed {
        entry: entry_of(h.kind, rest),
        first: number24(rest, 8),
        user_data: data_of(h.kind, end, rest),
        block,
        number,
    }
}

/// The entry at the front of `rest`, the used bytes up to the place `end`; None for the last one.
#[tactic(auto, unfolding(crate::specs::Directory::entry_at))]
fn read_entry(
    h: &Head,
    block: u32,
    number: u32,
    entries: &[Listed],
    end: usize,
    rest: &[u8],
) -> Result<Option<Listed>, LibStop>
    requires end { length rest.now ≤ end }
    ensures gives { Gives (λ x. x) result (entry_at h.now block number entries.now end rest.now) }
    ensures fits { IfOk result (λ _. IsTrue (entry_fits rest.now)) }
    ensures above { IfOk result (λ found. IfSome found (λ x. IsTrue (is_above entries.now x.entry.name))) }
{
    if !entry_fits(rest) {
        return Err(LibStop::Bad(LibFault::BadDirectory(block)));
    }
    if is_last(rest) {
        return if is_closed(rest) {
            Ok(None)
        } else {
            Err(LibStop::Bad(LibFault::BadEntry(block, number)))
        };
    }
    if !is_good(h, entries, rest) {
        return Err(LibStop::Bad(LibFault::BadEntry(block, number)));
    }
    Ok(Some(listed_of(h, block, number, end, rest)))
}

fn after_entry(rest: &[u8]) -> &[u8]
    requires { IsTrue (entry_fits rest.now) }
    ensures { result.now ≡ drop (entry_length rest.now) rest.now }
{
    &rest[FIXED + data_length(rest)..]
}

/// Puts the entries of a block at the end of `entries`. The answer is whether the last one came.
pub(crate) fn read_entries(
    tries: u32,
    h: &Head,
    block: u32,
    end: usize,
    used: &[u8],
    entries: &mut Vec<Listed>,
) -> Result<bool, LibStop>
    requires end { length used.now ≤ end }
    requires few { tries < 2 ^ 31 }
    requires ascending { IsTrue (ascends listed_name entries.old.items) }
    ensures gives { Gives (λ last. (entries.new.items, last)) result (entries_from tries h.now block 1 entries.old.items end used.now) }
    ensures ascending { IsTrue (ascends listed_name entries.new.items) }
{
    let mut rest = used;
    for tried in 0..tries {
        if rest.is_empty() {
            return Ok(false);
        }
        match read_entry(h, block, tried + 1, entries.as_slice(), end, rest) {
            Ok(None) => return Ok(true),
            Ok(Some(listed)) => {
                entries.push(listed)?;
                rest = after_entry(rest);
            }
            Err(stop) => return Err(stop),
        }
    }
    Err(LibStop::Bad(LibFault::BadDirectory(block)))
}
