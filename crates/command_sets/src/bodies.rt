//! What the bytes of a data set are.
ghost use Rattle.std.specs.Prelude.{◌≡◌, ◌≤◌, ◌==◌, true, false, length, slice_get, IfOk};
ghost use Rattle.std.specs.Option.{option_map_or};
ghost use Rattle.pds_lib.specs.Grammar.{library_of};
ghost use Rattle.command_sets.specs.Sets.{body_of, is_for_modules, new_library, output_of, set_limit, whole_library};
ghost use Rattle.command_sets.specs.Reading.{IsReadBody};

use command_words::keys::SYSLMOD;
use le_bytes::{Bytes, Memory, Name, Refusal};
use pds_lib::{Body, LibKind, LibStop, Library, Version};
use std::alloc::Global;

/// The eight letters PDSIMAGE in EBCDIC, with which a library begins.
const MARK: [u8; 8] = [0xD7, 0xC4, 0xE2, 0xC9, 0xD4, 0xC1, 0xC7, 0xC5];

/// The place of the byte that tells what a library holds.
const KIND: usize = 9;

/// Byte KIND of a library of cards.
const CARDS: u8 = 0xC6;

/// What the bytes of the set of this data definition name are: those of SYSLMOD a library of load modules,
/// no bytes a new one where it may be new, which has this version then, and those of any other set cards.
/// Or why they are refused: SYSLMOD is no library of load modules, or is damaged.
///
/// # Errors
/// Want of memory.
pub fn body_of(
    alloc: Global,
    new: Option<Version>,
    dd: Name,
    bytes: Vec<u8>,
) -> Result<Result<Body, Refusal>, Memory>
    requires { length bytes.items ≤ set_limit }
    ensures body { IfOk result (λ body. body ≡ body_of new dd bytes.items) }
    ensures read { IfOk result (λ body. IfOk body IsReadBody) }
{
    if dd == SYSLMOD {
        output_of(alloc, new, bytes)
    } else {
        Ok(Ok(Body::Cards(Bytes::from_vec(bytes))))
    }
}

/// The library of load modules that the bytes are.
fn output_of(
    alloc: Global,
    new: Option<Version>,
    bytes: Vec<u8>,
) -> Result<Result<Body, Refusal>, Memory>
    ensures body { IfOk result (λ body. body ≡ output_of new bytes.items) }
    ensures read { IfOk result (λ body. IfOk body IsReadBody) }
{
    if bytes.is_empty() {
        Ok(new_library(alloc, new, Refusal::NotLibrary(SYSLMOD)))
    } else if is_for_modules(&bytes) {
        whole_library(alloc, bytes)
    } else {
        Ok(Err(Refusal::NotLibrary(SYSLMOD)))
    }
}

/// A library of load modules without members where one of this version may be new, and else this refusal.
pub fn new_library(alloc: Global, new: Option<Version>, refusal: Refusal) -> Result<Body, Refusal>
    ensures body { result ≡ new_library new refusal }
    ensures read { IfOk result IsReadBody }
{
    match new {
        Some(version) => Ok(Body::Lib(Library::empty(alloc, LibKind::Modules, version))),
        None => Err(refusal),
    }
}

/// The library that an image holds.
fn whole_library(alloc: Global, bytes: Vec<u8>) -> Result<Result<Body, Refusal>, Memory>
    requires { is_for_modules bytes.items ≡ true }
    ensures body { IfOk result (λ body. body ≡ whole_library (library_of bytes.items)) }
    ensures read { IfOk result (λ body. IfOk body IsReadBody) }
{
    match Library::read(alloc, bytes) {
        Ok(library) => Ok(Ok(Body::Lib(library))),
        Err(LibStop::Bad(fault)) => Ok(Err(Refusal::Library(SYSLMOD, fault))),
        Err(LibStop::Memory) => Err(Memory),
    }
}

/// Whether bytes begin as a library does, and do not say that it is one of cards.
fn is_for_modules(bytes: &[u8]) -> bool
    ensures { result ≡ is_for_modules bytes.now }
{
    bytes[..bytes.len().min(8)] == MARK[..] && !has_card_byte(bytes)
}

fn has_card_byte(bytes: &[u8]) -> bool
    ensures { result ≡ option_map_or (λ b. b == 198) (slice_get bytes.now 9) false }
{
    match bytes.get(KIND) {
        Some(byte) => *byte == CARDS,
        None => false,
    }
}
