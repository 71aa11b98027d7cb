//! Addresses in storage.
ghost use Rattle.std.specs.Prelude.{◌≡◌, ◌+◌, ◌≤◌, map, All, IfOk};
ghost use Rattle.block_storage.specs.Storage.{moved};

use le_bytes::{Items, Memory};
use std::alloc::{AllocError, Global};
use sym_mod::Places;

/// The addresses of sections with the module at `origin`, and where its registers stand.
///
/// # Errors
/// Want of memory.
pub(crate) fn moved(alloc: Global, a: &Places, origin: u32) -> Result<Places, Memory>
    requires { All (λ n. origin + n ≤ 16777215) a.now.sections }
    ensures { IfOk result (λ m. m ≡ moved origin a.now) }
{
    let sections = added(alloc, a.sections.as_slice(), origin)?;
    let registers = Vec::from_slice(alloc, a.registers.as_slice())?;
    Ok(Places {
        sections: Items::from_vec(sections),
        tables: Items::new(alloc),
        origins: Items::new(alloc),
        ends: Items::new(alloc),
        registers: Items::from_vec(registers),
        total: a.total,
        length: a.length,
    })
}

fn added(alloc: Global, numbers: &[u32], origin: u32) -> Result<Vec<u32>, AllocError>
    requires { All (λ n. origin + n ≤ 16777215) numbers.now }
    ensures { IfOk result (λ sums. sums.items ≡ map (λ n. origin + n) numbers.now) }
{
    let mut sums = Vec::with_capacity(alloc, numbers.len())?;
    for number in numbers {
        sums.push(origin + *number)?;
    }
    Ok(sums)
}
