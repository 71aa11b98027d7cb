//! The displacements of registers.
ghost use Rattle.std.specs.Prelude.{◌≡◌, ◌+◌, ◌≤◌, ◌*◌, length, All, IfOk};
ghost use Rattle.sym_mod.specs.Sound.{IsAlignment, IsSoundRegister};
ghost use Rattle.linking_model.specs.Points.{next_multiple, displacements, registers_end};

use le_bytes::{Memory, round8};
use std::alloc::Global;
use sym_mod::Register;

/// The end of the last register, in bytes.
#[tactic(auto, using(crate::proofs::Displaced::end_step, crate::proofs::Displaced::end_all))]
pub(crate) fn registers_end(registers: &[Register]) -> u64
    requires sound { All IsSoundRegister registers.now }
    requires few { length registers.now ≤ 32511 }
    ensures { result ≡ registers_end 0 registers.now }
{
    let mut at = 0;
    for x in registers {
        at = next_multiple(at, x.align) + x.length as u64;
    }
    at
}

/// The displacement of each register.
///
/// # Errors
/// Want of memory.
pub(crate) fn register_places(alloc: Global, registers: &[Register]) -> Result<Vec<u32>, Memory>
    requires sound { All IsSoundRegister registers.now }
    requires fits { registers_end 0 registers.now ≤ 16777215 }
    ensures { IfOk result (λ places. places.items ≡ displacements 0 registers.now) }
{
    let mut places = Vec::with_capacity(alloc, registers.len())?;
    let mut at = 0;
    for x in registers {
        let place = next_multiple(at, x.align);
        places.push(place as u32)?;
        at = place + x.length as u64;
    }
    Ok(places)
}

fn next_multiple(n: u64, align: u32) -> u64
    requires align { IsAlignment align }
    requires small { n ≤ 1125899906842624 }
    ensures value { result ≡ next_multiple n align }
    ensures low { n ≤ result }
    ensures high { result ≤ n + 7 }
{
    match align {
        1 => n,
        2 => (n + 1) / 2 * 2,
        4 => (n + 3) / 4 * 4,
        _ => round8(n),
    }
}
