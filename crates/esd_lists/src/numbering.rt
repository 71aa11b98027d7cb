//! The numbers of names.
ghost use Rattle.std.specs.Prelude.{◌≡◌, ◌≤◌, ◌<◌, ◌^◌, map, length, None, IfOk, OnOk};
ghost use Rattle.std.specs.HashMap.{get};
ghost use Rattle.std.specs.List.{position_from};
ghost use Rattle.le_bytes.specs.Names.{name_eq};
ghost use Rattle.esd_lists.specs.Numbered.{number_step, is_named_so};

use crate::by_name::put;
use le_bytes::Name;
use std::alloc::{AllocError, Global};
use std::collections::HashMap;
use sym_mod::{Label, Unknown};

fn note_number(numbers: &mut HashMap<Name, u32>, name: Name, number: u32) -> Result<(), AllocError>
    ensures { OnOk result ((y : Name) → get name_eq numbers.new y ≡ number_step name number y (get name_eq numbers.old y)) }
{
    if numbers.contains_key(&name) {
        return Ok(());
    }
    put(numbers, name, number)
}

fn numbers_of(alloc: Global, names: &[Name]) -> Result<HashMap<Name, u32>, AllocError>
    requires { length names.now ≤ 32511 }
    ensures { IfOk result (λ m. (y : Name) → get name_eq m y ≡ position_from (is_named_so y) 0 names.now) }
{
    let mut numbers = HashMap::new(alloc);
    for (number, name) in names.iter().enumerate() {
        note_number(&mut numbers, *name, number as u32)?;
    }
    Ok(numbers)
}

fn label_names(alloc: Global, labels: &[Label]) -> Result<Vec<Name>, AllocError>
    ensures { IfOk result (λ v. v.items ≡ map (λ (x : Label). x.name) labels.now) }
{
    labels.iter().map(|x| x.name).collect(alloc)
}

fn unknown_names(alloc: Global, unknowns: &[Unknown]) -> Result<Vec<Name>, AllocError>
    ensures { IfOk result (λ v. v.items ≡ map (λ (x : Unknown). x.name) unknowns.now) }
{
    unknowns.iter().map(|x| x.name).collect(alloc)
}

/// The number of the first label of each name.
fn label_numbers(alloc: Global, labels: &[Label]) -> Result<HashMap<Name, u32>, AllocError>
    requires { length labels.now ≤ 32511 }
    ensures { IfOk result (λ m. (y : Name) → get name_eq m y ≡ position_from (is_named_so y) 0 (map (λ (x : Label). x.name) labels.now)) }
{
    let names = label_names(alloc, labels)?;
    numbers_of(alloc, names.as_slice())
}

/// The number of each unresolved name.
fn unknown_numbers(alloc: Global, unknowns: &[Unknown]) -> Result<HashMap<Name, u32>, AllocError>
    requires { length unknowns.now ≤ 32511 }
    ensures { IfOk result (λ m. (y : Name) → get name_eq m y ≡ position_from (is_named_so y) 0 (map (λ (x : Unknown). x.name) unknowns.now)) }
{
    let names = unknown_names(alloc, unknowns)?;
    numbers_of(alloc, names.as_slice())
}

/// What names mean that no section has: the number of the first label of each name, and of each
/// unresolved name, both from 0 in the program's lists.
#[derive(Drop)]
pub struct Meanings {
    pub labels: HashMap<Name, u32>,
    pub unknowns: HashMap<Name, u32>,
}

impl Meanings {
    ghost use Rattle.std.specs.Prelude.{◌≡◌, ◌≤◌, map, length, IfOk};
    ghost use Rattle.std.specs.HashMap.{get};
    ghost use Rattle.std.specs.List.{position_from};
    ghost use Rattle.le_bytes.specs.declared.name.Name.{Name};
    ghost use Rattle.le_bytes.specs.Names.{name_eq};
    ghost use Rattle.esd_lists.specs.Numbered.{is_named_so};

    /// The numbers of these labels and of these unresolved names.
    pub(crate) fn of(
        alloc: Global,
        labels: &[Label],
        unknowns: &[Unknown],
    ) -> Result<Meanings, AllocError>
        requires labels { length labels.now ≤ 32511 }
        requires unknowns { length unknowns.now ≤ 32511 }
        ensures labels { IfOk result (λ m. (y : Name) → get name_eq m.labels y ≡ position_from (is_named_so y) 0 (map (λ (x : Label). x.name) labels.now)) }
        ensures unknowns { IfOk result (λ m. (y : Name) → get name_eq m.unknowns y ≡ position_from (is_named_so y) 0 (map (λ (x : Unknown). x.name) unknowns.now)) }
    {
        Ok(Meanings {
            labels: label_numbers(alloc, labels)?,
            unknowns: unknown_numbers(alloc, unknowns)?,
        })
    }
}
