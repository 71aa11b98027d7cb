//! Where a program is entered.
ghost use Rattle.std.specs.Prelude.{◌≡◌, false, ◌==◌, ◌≤◌, ◌<◌, length, position, find, option_map, option_and_then, slice_get, filter_map, unwrap_or, if◌then◌else◌, Some, None, IfOk};
ghost use Rattle.std.specs.Option.{option_or, option_map_or, option_copied};
ghost use Rattle.std.specs.List.{list_any};
ghost use Rattle.le_bytes.specs.Names.{name_eq};
ghost use Rattle.sym_mod.specs.Sound.{IsSoundProgram};
ghost use Rattle.linking_model.specs.Settled.{is_section_named};
ghost use Rattle.linking_model.specs.Places.{segment_of_section};
ghost use Rattle.linking_model.specs.Points.{in_root, section_point, label_point, point_of, start_point, first_of_root, default_point, entry_point, alias_point};
ghost use Rattle.addr_assign.specs.Seen.{seen};
ghost use Rattle.addr_assign.specs.Maps.{HoldsSections, HoldsLabels};
ghost use Rattle.addr_assign.specs.Starts.{is_by_name};

use crate::settling::section_numbers;
use le_bytes::{Memory, Name};
use std::alloc::{AllocError, Global};
use std::collections::HashMap;
use sym_mod::{Label, Program, SecKind, Section, StartAt};

/// A byte of a section, by its number from 0 and its offset in bytes, or the section's end.
#[derive(Clone, Copy, Debug, PartialEq, Eq)]
pub struct Point {
    pub section: u32,
    pub offset: u32,
}

/// Where the program is entered, with or without the name of an ENTRY statement. None exactly where
/// that name is not defined in the root. Linear in sections, labels and starts.
///
/// # Errors
/// Want of memory.
#[tactic(auto, unfolding(linking_model::specs::Points::entry_point))]
pub fn entry_point(alloc: Global, p: &Program, name: Option<&Name>) -> Result<Option<Point>, Memory>
    requires { IsSoundProgram p.now }
    ensures { IfOk result (λ point. option_map seen point ≡ entry_point p.now (option_copied name.entry)) }
{
    match name {
        Some(name) => Ok(point_of(p, name)),
        None => Ok(Some(default_point(alloc, p)?)),
    }
}

/// The first entry that a module gives and that is in the root, else the root's first byte.
fn default_point(alloc: Global, p: &Program) -> Result<Point, Memory>
    requires { IsSoundProgram p.now }
    ensures { IfOk result (λ point. seen point ≡ default_point p.now) }
{
    match first_start(alloc, p)? {
        Some(point) => Ok(point),
        None => Ok(first_of_root(p)),
    }
}

/// The first entry that a module gives and that is in the root. Maps of names are made only where some
/// entry is given by its name.
fn first_start(alloc: Global, p: &Program) -> Result<Option<Point>, Memory>
    requires { IsSoundProgram p.now }
    ensures { IfOk result (λ point. option_map seen point ≡ slice_get (filter_map (start_point p.now) p.now.starts) 0) }
{
    if !is_any_by_name(p.starts.as_slice()) {
        return Ok(first_place(p));
    }
    let named = section_numbers(alloc, p.sections.as_slice())?;
    let labels = first_labels(alloc, p.labels.as_slice())?;
    Ok(first_found(p, &named, &labels))
}

fn is_any_by_name(starts: &[StartAt]) -> bool
    ensures { result ≡ list_any is_by_name starts.now }
{
    starts.iter().any(|start| is_by_name(start))
}

fn is_by_name(start: &StartAt) -> bool
    ensures { result ≡ is_by_name start.now }
{
    matches!(start, StartAt::Named(_))
}

/// The first entry in the root, where none is given by its name.
fn first_place(p: &Program) -> Option<Point>
    requires { list_any is_by_name p.now.starts ≡ false }
    ensures { option_map seen result ≡ slice_get (filter_map (start_point p.now) p.now.starts) 0 }
{
    for start in p.starts.as_slice() {
        if let Some(point) = place_in_root(p, *start) {
            return Some(point);
        }
    }
    None
}

/// The place of an entry that is in the root and not given by its name.
fn place_in_root(p: &Program, start: StartAt) -> Option<Point>
    ensures { is_by_name start ≡ false → option_map seen result ≡ start_point p.now start }
{
    match start {
        StartAt::At(section, offset) => in_root(p, Point { section, offset }),
        StartAt::Named(_) => None,
    }
}

/// The first label of each name.
fn first_labels(alloc: Global, labels: &[Label]) -> Result<HashMap<Name, Label>, AllocError>
    ensures { IfOk result (λ m. HoldsLabels m labels.now) }
{
    let mut firsts = HashMap::with_capacity(alloc, labels.len())?;
    for done in 0..labels.len() {
        let x = labels[labels.len() - 1 - done];
        let _ = firsts.insert(x.name, x)?;
    }
    Ok(firsts)
}

/// The first entry in the root, by the maps.
fn first_found(
    p: &Program,
    named: &HashMap<Name, usize>,
    labels: &HashMap<Name, Label>,
) -> Option<Point>
    requires sound { IsSoundProgram p.now }
    requires sections { HoldsSections named.now p.now.sections }
    requires labels { HoldsLabels labels.now p.now.labels }
    ensures { option_map seen result ≡ slice_get (filter_map (start_point p.now) p.now.starts) 0 }
{
    for start in p.starts.as_slice() {
        if let Some(point) = start_point(p, named, labels, *start) {
            return Some(point);
        }
    }
    None
}

fn start_point(
    p: &Program,
    named: &HashMap<Name, usize>,
    labels: &HashMap<Name, Label>,
    start: StartAt,
) -> Option<Point>
    requires sound { IsSoundProgram p.now }
    requires sections { HoldsSections named.now p.now.sections }
    requires labels { HoldsLabels labels.now p.now.labels }
    ensures { option_map seen result ≡ start_point p.now start }
{
    match start {
        StartAt::At(section, offset) => in_root(p, Point { section, offset }),
        StartAt::Named(name) => match listed(p, named, labels, &name) {
            Some(point) => in_root(p, point),
            None => None,
        },
    }
}

/// The place of a name, by the maps.
fn listed(
    p: &Program,
    named: &HashMap<Name, usize>,
    labels: &HashMap<Name, Label>,
    name: &Name,
) -> Option<Point>
    requires sound { IsSoundProgram p.now }
    requires sections { HoldsSections named.now p.now.sections }
    requires labels { HoldsLabels labels.now p.now.labels }
    ensures { option_map seen result ≡ option_or (section_point p.now name.now) (label_point p.now name.now) }
{
    match section_listed(p, named, name) {
        Some(at) => Some(Point {
            section: at as u32,
            offset: 0,
        }),
        None => label_listed(p, labels, name),
    }
}

fn section_listed(p: &Program, named: &HashMap<Name, usize>, name: &Name) -> Option<usize>
    requires { HoldsSections named.now p.now.sections }
    ensures { result ≡ position (is_section_named name.now) p.now.sections }
{
    named.get(name).copied()
}

fn label_listed(p: &Program, labels: &HashMap<Name, Label>, name: &Name) -> Option<Point>
    requires { HoldsLabels labels.now p.now.labels }
    ensures { option_map seen result ≡ label_point p.now name.now }
{
    match label_of(p, labels, name) {
        Some(x) => Some(Point {
            section: x.section,
            offset: x.offset,
        }),
        None => None,
    }
}

fn label_of(p: &Program, labels: &HashMap<Name, Label>, name: &Name) -> Option<Label>
    requires { HoldsLabels labels.now p.now.labels }
    ensures { result ≡ find (λ x. name_eq x.name name.now) p.now.labels }
{
    labels.get(name).copied()
}

fn first_of_root(p: &Program) -> Point
    requires { IsSoundProgram p.now }
    ensures { seen result ≡ first_of_root p.now }
{
    match first_in_root(p.sections.as_slice()) {
        Some(at) => Point {
            section: at as u32,
            offset: 0,
        },
        None => Point {
            section: 0,
            offset: 0,
        },
    }
}

fn first_in_root(sections: &[Section]) -> Option<usize>
    ensures { result ≡ position (λ x. x.segment == 1) sections.now }
{
    sections.iter().position(|x| x.segment == 1)
}

/// Where an alias enters: at its name if that is defined in the root, and else at `main`. Linear in
/// sections and labels.
#[tactic(auto, unfolding(linking_model::specs::Points::alias_point))]
pub fn alias_point(p: &Program, main: Point, name: &Name) -> Point
    requires { IsSoundProgram p.now }
    ensures { seen result ≡ alias_point p.now (seen main) name.now }
{
    match point_of(p, name) {
        Some(point) => point,
        None => main,
    }
}

/// The place of a name that is defined in the root.
fn point_of(p: &Program, name: &Name) -> Option<Point>
    requires { IsSoundProgram p.now }
    ensures { option_map seen result ≡ point_of p.now name.now }
{
    match defined(p, name) {
        Some(point) => in_root(p, point),
        None => None,
    }
}

fn defined(p: &Program, name: &Name) -> Option<Point>
    requires { IsSoundProgram p.now }
    ensures { option_map seen result ≡ option_or (section_point p.now name.now) (label_point p.now name.now) }
{
    match section_named(p.sections.as_slice(), name) {
        Some(at) => Some(Point {
            section: at as u32,
            offset: 0,
        }),
        None => label_named(p.labels.as_slice(), name),
    }
}

fn section_named(sections: &[Section], name: &Name) -> Option<usize>
    ensures { result ≡ position (is_section_named name.now) sections.now }
{
    sections.iter().position(|x| is_named(x, name))
}

pub(crate) fn is_named(x: &Section, name: &Name) -> bool
    ensures { result ≡ is_section_named name.now x.now }
{
    x.kind != SecKind::Pc && x.name == *name
}

fn label_named(labels: &[Label], name: &Name) -> Option<Point>
    ensures { option_map seen result ≡ option_map (λ x. record { section = x.section; offset = x.offset }) (find (λ x. name_eq x.name name.now) labels.now) }
{
    match labels.iter().find(|x| x.name == *name) {
        Some(x) => Some(Point {
            section: x.section,
            offset: x.offset,
        }),
        None => None,
    }
}

/// The place, if it is in the root.
fn in_root(p: &Program, point: Point) -> Option<Point>
    ensures { option_map seen result ≡ in_root p.now (seen point) }
{
    if segment_of(p.sections.as_slice(), point.section) == 1 {
        Some(point)
    } else {
        None
    }
}

fn segment_of(sections: &[Section], at: u32) -> u8
    ensures { result ≡ option_map_or (λ x. x.segment) (slice_get sections.now at) 0 }
{
    match sections.get(at as usize) {
        Some(x) => x.segment,
        None => 0,
    }
}
