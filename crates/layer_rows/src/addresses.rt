//! Which sections stand in a tree, and where segments begin in three regions.
ghost use Rattle.std.specs.Prelude.{◌≡◌, ◌<◌, IfOk};
ghost use Rattle.sym_mod.specs.Sound.{IsSoundProgram};

use addr_assign::{are_in_tree, assign};
use esd_merge::Merged;
use le_bytes::{Items, Name};
use obj_read::read_module;
use seg_tree::SegTree;
use std::alloc::Global;
use std::test::Fail;
use sym_mod::{Places, Program, SecKind, Section, Tables};

/// The ESD and END card of a section of so many bytes.
fn deck(letter: u8, length: u8) -> [[u8; 80]; 2] {
    let mut cards = [[0x40; 80]; 2];
    let esd = [
        2, 0xC5, 0xE2, 0xC4, 0x40, 0x40, 0x40, 0x40, 0x40, 0x40, 0, 16, 0x40, 0x40, 0, 1, letter,
        0x40, 0x40, 0x40, 0x40, 0x40, 0x40, 0x40, 0, 0, 0, 0, 0x40, 0, 0, length,
    ];
    for (place, byte) in cards[0].iter_mut().zip(&esd) {
        *place = *byte;
    }
    for (place, byte) in cards[1].iter_mut().zip(&[2, 0xC5, 0xD5, 0xC4]) {
        *place = *byte;
    }
    cards
}

/// A section by its letter, its segment and its length in bytes.
type Told = (u8, u8, u8);

/// The program of these sections, each in its segment.
fn program(alloc: Global, sections: &[Told]) -> Result<Program, Fail>
    ensures { IfOk result IsSoundProgram }
{
    let mut merged = Merged::new(alloc);
    for (letter, segment, length) in sections {
        add_section(alloc, &mut merged, *letter, *segment, *length)?;
    }
    Ok(merged.program(alloc)?)
}

fn add_section(
    alloc: Global,
    merged: &mut Merged,
    letter: u8,
    segment: u8,
    length: u8,
) -> Result<(), Fail> {
    if segment == 0 {
        return Err("a segment".into());
    }
    match read_module(alloc, &deck(letter, length)) {
        Ok((module, _)) => match merged.add(alloc, module, segment) {
            Ok(()) => Ok(()),
            Err(_) => Err("a module that merges".into()),
        },
        Err(_) => Err("a deck".into()),
    }
}

/// A tree by its statements: the point of each, and whether it begins a region.
fn tree(alloc: Global, statements: &[(&str, bool)]) -> Result<SegTree, Fail> {
    let mut tree = SegTree::root(alloc)?;
    for (point, region) in statements {
        let point = Name::from_text(point).ok_or("a name")?;
        let _ = tree.overlay(alloc, &point, *region);
    }
    Ok(tree)
}

/// Whether a section in this segment stands in a tree of four.
fn is_inside(alloc: Global, segment: u8) -> Result<bool, Fail> {
    // Segments 2 and 4 below the root, 3 below 2.
    let tree = tree(alloc, &[("A", false), ("B", false), ("A", false)])?;
    let mut program = program(alloc, &[(0xC1, 1, 8)])?;
    if program.sections.len() != 1 {
        return Err("one section".into());
    }
    let moved = Section {
        name: Name::BLANK,
        kind: SecKind::Pc,
        rank: 0,
        segment,
        users: Items::new(alloc),
        length: 8,
    };
    program.sections.set(0, moved);
    Ok(are_in_tree(&program, &tree))
}

#[test]
fn a_section_outside_the_tree_is_told(rt: HostRuntime) -> Result<(), Fail> {
    for (segment, inside) in [(0, false), (1, true), (4, true), (5, false)] {
        assert_eq!(rt;
            is_inside(rt.alloc(), segment)?,
            inside,
            "segment {segment}"
        );
    }
    Ok(())
}

/// The addresses of a program without entries in tables.
fn addresses(alloc: Global, program: &Program, tree: &SegTree) -> Result<Places, Fail>
    requires { IsSoundProgram program.now }
{
    if !are_in_tree(program, tree) {
        return Err("a section outside the tree".into());
    }
    let tables = Tables {
        entries: Items::new(alloc),
    };
    match assign(alloc, program, tree, &tables) {
        Ok(places) => Ok(places),
        Err(_) => Err("no addresses".into()),
    }
}

#[test]
fn segments_begin_past_parents_and_lower_regions(rt: HostRuntime) -> Result<(), Fail> {
    let alloc = rt.alloc();
    // Segments 2 and 4 below the root, 3 below 2, 5 in region 2, 6 below 5, 7 in region 3.
    let tree = tree(
        alloc,
        &[
            ("A", false),
            ("B", false),
            ("A", false),
            ("R", true),
            ("C", false),
            ("S", true),
        ],
    )?;
    assert_eq!(rt; tree.count(), 7);
    // The segment table has 36 bytes, so that the root ends at 40 + 60.
    let program = program(
        alloc,
        &[
            (0xC1, 1, 60),
            (0xC2, 2, 20),
            (0xC3, 3, 8),
            (0xC4, 4, 41),
            (0xC5, 5, 16),
            (0xC6, 6, 5),
            (0xC7, 7, 1),
        ],
    )?;
    let places = addresses(alloc, &program, &tree)?;
    assert_eq!(rt;
        places.origins.as_slice(),
        [0, 104, 128, 104, 152, 168, 176].as_slice()
    );
    assert_eq!(rt;
        places.ends.as_slice(),
        [100, 124, 136, 145, 168, 173, 177].as_slice()
    );
    assert_eq!(rt;
        places.sections.as_slice(),
        [40, 104, 128, 104, 152, 168, 176].as_slice()
    );
    assert_eq!(rt; places.length, 177);
    Ok(())
}
