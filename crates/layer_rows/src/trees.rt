//! Trees by their answers, and each limit from both sides.
use le_bytes::Name;
use seg_tree::{SegTree, TreeFault};
use std::test::Fail;

fn named(text: &str) -> Name {
    Name::from_text(text).unwrap_or(Name::BLANK)
}

#[test]
fn a_tree_answers_by_its_statements(rt: HostRuntime) -> Result<(), Fail> {
    let mut tree = SegTree::root(rt.alloc())?;
    // Segments 2 and 4 begin at A, 3 below 2, 5 in a region of its own, 6 below it, 7 beside 3.
    let statements = [
        ("A", false, 2),
        ("B", false, 3),
        ("A", false, 4),
        ("R", true, 5),
        ("C", false, 6),
        ("B", false, 7),
    ];
    for (name, region, number) in statements {
        assert!(rt; tree.overlay(rt.alloc(), &named(name), region) == Ok(number));
    }
    assert_eq!(rt; tree.count(), 7);
    assert_eq!(rt; tree.current(), 7);
    let parents = [
        (1, None),
        (2, Some(1)),
        (3, Some(2)),
        (4, Some(1)),
        (5, Some(1)),
        (6, Some(5)),
        (7, Some(2)),
        (8, None),
    ];
    for (segment, parent) in parents {
        assert!(rt; tree.parent(segment) == parent);
    }
    for (segment, region) in [(1, 1), (4, 1), (5, 2), (6, 2), (7, 1), (8, 0)] {
        assert_eq!(rt; tree.region(segment), region);
    }
    for (a, b, common) in [
        (3, 7, 2),
        (7, 3, 2),
        (3, 4, 1),
        (6, 5, 5),
        (6, 3, 1),
        (3, 3, 3),
        (9, 3, 1),
        (3, 0, 1),
    ] {
        assert_eq!(rt; tree.common(a, b), common);
    }
    for (a, b, on) in [
        (1, 7, true),
        (2, 7, true),
        (7, 2, false),
        (4, 7, false),
        (5, 6, true),
        (1, 9, false),
    ] {
        assert_eq!(rt; tree.on_path(a, b), on);
    }
    Ok(())
}

#[test]
fn a_region_name_is_used_once_and_a_fifth_region_is_refused(rt: HostRuntime) -> Result<(), Fail> {
    let mut tree = SegTree::root(rt.alloc())?;
    for (name, number) in [("A", 2), ("B", 3), ("C", 4)] {
        assert!(rt; tree.overlay(rt.alloc(), &named(name), true) == Ok(number));
    }
    assert_eq!(rt; tree.region(4), 4);
    assert!(rt;
        tree.overlay(rt.alloc(), &named("A"), true) == Err(TreeFault::RegionNameUsed(named("A")))
    );
    assert!(rt; tree.overlay(rt.alloc(), &named("D"), true) == Err(TreeFault::TooManyRegions(5)));
    assert_eq!(rt; tree.count(), 4);
    assert!(rt; tree.overlay(rt.alloc(), &named("D"), false) == Ok(5));
    assert_eq!(rt; tree.region(5), 4);
    Ok(())
}

#[test]
fn there_are_255_segments_and_no_more(rt: HostRuntime) -> Result<(), Fail> {
    let mut tree = SegTree::root(rt.alloc())?;
    for number in 2..=255u8 {
        assert!(rt; tree.overlay(rt.alloc(), &named("A"), false) == Ok(number));
    }
    assert!(rt;
        tree.overlay(rt.alloc(), &named("A"), false) == Err(TreeFault::TooManySegments(256))
    );
    assert!(rt;
        tree.overlay(rt.alloc(), &named("B"), true) == Err(TreeFault::TooManySegments(256))
    );
    assert_eq!(rt; tree.count(), 255);
    assert_eq!(rt; tree.common(254, 255), 1);
    Ok(())
}
