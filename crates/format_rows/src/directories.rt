//! Headers and directories.
use crate::samples::{RECORDS, sample};
use le_bytes::{LibFault, Name};
use pds_directory::{LibStop, Span, ends_of, part, read_directory, read_records, run_length};
use std::alloc::Global;
use std::test::Fail;

/// The first fault of an image: of its directory, of its records, or of what its entries keep with them.
fn fault_of(alloc: Global, image: &[u8]) -> Option<LibStop> {
    match places_of(alloc, image) {
        Ok(_) => None,
        Err(stop) => Some(stop),
    }
}

fn places_of(alloc: Global, image: &[u8]) -> Result<Vec<Span>, LibStop> {
    let directory = read_directory(alloc, image)?;
    let places = read_records(alloc, &directory.head(), image)?;
    let ends = ends_of(alloc, places.as_slice())?;
    match directory.check(ends.as_slice()) {
        Ok(()) => Ok(places),
        Err(fault) => Err(LibStop::Bad(fault)),
    }
}

#[test]
fn sample_has_one_entry_and_five_records(rt: HostRuntime) -> Result<(), Fail> {
    let image = sample(rt.alloc())?;
    let front = image.get(..276).ok_or("a directory")?;
    let directory = read_directory(rt.alloc(), front)?;
    assert_eq!(rt; directory.head().records, 5);
    assert_eq!(rt; directory.entries().len(), 1);
    let listed = directory.entries().first().ok_or("an entry")?;
    assert!(rt; listed.entry.name == Name::from_text("TEMPNAME").ok_or("a name")?);
    assert_eq!(rt; (listed.entry.length, listed.entry.entry_section), (8, 1));
    assert!(rt; directory.owner(1) == Some(0));
    let places = places_of(rt.alloc(), image.as_slice())?;
    let third = places.get(2).ok_or("record 3")?;
    assert_eq!(rt; part(image.as_slice(), *third), &RECORDS[50..58]);
    assert_eq!(rt; run_length(places.as_slice()), 4);
    Ok(())
}

#[test]
fn one_changed_byte(rt: HostRuntime) -> Result<(), Fail> {
    let cases = [
        (8usize, 0x03u8, LibFault::BadHeader),
        (21, 0x01, LibFault::BadDirectory(1)),
        (32, 0x06, LibFault::BadEntry(1, 1)),
        (32, 0x02, LibFault::BadEntry(1, 1)),
        (33, 0x07, LibFault::BadEntry(1, 1)),
        (325, 0x07, LibFault::BadRecord(4)),
    ];
    for (at, byte, fault) in cases {
        let mut image = sample(rt.alloc())?;
        if let Some(place) = image.get_mut(at) {
            *place = byte;
        }
        assert!(rt; fault_of(rt.alloc(), image.as_slice()) == Some(LibStop::Bad(fault)));
    }
    Ok(())
}

#[test]
fn another_length(rt: HostRuntime) -> Result<(), Fail> {
    let cases = [
        (0usize, LibFault::BadHeader),
        (7, LibFault::BadHeader),
        (275, LibFault::BadHeader),
        (276, LibFault::BadRecord(1)),
        (300, LibFault::BadRecord(1)),
        (361, LibFault::BadRecord(5)),
        (363, LibFault::BadRecord(6)),
    ];
    for (length, fault) in cases {
        let mut image = sample(rt.alloc())?;
        image.push(0)?;
        image.truncate(length);
        assert!(rt; fault_of(rt.alloc(), image.as_slice()) == Some(LibStop::Bad(fault)));
    }
    Ok(())
}
