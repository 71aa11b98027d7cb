//! Members placed in areas and in one block, and fetched record by record, some reads of which fail.
ghost use Rattle.std.specs.Prelude.{IfOk};
ghost use Rattle.prog_fetch.specs.Given.{IsPlacementOf};

use crate::bytes::bytes_of;
use le_bytes::Name;
use le_io::MemStore;
use lib_stream::FailingRecords;
use pds_lib::{Entry, Library};
use prog_fetch::{
    Area, FetchFault, Fetched, Placement, ScatterFault, fetch, place_block, place_scatter,
};
use std::alloc::Global;
use std::test::Fail;

/// A library of sections A of 8 bytes, with the address of B at 4, and B of 16 bytes, for scatter loading.
const SCATTERED: &str =
    "d7c4e2c9d4c1c7c5 01e40000 00000001 00000007 0026 TEMPNAME 00000106 040000001800000000000001 ffffffffffffffff 00000000 | 0028 2000000000010020 A 0000000001000008 B 0000000801000010 0010 1001000000010008 0000000000000008 000c 1002000000010004 00010002 0014 01000000000000040600000000000008 00010008 0008 0000000000000008 0018 0e000000000800000000000000000000 000200010c000004 0000";

fn empty_store(alloc: Global) -> MemStore {
    MemStore::new(alloc, Vec::new(alloc), Vec::new(alloc))
}

fn block_at(origin: u32, e: &Entry) -> Result<Placement, Fail>
    ensures { IfOk result (IsPlacementOf e.now) }
{
    match place_block(origin, e.length) {
        Ok(placement) => Ok(placement),
        Err(_) => Err("an origin".into()),
    }
}

/// What a fetch of the member of an image in a block answers, over records of which this call fails.
fn fetched_at(
    alloc: Global,
    image: &str,
    origin: u32,
    call: u32,
) -> Result<Result<Fetched, FetchFault>, Fail> {
    let library = Library::read(alloc, bytes_of(alloc, image)?)?;
    let entry = library.entries().first().ok_or("an entry")?;
    let placement = block_at(origin, entry)?;
    let mut store = empty_store(alloc);
    let mut records = FailingRecords::new(library.records(entry), call);
    Ok(fetch(alloc, entry, &mut store, &mut records, &placement))
}

#[test]
fn sections_stand_in_two_areas(rt: HostRuntime) -> Result<(), Fail> {
    let alloc = rt.alloc();
    let areas = [
        Area {
            from: 0x1000,
            to: 0x1008,
        },
        Area {
            from: 0x4000,
            to: 0x4010,
        },
    ];
    let library = Library::read(alloc, bytes_of(alloc, SCATTERED)?)?;
    let entry = library.entries().first().ok_or("an entry")?;
    let mut store = empty_store(alloc);
    let mut records = library.records(entry);
    let short = place_scatter(alloc, entry, &mut store, &mut records, &areas[..1]);
    assert_eq!(rt;
        short.err(),
        Some(ScatterFault::NoStorage(Name(*b"\xC2@@@@@@@")))
    );
    let placement = place_scatter(alloc, entry, &mut store, &mut records, &areas)?;
    let fetched = fetch(alloc, entry, &mut store, &mut records, &placement)?;
    let first = fetched.parts.get(0).ok_or("a part")?;
    assert_eq!(rt; first.origin, 0x1000);
    assert_eq!(rt;
        first.bytes.as_slice(),
        [0, 0, 0, 0, 0, 0, 0x40, 0].as_slice()
    );
    let second = fetched.parts.get(1).ok_or("a part")?;
    assert_eq!(rt; second.origin, 0x4000);
    assert_eq!(rt; second.bytes.as_slice(), [0; 16].as_slice());
    assert_eq!(rt; fetched.shifts.as_slice(), [0x1000, 0x3FF8].as_slice());
    Ok(())
}

#[test]
fn each_failing_read_of_a_record_is_a_read_fault(rt: HostRuntime) -> Result<(), Fail> {
    // Four records, each read once.
    for call in 0..6 {
        let wanted = match call {
            1..=4 => Some(FetchFault::ReadFault),
            _ => None,
        };
        assert_eq!(rt;
            fetched_at(rt.alloc(), "$library", 0x1000, call)?.err(),
            wanted,
            "call {call}"
        );
    }
    Ok(())
}
