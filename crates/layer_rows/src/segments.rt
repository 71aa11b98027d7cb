//! The records of a short segment, byte by byte.
ghost use Rattle.std.specs.Prelude.{◌≡◌, ◌+◌, ◌^◌, ◌<◌};
ghost use Rattle.mod_segments.specs.Chunks.{IsItem};
ghost use Rattle.mod_segments.specs.Pieces.{last_byte};

use le_bytes::Bytes;
use load_recs::{Ends, RldItem};
use mod_segments::{PlacedPart, SegmentRecords, add_section, add_table, chunks};
use std::test::Fail;
use text_store::WholeText;

fn address_constant(address: u32) -> RldItem
    requires { address < 2 ^ 24 }
    ensures item { IsItem result }
    ensures end { last_byte result ≡ address + 3 }
{
    RldItem {
        r: 2,
        p: 1,
        flag: 0x0C,
        address,
    }
}

#[test]
fn numbers_are_said_once_in_a_chunk(rt: HostRuntime) -> Result<(), Fail> {
    let mut spare = Bytes::from_slice(rt.alloc(), &[1, 2, 3])?;
    let items = [address_constant(4), address_constant(8)];
    let (before, last) = chunks(rt.alloc(), &mut spare, &items)?.parted(rt.alloc());
    assert_eq!(rt; before.len(), 0);
    assert_eq!(rt;
        last.as_slice(),
        [0, 2, 0, 1, 0x0D, 0, 0, 4, 0x0C, 0, 0, 8].as_slice()
    );
    Ok(())
}

#[test]
fn pieces_become_records(rt: HostRuntime) -> Result<(), Fail> {
    let mut records = SegmentRecords::new(rt.alloc(), 2)?;
    let table = PlacedPart {
        number: 1,
        address: 0,
        length: 6,
        items: &[address_constant(2)],
    };
    add_table(rt.alloc(), &mut records, 4, table, &[1, 2, 3, 4, 5, 6])?;
    let section = PlacedPart {
        number: 2,
        address: 8,
        length: 2,
        items: &[],
    };
    let kept = WholeText::new(rt.alloc(), &[2])?;
    add_section(rt.alloc(), &mut records, 4, section, &kept, 0)?;
    let ends = Ends {
        segment: true,
        module: true,
    };
    let records = records.end(rt.alloc(), ends)?;
    let mut all = Vec::new(rt.alloc());
    for record in records.as_slice() {
        all.extend_from_slice(record.as_slice())?;
    }
    let wanted = [
        0x01, 0, 0, 0, 0, 0, 0, 4, 6, 0, 0, 0, 0, 0, 0, 4, 0, 1, 0, 4, 1, 2, 3, 4, // first piece
        0x01, 0, 0, 0, 0, 0, 0, 4, 6, 0, 0, 4, 0, 0, 0, 2, 0, 1, 0, 2, 5, 6, // second piece
        0x0F, 0, 0, 0, 0, 8, 0, 4, 6, 0, 0, 8, 0, 0, 0, 2, // its constant, with the section
        0, 2, 0, 1, 0x0C, 0, 0, 2, 0, 2, 0, 2, 0, 0,
    ];
    assert_eq!(rt; all.as_slice(), wanted.as_slice());
    Ok(())
}
