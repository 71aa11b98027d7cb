//! Numbers of fields at their edges.
use relocate::{Shift, patch};
use std::test::Fail;
use sym_mod::Kind;

fn plus(from: u32, to: u32) -> Shift {
    Shift {
        minus: false,
        from,
        to,
    }
}

#[test]
fn addresses_move_with_their_symbols(rt: HostRuntime) -> Result<(), Fail> {
    let less = Shift {
        minus: true,
        from: 0,
        to: 0x18,
    };
    let cases = [
        ([0u8, 0, 0, 4], plus(0, 0x1000), [0u8, 0, 0x10, 4]),
        ([0, 0, 1, 4], plus(0x100, 0x1000), [0, 0, 0x10, 4]),
        ([0, 0, 0, 8], less, [0xFF, 0xFF, 0xFF, 0xF0]),
        ([0xFF, 0xFF, 0xFF, 0xFC], plus(0, 8), [0, 0, 0, 4]),
    ];
    for (stored, shift, wanted) in cases {
        let mut field = stored;
        patch(&mut field, Kind::Address, &[shift]);
        assert_eq!(rt; field, wanted);
    }
    Ok(())
}

#[test]
fn short_fields_are_cut_and_calls_replaced(rt: HostRuntime) {
    let mut three = [0xFF, 0xFF, 0xFC];
    patch(&mut three, Kind::Address, &[plus(0, 8)]);
    assert_eq!(rt; three, [0, 0, 4]);
    patch(&mut three, Kind::Branch, &[plus(0, 0x0102_0304)]);
    assert_eq!(rt; three, [2, 3, 4]);
    let mut one = [7];
    patch(&mut one, Kind::Displacement, &[plus(0, 5)]);
    assert_eq!(rt; one, [5]);
}
