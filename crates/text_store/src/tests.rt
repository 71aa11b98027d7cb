//! What is set is read, what is lent is kept, and the rest stays, through the trait alone.
use crate::{TextKeeper, WholeText};
use std::test::Fail;

#[test]
fn what_is_set_is_read(rt: HostRuntime) -> Result<(), Fail> {
    let mut text = WholeText::new(rt.alloc(), &[2, 4])?;
    text.reserve(rt.alloc(), 1, 0, 4)?;
    text.set(rt.alloc(), 1, 1, &[0xC1, 0xC2])?;
    text.set(rt.alloc(), 1, 2, &[0xC3])?;
    let mut found = [0xFF; 4];
    text.read(1, 0, &mut found);
    assert_eq!(rt; found, [0, 0xC1, 0xC3, 0]);
    let part = text.part_mut(1, 2, 1);
    assert_eq!(rt; part.len(), 1);
    Ok(())
}
