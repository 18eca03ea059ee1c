//! A kinetic sorted list.

use kin_list::KinList;
use std::test::Fail;

#[test]
fn a_mark_waits_for_the_next_settle(rt: HostRuntime) -> Result<(), Fail> {
    let mut list = KinList::new(rt.alloc(), 1, 0, 2)?;
    list.insert(3)?;
    assert_eq!(rt; list.items(), [].as_slice());
    assert_eq!(rt; list.swaps(), [].as_slice());
    assert_eq!(rt; list.place_of(3), None);
    Ok(())
}
