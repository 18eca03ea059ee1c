//! The motions of live numbers.

use kin_motion::{Motion, Motions};
use std::test::Fail;

#[test]
fn a_number_is_live_from_set_to_clear(rt: HostRuntime) -> Result<(), Fail> {
    let mut motions = Motions::new(rt.alloc(), 1)?;
    assert!(rt; motions.get(1).is_none());
    motions.set(1, Motion::new(10, 0, -1, 0));
    assert!(rt; matches!(motions.get(1), Some(m) if m.x() == 10 && m.u() == -1));
    assert!(rt; motions.get(0).is_none());
    motions.clear(1);
    assert!(rt; motions.get(1).is_none());
    Ok(())
}
