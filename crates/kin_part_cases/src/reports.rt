//! Reports of facts.

use kin_motion::{Delta, Fact, Form, Placed};
use kin_num::Sign;
use std::test::Fail;

#[test]
fn a_fact_is_reported_on_its_side(rt: HostRuntime) -> Result<(), Fail> {
    let form = Form::Turn { i: 0, j: 1, k: 2 };
    let fact = Fact {
        form,
        sign: Sign::Minus,
    };
    let mut delta = Delta::new(rt.alloc());
    delta.report_dropped(Placed { part: 2, fact })?;
    delta.report_born(Placed { part: 3, fact })?;
    assert!(rt; delta.dropped.len() == 1 && delta.dropped[0].part == 2);
    assert!(rt; delta.born.len() == 1 && delta.born[0].part == 3);
    Ok(())
}
