//! Legs are planned, come and are dropped, and are compared with what was worked out by hand.

ghost use Rattle.std.specs.Prelude.{◌≡◌};

use kin_legs::{Leg, Legs};
use kin_motion::Motion;
use kin_num::NoMemory;
use std::test::Fail;

/// What is done to the legs.
#[derive(Clone, Copy, Debug)]
enum Step {
    /// A leg is planned, at an instant and of a number.
    Plan(u32, u32),
    /// All legs of a number are dropped.
    Drop(u32),
    /// The first leg is taken away.
    Take,
}

/// Plans a leg, if its number is one of four and it begins after all others of that number.
fn plan(legs: &mut Legs, at: u32, no: u32) -> Result<(), NoMemory>
    requires { legs.old.size ≡ 2 }
    ensures { legs.new.size ≡ 2 }
{
    if no >= 4 || at >= 1 << 31 {
        return Ok(());
    }
    let m = Motion::new(0, 0, 1, 0);
    match legs.last(no) {
        Some(last) if last.at >= at => Ok(()),
        _ => legs.add(Leg { at, no, m }),
    }
}

fn go(legs: &mut Legs, step: Step) -> Result<(), NoMemory>
    requires { legs.old.size ≡ 2 }
    ensures { legs.new.size ≡ 2 }
{
    match step {
        Step::Plan(at, no) => plan(legs, at, no)?,
        Step::Drop(no) => legs.drop_of(no),
        Step::Take => {
            let _ = legs.take_first();
        }
    }
    Ok(())
}

/// The instant and the number of a leg.
fn place_of(leg: Option<Leg>) -> Option<(u32, u32)> {
    match leg {
        Some(leg) => Some((leg.at, leg.no)),
        None => None,
    }
}

#[test]
fn legs_come_by_instant_and_number(rt: HostRuntime) -> Result<(), Fail> {
    let mut legs = Legs::new(rt.alloc(), 2)?;
    for (step, first, last_of_0, last_of_1) in [
        (Step::Take, None, None, None),
        (Step::Plan(5, 1), Some((5, 1)), None, Some((5, 1))),
        (Step::Plan(5, 0), Some((5, 0)), Some((5, 0)), Some((5, 1))),
        (Step::Plan(9, 1), Some((5, 0)), Some((5, 0)), Some((9, 1))),
        (Step::Plan(0, 3), Some((0, 3)), Some((5, 0)), Some((9, 1))),
        (Step::Take, Some((5, 0)), Some((5, 0)), Some((9, 1))),
        (
            Step::Plan(2_147_483_647, 0),
            Some((5, 0)),
            Some((2_147_483_647, 0)),
            Some((9, 1)),
        ),
        (
            Step::Take,
            Some((5, 1)),
            Some((2_147_483_647, 0)),
            Some((9, 1)),
        ),
        (
            Step::Plan(7, 3),
            Some((5, 1)),
            Some((2_147_483_647, 0)),
            Some((9, 1)),
        ),
        (Step::Drop(1), Some((7, 3)), Some((2_147_483_647, 0)), None),
        (Step::Drop(2), Some((7, 3)), Some((2_147_483_647, 0)), None),
        (
            Step::Take,
            Some((2_147_483_647, 0)),
            Some((2_147_483_647, 0)),
            None,
        ),
        (
            Step::Plan(6, 1),
            Some((6, 1)),
            Some((2_147_483_647, 0)),
            Some((6, 1)),
        ),
        (Step::Drop(0), Some((6, 1)), None, Some((6, 1))),
        (Step::Take, None, None, None),
    ] {
        go(&mut legs, step)?;
        assert_eq!(rt; place_of(legs.first()), first, "{step:?}");
        assert_eq!(rt; place_of(legs.last(0)), last_of_0, "{step:?}");
        assert_eq!(rt; place_of(legs.last(1)), last_of_1, "{step:?}");
    }
    Ok(())
}
