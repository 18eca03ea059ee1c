//! When a fact fails first.

ghost use Rattle.std.specs.Prelude.{◌≡◌, ◌<◌};

use crate::moments::moment;
use kin_fail::first_fail::first_fail;
use kin_instant::sign::sign_at;
use kin_motion::fact::Fact;
use kin_motion::form::Form;
use kin_num::Phase::{After, At};
use kin_num::{Moment, Poly, Sign, Steps};
use std::marker::Brand;
use std::sync::ledger::{Blank, Ledger};

/// The sign of a polynomial now, and the first failure of the fact that it has that sign. Only the
/// sign of the fact matters, and not its form.
fn failure_from<L: Ledger>(p: &Poly, now: &Moment, blank: Blank) -> (Sign, Option<Moment>)
    requires name { blank.name ≡ L.name }
    requires parts { blank.parts ≡ L.parts }
    requires some { 0 < L.parts }
{
    let mut steps = Steps::<L>::open(blank);
    let sign = sign_at(p, now, &mut steps);
    let form = Form::Turn { i: 0, j: 1, k: 2 };
    let fact = Fact { form, sign };
    (sign, first_fail(&fact, p, now, &mut steps))
}

#[test]
fn facts_fail_first(rt: HostRuntime) {
    let line = Poly::new(0, -2, 10);
    let square = Poly::new(1, -2, 1);
    let zero = Poly::new(0, 0, 0);
    let rows = [
        (line, moment(0, At), Sign::Plus, Some(moment(5, At))),
        (line, moment(5, At), Sign::Zero, Some(moment(5, After))),
        (line, moment(5, After), Sign::Minus, None),
        (square, moment(0, At), Sign::Plus, Some(moment(1, At))),
        (square, moment(1, At), Sign::Zero, Some(moment(1, After))),
        (square, moment(1, After), Sign::Plus, None),
        (zero, moment(0, At), Sign::Zero, None),
    ];
    for (p, now, sign, fails) in rows {
        let found = failure_from::<Brand>(&p, &now, Blank::new(1));
        assert_eq!(rt; found, (sign, fails), "{p:?} from {now:?} on");
    }
}
