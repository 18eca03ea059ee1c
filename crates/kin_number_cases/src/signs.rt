//! The signs of polynomials at an instant and just after it.

ghost use Rattle.std.specs.Prelude.{◌≡◌, ◌<◌};

use crate::instants::{instant, poly};
use kin_instant::sign::sign_at;
use kin_num::{Moment, Phase, Poly, Sign, Steps};
use std::marker::Brand;
use std::sync::ledger::{Blank, Ledger};

fn sign_from<L: Ledger>(p: &Poly, m: &Moment, blank: Blank) -> Sign
    requires name { blank.name ≡ L.name }
    requires parts { blank.parts ≡ L.parts }
    requires some { 0 < L.parts }
{
    let mut steps = Steps::<L>::open(blank);
    sign_at(p, m, &mut steps)
}

fn sign(p: [i64; 3], w: [i64; 4], phase: Phase) -> Option<Sign> {
    let m = Moment {
        at: instant(w)?,
        phase,
    };
    Some(sign_from::<Brand>(&poly(p)?, &m, Blank::new(1)))
}

#[test]
fn signs_at_and_just_after(rt: HostRuntime) {
    let (square, line, zero) = ([1, 0, -2], [0, 1, -1], [0, 0, 0]);
    let (lesser, greater) = ([1, 0, -2, 0], [1, 0, -2, 1]);
    for (p, w, phase, want) in [
        (square, greater, Phase::At, Sign::Zero),
        (square, greater, Phase::After, Sign::Plus),
        (square, lesser, Phase::At, Sign::Zero),
        (square, lesser, Phase::After, Sign::Minus),
        (square, [0, 7, 5, 0], Phase::At, Sign::Minus),
        (line, greater, Phase::At, Sign::Plus),
        (zero, greater, Phase::At, Sign::Zero),
        (zero, lesser, Phase::After, Sign::Zero),
    ] {
        assert_eq!(rt;
            sign(p, w, phase),
            Some(want),
            "of {p:?} at {w:?}, {phase:?}"
        );
    }
}
