//! Printed failures.

use crate::moments::both_roots;
use kin_fail::Failure;
use kin_instant::ratio::ratio;
use kin_motion::form::Form;
use kin_num::{Instant, Moment, NoMemory, Phase, Poly, Sign};
use kin_print::put_failure;
use std::alloc::Global;
use std::test::Fail;

/// A row of a table: when, of which part, and which form fails, with its sign before and now.
type Row = (Instant, Phase, u32, Form, (Sign, Sign));

const MEET: (Sign, Sign) = (Sign::Plus, Sign::Zero);

const PASS: (Sign, Sign) = (Sign::Zero, Sign::Minus);

const BEGIN: (Sign, Sign) = (Sign::Zero, Sign::Plus);

fn line(i: u32, j: u32) -> Form {
    Form::Line {
        dx: 1,
        dy: 0,
        off: 0,
        i,
        j,
    }
}

/// The lines of failures of one structure.
fn lines(alloc: Global, structure: u32, rows: &[Row]) -> Result<Vec<u8>, NoMemory> {
    let mut out = Vec::new(alloc);
    for (at, phase, part, form, (before, after)) in rows {
        let moment = Moment {
            at: *at,
            phase: *phase,
        };
        let failure = Failure {
            structure,
            part: *part,
            form: *form,
            before: *before,
            after: *after,
        };
        put_failure(&mut out, &moment, &failure)?;
    }
    Ok(out)
}

#[test]
fn points_meet_and_pass(rt: HostRuntime) -> Result<(), Fail> {
    let five = ratio(5, 1);
    let rows = [
        (five, Phase::At, 0, line(0, 1), MEET),
        (five, Phase::At, 0, line(1, 2), MEET),
        (five, Phase::After, 0, line(0, 1), PASS),
        (five, Phase::After, 0, line(1, 2), PASS),
    ];
    let text = b"! 5 0/0 line(1,0) 0 1 + 0\n\
        ! 5 0/0 line(1,0) 1 2 + 0\n\
        ! 5+ 0/0 line(1,0) 0 1 0 -\n\
        ! 5+ 0/0 line(1,0) 1 2 0 -\n";
    assert!(rt; lines(rt.alloc(), 0, &rows)?.as_slice() == text.as_slice());
    Ok(())
}

#[test]
fn a_turn_is_0_at_an_irrational_instant(rt: HostRuntime) -> Result<(), Fail> {
    let (zero, one) = (ratio(0, 1), ratio(1, 1));
    let (_, root) = both_roots(&Poly::new(1, 0, -2));
    let turn = Form::Turn { i: 0, j: 1, k: 2 };
    let end = (Sign::Minus, Sign::Zero);
    let rows = [
        (zero, Phase::After, 4, line(0, 1), BEGIN),
        (zero, Phase::After, 5, line(0, 1), BEGIN),
        (one, Phase::At, 2, line(1, 2), MEET),
        (one, Phase::At, 3, line(1, 2), MEET),
        (one, Phase::After, 2, line(1, 2), PASS),
        (one, Phase::After, 3, line(1, 2), PASS),
        (root, Phase::At, 2, turn, end),
        (root, Phase::At, 3, turn, end),
    ];
    let text = b"! 0+ 0/4 line(1,0) 0 1 0 +\n\
        ! 0+ 0/5 line(1,0) 0 1 0 +\n\
        ! 1 0/2 line(1,0) 1 2 + 0\n\
        ! 1 0/3 line(1,0) 1 2 + 0\n\
        ! 1+ 0/2 line(1,0) 1 2 0 -\n\
        ! 1+ 0/3 line(1,0) 1 2 0 -\n\
        ! r(1,0,-2,hi) 0/2 turn 0 1 2 - 0\n\
        ! r(1,0,-2,hi) 0/3 turn 0 1 2 - 0\n";
    assert!(rt; lines(rt.alloc(), 0, &rows)?.as_slice() == text.as_slice());
    Ok(())
}

#[test]
fn each_form_has_its_name_and_points(rt: HostRuntime) -> Result<(), Fail> {
    let at = ratio(7, 3);
    let forms = [
        Form::Slope {
            i: 4095,
            j: 1,
            k: 2,
            l: 3,
        },
        Form::Dist {
            i: 0,
            j: 1,
            k: 0,
            l: 2,
        },
        Form::Line {
            dx: -16,
            dy: 16,
            off: -65536,
            i: 10,
            j: 9,
        },
        Form::Line {
            dx: 0,
            dy: 1,
            off: 7,
            i: 0,
            j: 1,
        },
    ];
    let signs = (Sign::Minus, Sign::Plus);
    let rows = forms.map(|form| (at, Phase::At, 32767, form, signs));
    let text = b"! 7/3 15/32767 slope 4095 1 2 3 - +\n\
        ! 7/3 15/32767 dist 0 1 0 2 - +\n\
        ! 7/3 15/32767 line(-16,16,-65536) 10 9 - +\n\
        ! 7/3 15/32767 line(0,1,7) 0 1 - +\n";
    assert!(rt; lines(rt.alloc(), 15, &rows)?.as_slice() == text.as_slice());
    Ok(())
}
