//! Printed moments.

use kin_instant::ratio::ratio;
use kin_instant::roots::Roots;
use kin_instant::solve::roots;
use kin_num::{Instant, Moment, NoMemory, Phase, Poly};
use kin_print::put_moment;
use std::alloc::Global;
use std::process::Abort;
use std::test::Fail;

/// Both roots of a quadratic that has two, or twice 0.
pub fn both_roots(p: &Poly) -> (Instant, Instant) {
    match roots(p) {
        Roots::Two(lesser, greater) => (lesser, greater),
        _ => (ratio(0, 1), ratio(0, 1)),
    }
}

/// A row of a table: a moment and its text.
type Row = (Instant, Phase, &'static [u8]);

/// Each moment has to be printed as its row says.
fn are_printed(rt: &impl Abort, alloc: Global, rows: &[Row]) -> Result<(), NoMemory> {
    let mut out = Vec::new(alloc);
    for (at, phase, text) in rows {
        out.clear();
        let moment = Moment {
            at: *at,
            phase: *phase,
        };
        put_moment(&mut out, &moment)?;
        assert!(rt; out.as_slice() == *text, "{:?}", moment);
    }
    Ok(())
}

#[test]
fn fractions_and_roots_read_as_written(rt: HostRuntime) -> Result<(), Fail> {
    let (_, greater) = both_roots(&Poly::new(1, 0, -2));
    let (lesser, _) = both_roots(&Poly::new(536870912, -2147483648, 1));
    let (_, last) = both_roots(&Poly::new(1, -2147483648, 0));
    let rows: [Row; 5] = [
        (ratio(5, 1), Phase::At, b"5"),
        (ratio(7, 3), Phase::At, b"7/3"),
        (greater, Phase::At, b"r(1,0,-2,hi)"),
        (lesser, Phase::At, b"r(536870912,-2147483648,1,lo)"),
        (last, Phase::At, b"2147483648"),
    ];
    are_printed(&rt, rt.alloc(), &rows)?;
    Ok(())
}

#[test]
fn just_after_is_marked(rt: HostRuntime) -> Result<(), Fail> {
    let at = ratio(5, 1);
    let rows: [Row; 2] = [(at, Phase::At, b"5"), (at, Phase::After, b"5+")];
    are_printed(&rt, rt.alloc(), &rows)?;
    Ok(())
}
