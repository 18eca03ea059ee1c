//! Scripts that are read.

use kin_motion::{Keep, Motion, Rect};
use kin_script::Command;
use kin_script::read::{ReadError, read};
use std::alloc::Global;
use std::process::Abort;
use std::test::Fail;

/// What a script says.
#[derive(Drop)]
struct Told<'a> {
    size: u32,
    keeps: &'a [Keep],
    journal: bool,
    lines: &'a [(u32, Command)],
}

/// Reads the bytes, which have to say this.
fn says(rt: &impl Abort, alloc: Global, bytes: &[u8], told: &Told<'_>) -> Result<(), ReadError> {
    if bytes.len() > 1 << 20 {
        return Err(ReadError::NoMemory);
    }
    let script = read(alloc, bytes)?;
    assert_eq!(rt; script.size, told.size);
    assert_eq!(rt; script.keeps.as_slice(), told.keeps);
    assert_eq!(rt; script.journal, told.journal);
    assert_eq!(rt; script.lines.as_slice(), told.lines);
    Ok(())
}

#[test]
fn spelling_is_free_within_a_line(rt: HostRuntime) -> Result<(), Fail> {
    let bytes = b"size 01\r\n\tkeep order 1 -0 # east\r\n\r\ninsert 0 8192 -8192 -0 007\r\norder 0";
    let m = Motion::new(8192, -8192, 0, 7);
    let told = Told {
        size: 1,
        keeps: &[Keep::Order { dx: 1, dy: 0 }],
        journal: false,
        lines: &[
            (4, Command::Insert { no: 0, m }),
            (5, Command::Order { s: 0 }),
        ],
    };
    says(&rt, rt.alloc(), bytes, &told)?;
    Ok(())
}

#[test]
fn each_line_is_read(rt: HostRuntime) -> Result<(), Fail> {
    let bytes =
        b"size 12\nkeep order 0 -16\nkeep boxes 4096 07\njournal off\nat 7\nat 14/6\nextreme 31\nhull\nclosest\n\
        box -16777216 16777216 5 -0\nnext\nlive\nfarthest\noverlaps\n";
    let rect = Rect {
        x1: -16777216,
        x2: 16777216,
        y1: 5,
        y2: 0,
    };
    let told = Told {
        size: 12,
        keeps: &[
            Keep::Order { dx: 0, dy: -16 },
            Keep::Boxes { w: 4096, h: 7 },
        ],
        journal: false,
        lines: &[
            (5, Command::AtRatio { n: 7, d: 1 }),
            (6, Command::AtRatio { n: 14, d: 6 }),
            (7, Command::Extreme { s: 31 }),
            (8, Command::Hull),
            (9, Command::Closest),
            (10, Command::Inside { rect }),
            (11, Command::Next),
            (12, Command::Live),
            (13, Command::Farthest),
            (14, Command::Overlaps),
        ],
    };
    says(&rt, rt.alloc(), bytes, &told)?;
    Ok(())
}

#[test]
fn a_journal_is_put_on(rt: HostRuntime) -> Result<(), Fail> {
    let bytes = b"size 1\nkeep order 1 0\nkeep extreme -1 2\njournal on\n\
        insert 0 0 0 1 0\ninsert 1 10 0 -1 0\nat 4\norder 0\n";
    let (first, second) = (Motion::new(0, 0, 1, 0), Motion::new(10, 0, -1, 0));
    let told = Told {
        size: 1,
        keeps: &[
            Keep::Order { dx: 1, dy: 0 },
            Keep::Extreme { dx: -1, dy: 2 },
        ],
        journal: true,
        lines: &[
            (5, Command::Insert { no: 0, m: first }),
            (6, Command::Insert { no: 1, m: second }),
            (7, Command::AtRatio { n: 4, d: 1 }),
            (8, Command::Order { s: 0 }),
        ],
    };
    says(&rt, rt.alloc(), bytes, &told)?;
    Ok(())
}

#[test]
fn points_leave_start_anew_and_turn(rt: HostRuntime) -> Result<(), Fail> {
    let bytes = b"size 3\ninsert 7 1 2 3 4\nremove 007\n\treplace 0 8192 -8192 -0 5 # again\n\
        turn 5 -8192 8192\nturn 6 0 -0\n";
    let (first, second) = (Motion::new(1, 2, 3, 4), Motion::new(8192, -8192, 0, 5));
    let (u, v) = (-8192, 8192);
    let told = Told {
        size: 3,
        keeps: &[],
        journal: false,
        lines: &[
            (2, Command::Insert { no: 7, m: first }),
            (3, Command::Remove { no: 7 }),
            (4, Command::Replace { no: 0, m: second }),
            (5, Command::Turn { no: 5, u, v }),
            (6, Command::Turn { no: 6, u: 0, v: 0 }),
        ],
    };
    says(&rt, rt.alloc(), bytes, &told)?;
    Ok(())
}

#[test]
fn legs_are_planned(rt: HostRuntime) -> Result<(), Fail> {
    let bytes =
        b"size 3\ninsert 0 0 0 1 0\nleg 0 4 -1 0\n\tleg 007 2147483647 -8192 8192 # late\nnext\n";
    let m = Motion::new(0, 0, 1, 0);
    let (at, u, v) = (2147483647, -8192, 8192);
    let told = Told {
        size: 3,
        keeps: &[],
        journal: false,
        lines: &[
            (2, Command::Insert { no: 0, m }),
            (
                3,
                Command::Leg {
                    no: 0,
                    at: 4,
                    u: -1,
                    v: 0,
                },
            ),
            (4, Command::Leg { no: 7, at, u, v }),
            (5, Command::Next),
        ],
    };
    says(&rt, rt.alloc(), bytes, &told)?;
    Ok(())
}
