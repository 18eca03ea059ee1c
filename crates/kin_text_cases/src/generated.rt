//! Generated scripts.

use kin_motion::Motion;
use kin_script::{Command, generate};
use std::test::Fail;

/// The points and the size that the first draws of the seed 0 give.
#[test]
fn the_seed_0_gives_these(rt: HostRuntime) -> Result<(), Fail> {
    let script = generate(rt.alloc(), 0, 2)?;
    let lines = script.lines.as_slice();
    assert!(rt; script.size == 1 && lines.len() == 8);
    let first = Command::Insert {
        no: 0,
        m: Motion::new(463, -753, 1, -5),
    };
    let second = Command::Insert {
        no: 1,
        m: Motion::new(158, -270, 4, -2),
    };
    let rows = [
        (0usize, (8, first)),
        (1, (9, second)),
        (7, (15, Command::Live)),
    ];
    for (place, line) in rows {
        assert_eq!(rt; lines.get(place), Some(&line), "at {place}");
    }
    Ok(())
}
