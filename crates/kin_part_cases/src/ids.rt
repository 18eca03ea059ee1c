//! Ids are put into a set and taken out of it, and the order in which they come out is compared with lists written down by
//! hand.

use kin_num::NoMemory;
use kin_pointers::ids::Ids;
use std::alloc::Global;
use std::test::Fail;

/// Puts an id in, or takes it out where it is there.
fn turn(ids: &mut Ids, id: usize) -> Result<(), NoMemory> {
    if ids.has(id) {
        ids.remove(id);
        return Ok(());
    }
    ids.insert(id)
}

/// The ids that come out of a set into which each of these was put, or from which it was taken.
fn left(alloc: Global, turns: &[usize]) -> Result<Vec<usize>, NoMemory> {
    let mut ids = Ids::new(alloc);
    for id in turns {
        turn(&mut ids, *id)?;
    }
    let mut out = Vec::new(alloc);
    for _ in turns {
        let Some(id) = ids.pop() else {
            break;
        };
        out.reserve(1)?;
        out.push_reserved(id);
    }
    Ok(out)
}

#[test]
fn the_last_id_takes_the_place_of_one_that_goes(rt: HostRuntime) -> Result<(), Fail> {
    for (turns, expected) in [
        ([].as_slice(), [].as_slice()),
        ([7].as_slice(), [7].as_slice()),
        ([7, 7].as_slice(), [].as_slice()),
        ([3, 0, 5].as_slice(), [5, 0, 3].as_slice()),
        ([3, 0, 5, 5].as_slice(), [0, 3].as_slice()),
        ([3, 0, 5, 3].as_slice(), [0, 5].as_slice()),
        ([3, 0, 5, 3, 5, 0].as_slice(), [].as_slice()),
        ([3, 0, 5, 3, 3, 0].as_slice(), [3, 5].as_slice()),
    ] {
        let out = left(rt.alloc(), turns)?;
        assert_eq!(rt; out.as_slice(), expected, "{turns:?}");
    }
    Ok(())
}
