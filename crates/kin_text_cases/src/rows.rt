//! Lists of a script.

use kin_motion::Keep;
use kin_script::Command;
use kin_script::script::Row;
use std::alloc::{AllocError, Global};
use std::test::Fail;

/// Whether a row of these items lends them and gives them back.
fn lends_and_gives_back<T>(alloc: Global, items: &[T]) -> Result<bool, AllocError>
where
    T: Copy + Drop + PartialEq,
{
    let row = Row::from_vec(Vec::from_slice(alloc, items)?);
    let lent = row.as_slice() == items;
    Ok(lent && row.into_vec().as_slice() == items)
}

#[test]
fn lists_are_lent_and_given_back(rt: HostRuntime) -> Result<(), Fail> {
    let kept = [Keep::Order { dx: 1, dy: 0 }, Keep::Hull];
    assert!(rt; lends_and_gives_back(rt.alloc(), &kept)?);
    let asked = [(2u32, Command::Hull), (5, Command::Order { s: 1 })];
    assert!(rt; lends_and_gives_back(rt.alloc(), &asked)?);
    Ok(())
}
