//! The names of refusals.

use kin_script::Refusal;
use std::test::Fail;

#[test]
fn each_refusal_has_its_name(rt: HostRuntime) -> Result<(), Fail> {
    let rows = [
        (Refusal::NotKept, "NotKept"),
        (Refusal::Taken, "Taken"),
        (Refusal::Absent, "Absent"),
        (Refusal::NoRoot, "NoRoot"),
        (Refusal::Past, "Past"),
        (Refusal::Planned, "Planned"),
        (Refusal::NotWhole, "NotWhole"),
        (Refusal::OutOfBounds, "OutOfBounds"),
    ];
    for (refusal, name) in rows {
        assert_eq!(rt; refusal.name(), name);
    }
    Ok(())
}
