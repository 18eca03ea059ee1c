//! The exit statuses of the program.

use kin_run::Refusal;
use kin_run::status::{Side, Status};

#[test]
fn each_status_has_its_exit(rt: HostRuntime) {
    for (status, exit) in [
        (Status::Done, 0),
        (Status::Fault(Side::Read), 1),
        (Status::Fault(Side::Write), 1),
        (Status::Script(1), 2),
        (Status::TooLong, 2),
        (Status::Command(1, Refusal::Past), 3),
        (Status::NoMemory, 4),
        (Status::Words, 5),
        (Status::Differs, 6),
        (Status::Unsplit, 2),
    ] {
        assert!(rt; status.exit() == exit, "{status:?}");
    }
}
