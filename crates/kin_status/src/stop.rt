//! Why a run was broken off, and why a command was not carried out.

ghost use Rattle.std.specs.Prelude.{◌≡◌};
ghost use Rattle.kin_status.specs.declared.stop.Halt.TheVariants.{Broken as BrokenOff};
ghost use Rattle.kin_status.specs.declared.stop.Stop.TheVariants.{Fault as FaultOf, NoMemory as WantOfMemory};

use kin_io::source::Failed;
use kin_num::NoMemory;
use kin_script::refusal::Refusal;

/// Why a run was broken off.
#[derive(Clone, Copy, Debug, PartialEq, Eq)]
pub enum Stop {
    Fault,
    NoMemory,
}

impl From<NoMemory> for Stop {
    ghost from_gives = { λ _ e. e ≡ WantOfMemory };

    fn from(_error: NoMemory) -> Stop {
        Stop::NoMemory
    }
}

impl From<Failed> for Stop {
    ghost from_gives = { λ _ e. e ≡ FaultOf };

    fn from(_error: Failed) -> Stop {
        Stop::Fault
    }
}

/// Why a command was not carried out.
#[derive(Clone, Copy, Debug, PartialEq, Eq)]
pub enum Halt {
    Refused(Refusal),
    Broken(Stop),
}

impl From<NoMemory> for Halt {
    ghost from_gives = { λ _ e. e ≡ BrokenOff WantOfMemory };

    fn from(_error: NoMemory) -> Halt {
        Halt::Broken(Stop::NoMemory)
    }
}

impl From<Stop> for Halt {
    ghost from_gives = { λ stop e. e ≡ BrokenOff stop };

    fn from(stop: Stop) -> Halt {
        Halt::Broken(stop)
    }
}
