//! Why a command was not carried out.

ghost use Rattle.std.specs.Prelude.{◌≡◌};
ghost use Rattle.kin_check.specs.declared.halt.Halt.TheVariants.{NoMemory as WantOfMemory};

use kin_num::memory::NoMemory;
use kin_script::refusal::Refusal;

/// Why a command was not carried out.
#[derive(Clone, Copy, Debug, PartialEq, Eq)]
pub enum Halt {
    /// It is refused.
    Refused(Refusal),
    /// There was no memory.
    NoMemory,
}

impl From<NoMemory> for Halt {
    ghost from_gives = { λ _ e. e ≡ WantOfMemory };

    fn from(_error: NoMemory) -> Halt {
        Halt::NoMemory
    }
}
