//! How a run ends.

ghost use Rattle.std.specs.Prelude.{◌≡◌};
ghost use Rattle.kin_status.specs.Exits.{exit_status_of};
ghost use Rattle.kin_status.specs.Headline.{status_of_stop};

use crate::stop::Stop;
use kin_script::refusal::Refusal;

/// The most bytes of an input.
pub const LIMIT: u32 = 1 << 20;

/// The side on which a call failed.
#[derive(Clone, Copy, Debug, PartialEq, Eq)]
pub enum Side {
    Read,
    Write,
}

/// How a run ends. The program's exit status follows it.
#[derive(Clone, Copy, Debug, PartialEq, Eq)]
pub enum Status {
    /// The whole text was written; or the claimed text is that of its script.
    Done,
    /// A call on the source or on the sink failed.
    Fault(Side),
    /// That line is the first outside the grammar.
    Script(u32),
    /// The command of that line is the first that is refused.
    Command(u32, Refusal),
    /// The input has more than 2^20 bytes.
    TooLong,
    /// The arguments have none of the forms.
    Words,
    /// There was no memory.
    NoMemory,
    /// The claimed text isn't that of its script.
    Differs,
    /// No line of the input is the one byte `=`, so there is no claimed text.
    Unsplit,
}

impl Status {
    /// The exit status of the program.
    pub fn exit(self) -> u8
        ensures { result ≡ exit_status_of self }
    {
        match self {
            Status::Done => 0,
            Status::Fault(_) => 1,
            Status::Script(_) | Status::TooLong | Status::Unsplit => 2,
            Status::Command(_, _) => 3,
            Status::NoMemory => 4,
            Status::Words => 5,
            Status::Differs => 6,
        }
    }
}

/// The status of a run that was broken off.
pub fn status_of(stop: Stop) -> Status
    ensures { result ≡ status_of_stop stop }
{
    match stop {
        Stop::Fault => Status::Fault(Side::Write),
        Stop::NoMemory => Status::NoMemory,
    }
}
