//! What a call answers.

ghost use Rattle.std.specs.Prelude.{◌≡◌};
ghost use Rattle.kin_c.specs.Statuses.{code_of};

use kin_tracker::Refusal;

/// What came of a call.
#[derive(Clone, Copy)]
pub enum Status {
    /// It is done.
    Done,
    /// There is no world.
    NoWorld,
    /// The tracker refuses it.
    Refused(Refusal),
    /// There is too little room in the buffer.
    TooSmall,
}

impl Status {
    /// Its number in the header.
    pub(crate) fn code(self) -> u32
        ensures { result ≡ code_of self }
    {
        match self {
            Status::Done => 0,
            Status::NoWorld => 1,
            Status::Refused(refusal) => code_of(refusal),
            Status::TooSmall => 14,
        }
    }
}

/// The number of a refusal.
fn code_of(refusal: Refusal) -> u32
    ensures { result ≡ code_of (Status.Refused refusal) }
{
    match refusal {
        Refusal::Lost => 2,
        Refusal::BadNumber => 3,
        Refusal::BadKeep(_) => 4,
        Refusal::NotKept => 5,
        Refusal::Taken => 6,
        Refusal::Absent => 7,
        Refusal::NoRoot => 8,
        Refusal::Past => 9,
        Refusal::Planned => 10,
        Refusal::NotWhole => 11,
        Refusal::OutOfBounds => 12,
        Refusal::NoMemory => 13,
    }
}
