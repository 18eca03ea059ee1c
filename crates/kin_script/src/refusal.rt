//! Why a command is refused.

ghost use Rattle.std.specs.Prelude.{◌≡◌};
ghost use Rattle.kin_script.specs.Printed.{name_of};

/// The cause for which a run ends at a command.
#[derive(Clone, Copy, Debug, PartialEq, Eq)]
pub enum Refusal {
    /// No such structure is kept.
    NotKept,
    /// A point of this number is there already.
    Taken,
    /// No point of this number is there.
    Absent,
    /// The quadratic has no real root.
    NoRoot,
    /// The asked moment is before now, or the leg would begin now or before.
    Past,
    /// The point has a leg already that begins at that instant or later.
    Planned,
    /// No motion with whole numbers and the asked velocity is at the point's place, or the moment
    /// is just after an instant.
    NotWhole,
    /// There is one, but one of its numbers isn't in -8192..8192.
    OutOfBounds,
}

impl Refusal {
    /// The name that is printed.
    pub fn name(self) -> &'static str
        ensures { result.now ≡ name_of self }
    {
        match self {
            Refusal::NotKept => "NotKept",
            Refusal::Taken => "Taken",
            Refusal::Absent => "Absent",
            Refusal::NoRoot => "NoRoot",
            Refusal::Past => "Past",
            Refusal::Planned => "Planned",
            Refusal::NotWhole => "NotWhole",
            Refusal::OutOfBounds => "OutOfBounds",
        }
    }
}
