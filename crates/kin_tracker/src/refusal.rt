//! Why a call isn't carried out.

ghost use Rattle.std.specs.Prelude.{◌≡◌};
ghost use Rattle.kin_tracker.specs.declared.refusal.Refusal.TheVariants.{NoMemory as WantOfMemory};

use kin_num::NoMemory;

/// The cause, of which a call has at most one.
#[derive(Clone, Copy, Debug, PartialEq, Eq)]
pub enum Refusal {
    /// Memory was wanting in an earlier change.
    Lost,
    /// A number is outside its range.
    BadNumber,
    /// The structure at this place of the list can't be kept: its direction isn't small, its boxes are too wide or too high
    /// or of a negative size, there are too many of its kind, or it is a farthest pair with no hull before it.
    BadKeep(usize),
    /// No such structure is kept.
    NotKept,
    /// A point of this number is there already.
    Taken,
    /// No point of this number is there.
    Absent,
    /// The polynomial has no root, or every instant is one.
    NoRoot,
    /// The asked moment is before now, or the leg would begin now or before.
    Past,
    /// The point has a leg already that begins at that instant or later.
    Planned,
    /// No motion with whole numbers and the asked velocity is at the point's place, or the moment is just after an instant.
    NotWhole,
    /// There is one, but one of its numbers isn't in -8192..8192.
    OutOfBounds,
    /// Memory is wanting. A tracker that was to change is lost.
    NoMemory,
}

impl From<NoMemory> for Refusal {
    ghost from_gives = { λ _ e. e ≡ WantOfMemory };

    fn from(_error: NoMemory) -> Refusal {
        Refusal::NoMemory
    }
}
