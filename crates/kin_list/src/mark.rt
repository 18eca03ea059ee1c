//! What waits for the next `settle`.

ghost use Rattle.std.specs.Prelude.{◌≡◌, ◌≢◌};
ghost use Rattle.kin_list.specs.declared.mark.Mark.TheVariants.{Broken};
ghost use Rattle.kin_list.specs.Sound.{single_of};

use kin_sorted::Single;

/// The mark of a list.
#[derive(Clone, Copy, Debug, PartialEq, Eq)]
pub enum Mark {
    /// No mark.
    Rest,
    /// This number enters.
    Enters(u32),
    /// This number leaves.
    Leaves(u32),
    /// A `settle` ran out of memory. The list may not be used again.
    Broken,
}

/// What a mark does to the sorted list.
#[inline(always)]
pub(crate) fn single(mark: Mark) -> Single
    requires { mark ≢ Broken }
    ensures { result ≡ single_of mark }
{
    match mark {
        Mark::Rest => Single::Neither,
        Mark::Enters(no) => Single::Enters(no),
        Mark::Leaves(no) => Single::Leaves(no),
        Mark::Broken => unreachable!(),
    }
}
