//! The records that two lists of breakpoints share at their ends.

ghost use Rattle.std.specs.Prelude.{◌≡◌, ℕ, ◌+◌, ◌-◌, ◌<◌, ◌≤◌, length, slice_get};
ghost use Rattle.kin_overlay.specs.Reading.{AreSameEnds};
ghost use Rattle.kin_overlay.specs.Reports.{AreShared};

use crate::list::BreakpointList;

/// How many records are at the front of both lists, and how many others at the end of both.
#[derive(Clone, Copy, Debug, PartialEq, Eq)]
pub struct Shared {
    pub front: usize,
    pub back: usize,
}

impl Shared {
    /// No record is known to be shared.
    pub fn none() -> Shared
        ensures { result ≡ record { front = 0; back = 0 } }
    {
        Shared { front: 0, back: 0 }
    }

    /// What two lists share with the outer end beside it: nothing at the front where their left ends
    /// differ, and nothing at the end where their right ones do.
    #[inline(always)]
    pub fn with_ends(self, one: &BreakpointList, other: &BreakpointList) -> Shared
        ensures front { result.front ≤ self.front }
        ensures back { result.back ≤ self.back }
        ensures left { 0 < result.front → one.now.left ≡ other.now.left }
        ensures right { 0 < result.back → AreSameEnds one.now.right other.now.right }
    {
        Shared {
            front: if one.has_same_left(other) {
                self.front
            } else {
                0
            },
            back: if one.has_same_right(other) {
                self.back
            } else {
                0
            },
        }
    }

    /// Records that both lists share at their ends: those that are known to be shared, and more. No clause
    /// says that they share no more than these: this only saves work.
    #[inline(always)]
    pub fn between(one: &BreakpointList, other: &BreakpointList, known: Shared) -> Shared
        requires { AreShared known one.now.records other.now.records }
        ensures one { AreShared result one.now.records other.now.records }
        ensures other { AreShared result other.now.records one.now.records }
    {
        let front = shared_front(one, other, known);
        Shared {
            front,
            back: shared_back(one, other, front, known.back),
        }
    }
}

/// How many records at the front of both lists are the same, before the known ones at the end.
fn shared_front(one: &BreakpointList, other: &BreakpointList, known: Shared) -> usize
    requires { AreShared known one.now.records other.now.records }
    ensures one_room { result + known.back ≤ length one.now.records }
    ensures other_room { result + known.back ≤ length other.now.records }
    ensures same { (k : ℕ) → k < result → slice_get one.now.records k ≡ slice_get other.now.records k }
{
    let most = one.len().min(other.len()) - known.back;
    let mut count = known.front;
    while count < most && one.at(count).is(other.at(count)) {
        count += 1;
    }
    count
}

/// How many records at the end of both lists are the same, after these at the front. So many are known
/// to be.
fn shared_back(one: &BreakpointList, other: &BreakpointList, front: usize, known: usize) -> usize
    requires one_front { front + known ≤ length one.now.records }
    requires other_front { front + known ≤ length other.now.records }
    requires known { (k : ℕ) → k < known → slice_get one.now.records (length one.now.records - (k + 1)) ≡ slice_get other.now.records (length other.now.records - (k + 1)) }
    ensures one_room { front + result ≤ length one.now.records }
    ensures other_room { front + result ≤ length other.now.records }
    ensures same { (k : ℕ) → k < result → slice_get one.now.records (length one.now.records - (k + 1)) ≡ slice_get other.now.records (length other.now.records - (k + 1)) }
{
    let most = one.len().min(other.len()) - front;
    let mut count = known;
    while count < most
        && one
            .at(one.len() - 1 - count)
            .is(other.at(other.len() - 1 - count))
    {
        count += 1;
    }
    count
}
