//! Which structures may be kept together.

ghost use Rattle.std.specs.Prelude.{◌++◌, ◌∷◌, [], IsTrue, IsFalse, MatchOption};
ghost use Rattle.kin_motion.specs.Live.{IsSmallBox, IsSmallDirection, IsSmallKeep};
ghost use Rattle.kin_tracker.specs.Keeping.{IsFirstBad};
ghost use Rattle.kin_world.specs.Worlds.{AreKeepable};

use kin_motion::Keep;
use kin_motion::keep::may_keep_more;

/// The place of the first structure that can't be kept with those before it.
pub(crate) fn first_bad(keeps: &[Keep]) -> Option<usize>
    ensures { MatchOption result (AreKeepable keeps.now) (IsFirstBad keeps.now) }
{
    for place in 0..keeps.len() {
        if !can_add(&keeps[..place], &keeps[place]) {
            return Some(place);
        }
    }
    None
}

/// Whether one more structure may be kept with these.
fn can_add(keeps: &[Keep], keep: &Keep) -> bool
    requires { AreKeepable keeps.now }
    ensures yes { IsTrue result → AreKeepable (keeps.now ++ keep.now ∷ []) }
    ensures no { IsFalse result → ¬ (AreKeepable (keeps.now ++ keep.now ∷ [])) }
{
    is_small(keep) && may_keep_more(keeps, keep)
}

/// Whether the direction, if it has one, is small, and whether boxes are.
fn is_small(keep: &Keep) -> bool
    ensures yes { IsTrue result → IsSmallKeep keep.now }
    ensures no { IsFalse result → ¬ (IsSmallKeep keep.now) }
{
    match *keep {
        Keep::Order { dx, dy } => is_small_direction(dx, dy),
        Keep::Extreme { dx, dy } => is_small_direction(dx, dy),
        Keep::Boxes { w, h } => is_small_box(w, h),
        Keep::Hull | Keep::Closest | Keep::Range | Keep::Nearest | Keep::Diameter => true,
    }
}

/// Whether both parts of a direction are in -16..16.
fn is_small_direction(dx: i32, dy: i32) -> bool
    ensures yes { IsTrue result → IsSmallDirection dx dy }
    ensures no { IsFalse result → ¬ (IsSmallDirection dx dy) }
{
    dx.unsigned_abs() <= 16 && dy.unsigned_abs() <= 16
}

/// Whether the width and the height of boxes are in 0..4096.
fn is_small_box(w: i32, h: i32) -> bool
    ensures yes { IsTrue result → IsSmallBox w h }
    ensures no { IsFalse result → ¬ (IsSmallBox w h) }
{
    (0..=4096).contains(&w) && (0..=4096).contains(&h)
}
