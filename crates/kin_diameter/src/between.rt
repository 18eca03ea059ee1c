//! What two lists don't share at their ends.

ghost use Rattle.std.specs.Prelude.{◌≡◌, ◌↔◌, ◌∷◌, ◌++◌, [], IsTrue, IfSome};
ghost use Rattle.kin_diameter.specs.Changes.{DifferBetween};

use crate::slope::Slope;
use kin_pairs::Pair;

/// What can be compared with another of its kind.
pub(crate) trait Alike: Copy {
    /// Whether both are the same.
    fn is_same(self, other: Self) -> bool
        ensures { IsTrue result ↔ (self ≡ other) };
}

impl Alike for Slope {
    fn is_same(self, other: Slope) -> bool {
        self.is(other)
    }
}

impl Alike for Pair {
    fn is_same(self, other: Pair) -> bool {
        self.is(&other)
    }
}

/// Both lists without their first item, where that is the same.
fn without_first<'a, T: Alike>(old: &'a [T], new: &'a [T]) -> Option<(&'a [T], &'a [T])>
    ensures { IfSome result (λ rest. (x : T) × (old.now ≡ x ∷ rest.0.now) × (new.now ≡ x ∷ rest.1.now)) }
{
    let (one, old_rest) = old.split_first()?;
    let (other, new_rest) = new.split_first()?;
    if one.is_same(*other) {
        return Some((old_rest, new_rest));
    }
    None
}

/// Both lists without their last item, where that is the same.
fn without_last<'a, T: Alike>(old: &'a [T], new: &'a [T]) -> Option<(&'a [T], &'a [T])>
    ensures { IfSome result (λ rest. (x : T) × (old.now ≡ rest.0.now ++ x ∷ []) × (new.now ≡ rest.1.now ++ x ∷ [])) }
{
    let (one, old_rest) = old.split_last()?;
    let (other, new_rest) = new.split_last()?;
    if one.is_same(*other) {
        return Some((old_rest, new_rest));
    }
    None
}

/// Both lists without what is the same at their front.
fn without_front<'a, T: Alike>(old: &'a [T], new: &'a [T]) -> (&'a [T], &'a [T])
    ensures { DifferBetween old.now new.now result.0.now result.1.now }
{
    let (mut old_rest, mut new_rest) = (old, new);
    'front: while let Some((olds, news)) = without_first(old_rest, new_rest) {
        old_rest = olds;
        new_rest = news;
    }
    (old_rest, new_rest)
}

/// Both lists without what is the same at their end.
fn before_end<'a, T: Alike>(old: &'a [T], new: &'a [T]) -> (&'a [T], &'a [T])
    ensures { DifferBetween old.now new.now result.0.now result.1.now }
{
    let (mut old_rest, mut new_rest) = (old, new);
    'end: while let Some((olds, news)) = without_last(old_rest, new_rest) {
        old_rest = olds;
        new_rest = news;
    }
    (old_rest, new_rest)
}

/// Both lists without what is the same at their front and then at their end.
pub(crate) fn between<'a, T: Alike>(old: &'a [T], new: &'a [T]) -> (&'a [T], &'a [T])
    ensures { DifferBetween old.now new.now result.0.now result.1.now }
{
    let (olds, news) = without_front(old, new);
    before_end(olds, news)
}
