//! The laws of signs and of the order.
//!
//! Each function does nothing: its contract is the law. The laws of the order, and of sums and products of signs, hold
//! for canonical forms of any size. `signs_are_ordered`, `instants_lie_apart` and `moments_run_out` ask for the bounds of
//! [`Poly`](crate::poly::Poly) and [`Instant`](crate::instant::Instant).

ghost use Rattle.std.specs.Prelude.{ℤ};
ghost use Rattle.kin_num.specs.declared.instant.Moment.{Moment as Time};
ghost use Rattle.kin_num.specs.Canonical.{IsCanonical, IsCanonicalForm};
ghost use Rattle.kin_num.specs.Grains.{MomentsRunOut};
ghost use Rattle.kin_num.specs.Laws.{IsRadicand, PairSignsAreOrdered, SignsAddAndMultiply, SignsAreOrdered, InstantsAreOrdered, MomentsAreOrdered, InstantsLieApart};

/// The signs of sums and products of pairs over one radicand are those of an ordered ring.
pub fn pair_signs_are_ordered()
    ensures { (d : ℤ) → IsRadicand d → PairSignsAreOrdered d }
{}

/// The signs at one moment go with negatives and sums of polynomials, and with products of linear ones.
pub fn signs_add_and_multiply()
    ensures { (m : Time) → IsCanonicalForm m.at → SignsAddAndMultiply m }
{}

/// The signs at one moment are those of values in one ordered ring, which has products of any degree.
pub fn signs_are_ordered()
    ensures { (m : Time) → IsCanonical m.at → SignsAreOrdered m }
{}

/// The order of instants is total, and only equal canonical forms are level.
pub fn instants_are_ordered()
    ensures { InstantsAreOrdered }
{}

/// The order of moments is total.
pub fn moments_are_ordered()
    ensures { MomentsAreOrdered }
{}

/// A fraction of the denominator `2^200` separates any two different instants.
pub fn instants_lie_apart()
    ensures { InstantsLieApart }
{}

/// A natural number falls from each moment to each later one. So rising moments come to an end.
pub fn moments_run_out()
    ensures { MomentsRunOut }
{}
