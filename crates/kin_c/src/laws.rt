//! What holds of the numbers. The function's contract is the law; it does nothing.

ghost use Rattle.kin_c.specs.Moments.{OneMoment};

/// Moments that go out with equal numbers are equal.
pub fn equal_numbers_are_of_one_moment()
    ensures { OneMoment }
{}
