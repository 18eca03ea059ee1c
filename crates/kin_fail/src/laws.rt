//! What holds of failures. Each function's contract is one law; none of them does anything.

ghost use Rattle.kin_fail.specs.Laws.{FailuresAreAtRoots, BlocksAreAtRoots, FirstFailuresExist, JournalsExist, NextBlocksExist, OrderFailuresAreFew};

/// As slow points move, a fact that may be asked for fails first, after a canonical moment, at a root of
/// its form's polynomial or just after one. With small kept directions, the next block is at or just after
/// a root of the polynomial of each of its failures.
pub fn failures_are_at_roots()
    ensures fact { FailuresAreAtRoots }
    ensures block { BlocksAreAtRoots }
{}

/// As slow points move, a fact that may be asked for and holds at a canonical moment has a first failure
/// after it, or never fails.
pub fn first_failures_exist()
    ensures { FirstFailuresExist }
{}

/// As slow points move, with a slot for each number and with small kept directions, there is a next block
/// after each canonical moment unless nothing ever fails, and there is a journal from each canonical moment
/// up to each that isn't earlier.
pub fn journals_exist()
    ensures block { NextBlocksExist }
    ensures journal { JournalsExist }
{}

/// While slow motions are unchanged, a journal from a canonical moment on has at most `n*(n - 1)`
/// failures of a kept order of n points, along a small direction. For the line of two points is 0
/// everywhere, or at one instant at most: their fact with the sign + fails at that instant, where the sign
/// becomes 0, and the fact with the sign 0 just after it.
pub fn order_failures_are_few()
    ensures { OrderFailuresAreFew }
{}
