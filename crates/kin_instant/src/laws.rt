//! What holds of roots. Each function's contract is one law; none of them does anything.

ghost use Rattle.kin_instant.specs.Laws.{RootsExist, NextRootsExist};

/// Every polynomial within the bounds has its real roots, each as a canonical instant.
pub fn roots_exist()
    ensures { RootsExist }
{}

/// After every canonical instant, a polynomial within the bounds has a least later root, or none. From a
/// moment at the instant at which it isn't 0, its sign doesn't change before that root, or at all where
/// there is none.
pub fn next_roots_exist()
    ensures { NextRootsExist }
{}
