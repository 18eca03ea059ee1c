//! What holds of the bounds on cost, and what kin_fail says of failures. Each function's contract is one law; none of
//! them does anything.

ghost use Rattle.kin_cert.specs.Laws.{MostComparisonsExist};

pub use kin_fail::laws::{
    failures_are_at_roots, first_failures_exist, journals_exist, order_failures_are_few,
};

/// For each number n of facts there is a greatest r with `2^r <= (n + 1)^2`, and the bounds on the
/// calls of a table hold with it.
pub fn most_comparisons_exist()
    ensures { MostComparisonsExist }
{}
