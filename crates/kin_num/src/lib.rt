//! Whole-number polynomials, exact instants and moments.
//!
//! Points move along lines, so certificates are polynomials of degree at most two in the time, and fail at instants that
//! are fractions or roots of quadratics. This crate has these as types with exact whole coefficients, and the definitions
//! that every contract above rests on: the number that an instant is, the sign of a polynomial at an instant and just
//! after it, and the order of instants and moments. `laws` states what holds of them. No call takes memory or refuses.
#![tactic(auto)]

pub use divisor::gcd;
pub use instant::{Instant, Moment, Phase, Shape};
pub use kin_algebra::sign::Sign;
pub use memory::NoMemory;
pub use pair::pair_sign;
pub use poly::Poly;
pub use root::isqrt;
pub use steps::Steps;

pub mod divisor;
pub mod instant;
pub mod laws;
pub mod memory;
pub mod pair;
pub mod poly;
pub mod root;
pub mod steps;
