//! Exact instants: the roots of certificates, signs there, and the order of instants.
//!
//! A certificate is a polynomial of degree at most two in the time, and it fails at one of its roots: a fraction, or
//! an irrational root of a quadratic. Instants are these real algebraic numbers in their canonical forms. The sign of one
//! quadratic at a root of another, and with it the order of two roots, is decided by the signs of subresultants (Collins
//! 1967; Basu, Pollack and Roy, "Algorithms in Real Algebraic Geometry"), which stay within 128 bits. Nothing is ever
//! approximated, no call takes memory, and division, greatest common divisors and whole square roots are paid only where a
//! root or a key is made.
//!
//! The contracts say: [`solve::roots`] lists exactly the real roots, each in its one canonical form, the lesser one first;
//! [`sign::sign_at`] is the sign at the moment; [`order::compare`] and [`order::compare_moments`] are the order, and answer
//! `Equal` exactly for equal forms; [`next::next_root`] is the least later root. Counted calls raise the count by one.
#![tactic(auto)]

mod curve;
pub mod key;
pub mod laws;
pub mod next;
pub mod order;
mod product;
pub mod ratio;
mod ratio_sign;
mod root_sign;
pub mod roots;
pub mod sign;
pub mod solve;
mod wide_root;
