//! Turning: which motion a point takes up when it gets another velocity at the place where it is.
//!
//! [`turned::turned`] answers it exactly, at fractions and at irrational instants. Starts of motions are whole numbers,
//! so not every turn is possible; the error says why.
#![tactic(auto)]

pub mod turned;
