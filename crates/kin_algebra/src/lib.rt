//! What the engine's proofs rest on: the algebra of signs, rings and vectors, and lemmas that std lacks.
//!
//! A certificate of a kinetic structure is the sign of a polynomial at a moment, so every argument about certificates
//! is one about signs of sums and products: signs as an algebra of three values, identities of commutative rings proved
//! by computing, ordered rings, and the numbers `u + v*sqrt(d)` as an ordered ring. There are also lemmas without a
//! kinetic idea, on lists, options, results and tests. All but `Sign` is logic (specs/ and proofs/) and costs nothing
//! at run time.
#![tactic(auto)]

pub mod sign;
