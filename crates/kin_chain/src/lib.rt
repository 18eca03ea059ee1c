//! The mathematics of upper chains, and of the merge of two of them.
//!
//! A node of a kinetic hull keeps the upper chain of its points by merging the chains of its two halves, as in Basch,
//! Guibas and Hershberger, "Data Structures for Mobile Data", Journal of Algorithms 31 (1999). `specs/Merging` says what a
//! merge is given and remembers, and what that determines. There is no code here: each function's contract is one law.
#![tactic(auto)]

pub mod laws;
