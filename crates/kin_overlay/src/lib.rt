//! The upper chain of two sets of points together, made of the upper chains of both: one node of a
//! kinetic hull that is kept by a tree of merges, with the certificates of Basch, Guibas and
//! Hershberger, "Data Structures for Mobile Data", Journal of Algorithms 31 (1999).
//!
//! `Overlay` is `Kinetic`. After a `settle` that answers `Ok` its chain is the upper chain of both
//! given chains together, and its facts are those of their merge; exactly what has changed is
//! reported, each fact once; and where both given chains are upper chains, the facts alone determine
//! the chain. `edits` lead from the chain before to the present one, for the merge above. A `settle`
//! begins with the old order of the breakpoints, and changes it only where it fails; no clause says
//! so.
#![tactic(auto)]

pub use edit::ChainEdit;
pub use half::Half;
pub use overlay::Overlay;
pub use stage::Stage;
pub use work::Work;

mod breakpoint;
pub mod diff;
mod draft;
pub mod edit;
mod end;
mod ends;
mod fill;
pub mod half;
mod list;
mod merge;
mod names;
mod notes;
pub mod overlay;
mod passing;
mod reading;
mod record;
mod report;
mod resort;
mod rest;
mod shared;
mod sketch;
pub mod stage;
mod standing;
mod turned;
mod untouched;
mod walk;
mod window;
pub mod work;
