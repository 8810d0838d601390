//! Which lines a refutation needs, and a refutation without the others.
//!
//! A line is needed where a leaf of the tree names it, or a hint of a later line that is needed.
//! Clauses are numbered from 1, first those of the formula and then the lines. `specs/Needed.antt`
//! says which lines are needed, what is left without the others, and the laws: what was accepted is
//! accepted then, and each line is needed.
#![tactic(auto)]

mod laws;
mod marks;
mod names;
mod renumbering;
mod trims;
mod unneeded;

pub use laws::{trimmed_are_accepted, trimmed_are_needed};
pub use trims::{RefutationTrimFault, trim};
pub use unneeded::first_unneeded;
