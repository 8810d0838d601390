//! Cubes of a program's formula: the full tree over the match variables of the pairs whose takers
//! have most pairs.
//!
//! `specs/Cubes.antt` says which pairs come first, `specs/Levels.antt` which tree is full.
#![tactic(auto)]

mod fault;
mod laws;
mod levels;
mod order;
mod splitting;

pub use fault::CubeFault;
pub use laws::{full_tree_size, match_variables_are_within, one_branching_order};
pub use splitting::{GREATEST_DEPTH, branching_variables, split};
