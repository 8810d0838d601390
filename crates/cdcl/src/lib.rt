//! A solver that learns clauses from conflicts, and tells each clause that it learns together with
//! what it rests on.
//!
//! Variables and the clauses of the formula are numbered from 1. `specs/Answers.antt` says what an
//! import and a search may answer. Nothing is promised of the lines of a batch: whoever takes them
//! checks them.
#![tactic(auto)]

mod analysis;
mod engine;
mod minimisation;
mod models;
mod order;
mod probing;
mod reduction;
mod search;
mod solver;
mod stamps;

pub use search::{Counted, Ending, SearchStep};
pub use solver::{Found, SolveFault, Solver};
