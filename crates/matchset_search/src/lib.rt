//! A search over sets of matched calls, which writes down why a program has no stuck run.
//!
//! Clause learning counts in which order sends were taken; this search keeps only which sends were
//! taken. A state is closed by one clause, which follows by propagation from those of the states
//! below it, so each line has its hints. Imports and searches answer as those of `cdcl` with no
//! cube. Nothing is promised of the lines of a batch: whoever takes them checks them.
#![tactic(auto)]

mod branching;
mod claims;
mod closing;
mod cutting;
mod engine;
mod explaining;
mod explorer;
mod finishing;
mod learning;
mod lemmas;
mod models;
mod others;
mod search;
mod searcher;
mod sharing;
mod tasks;

pub use claims::InProgress;
pub use engine::SHORT;
pub use others::ClosedState;
pub use searcher::StateSearch;
