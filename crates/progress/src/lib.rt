//! Tells how far a search is, while it goes on: once a second a line with the time, the cubes, the
//! lines and the conflicts, and how much of the tree is closed and of the budget and the log is
//! used.
#![tactic(auto)]

mod counts;
mod moment;
mod telling;

pub use counts::Counts;
pub use moment::Moment;
pub use telling::{prove_telling, tell};
