//! Runs of a program of any length: those that buffer as little and as much as the policy allows,
//! and one that goes through wanted steps. And whether each receive and probe of a program names
//! its source.
//!
//! A run is made in one pass: each rank goes as far as it can, and a send or a finder that is
//! issued finds at once, or is found by, the earliest call of the other side that waits for it. A
//! finder is a receive, a matched probe or a probe. Calls that may find one another wait in rows by
//! what they ask for, and a row begins with a call that waits, so that few others are looked at:
//! the time is near linear in the calls. Ranks, and calls by their place in the program's list,
//! count from 0.
#![tactic(auto)]

mod along;
mod lookup;
mod rows;
mod slot;
mod sources;
mod tables;
mod walk;

pub use along::run_along;
pub use sources::names_sources;
pub use walk::{least_buffered_run, most_buffered_run};
