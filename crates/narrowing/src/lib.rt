//! Programs in which one choice is left open no more, and what is known of a choice where no run of
//! the others ends stuck.
//!
//! A choice is what a call leaves open: whether a standard send is buffered, or which message a
//! receive, matched probe or probe with a star finds. Calls are named by their place, from 0, in
//! the program's list of calls.
#![tactic(auto)]

mod laws;
mod narrowed;
mod taken;
mod ways;

pub use laws::taken_where_never_otherwise;
pub use narrowed::is_narrowed;
pub use taken::ChoiceTaken;
pub use ways::{is_open_send, other_ways, way_to};
