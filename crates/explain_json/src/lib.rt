//! The explanation of a deadlock as a JSON object.
//!
//! Numbers of calls count from 1 over the program after expansion, ranks from 0, lines of the
//! program's text from 1.
#![tactic(auto)]

mod object;

pub use object::{ChoiceMade, Decider, Deciders, object_text};
