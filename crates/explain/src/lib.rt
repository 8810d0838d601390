//! The text that explains a deadlock to the writer of an MPI code, the graph of who waits for whom,
//! a line for each rank that waits, and messages that no receive takes.
//!
//! Numbers of calls count from 1 over the program after expansion, ranks from 0, lines of the
//! program's text from 1.
#![tactic(auto)]

mod alike;
mod balancing;
mod circles;
mod graph;
mod lost;
mod needing;
mod text;
mod waiting;
mod wording;

pub use graph::wait_graph;
pub use lost::{losing, lost_messages};
pub use text::explanation;
pub use waiting::messages;
