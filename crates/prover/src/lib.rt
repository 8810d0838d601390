//! The prover: looks for an answer to a program's text, with evidence.
#![tactic(auto)]

mod answer;
mod ends;
mod explore;
mod manner;
mod proving;
mod search;
mod walk;

pub use answer::Answer;
pub use checker::{PieceGate, Reason, Verdict, verdict, verdict_in};
pub use ends::{Until, WalkEnds, walk_ends};
pub use explore::{finished_walk, run_that_parts_last};
pub use options::{Options, Pieces, Searches};
pub use pool::Why;
pub use proving::prove;
pub use workers::Gate;
