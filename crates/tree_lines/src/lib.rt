//! The tree of a refutation as further proof lines, so that lines alone derive the empty clause.
//!
//! Other checkers of proofs know lines with hints, and no trees. `specs/Joining.antt` says what is
//! added.
#![tactic(auto)]

mod joining;
mod laws;
mod literals;

pub use joining::joining_lines;
pub use laws::joined_refute;
