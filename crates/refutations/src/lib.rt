//! Refutations of a formula: proof lines, each derived by hinted unit propagation, and a tree whose
//! leaves cover all assignments; and batches of lines that nobody has checked.
//!
//! Variables, clauses and hints are numbered from 1. `specs/Derivations.antt` says which lines are
//! derived, `specs/Trees.antt` which trees are accepted, `specs/Refutations.antt` what both show.
#![tactic(auto)]

mod batch;
mod laws;
mod line;
mod line_check;
mod line_list;
mod partial;
mod refutation;
mod tree;
mod tree_check;

pub use batch::{Batch, BatchLine, Hint};
pub use laws::{
    accepted_refute, derivations_follow, derived_lines_follow, preorders_are_trees,
    preorders_tell_trees,
};
pub use line::{LARGEST_NUMBER, Line, MakeLineFault};
pub use line_check::{LineFault, check_line, check_line_in, clause_at};
pub use line_list::LineList;
pub use partial::{ClauseStatus, PartialAssignment};
pub use refutation::{FaultyLine, check_lines_in};
pub use tree::{Node, ProofTree, is_numbered};
pub use tree_check::{TreeFault, check_tree, refutes};
