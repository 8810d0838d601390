//! The text of an evidence: read, written, and what is wrong with a text that is none. The text of
//! a formula: written.
//!
//! An evidence is a schedule, the steps of a run, or a refutation, proof lines and a tree over a
//! formula. Its text is a line with its version (a refutation has 1 or 2, a schedule 1), a line for
//! the kind of evidence, and then a line for each step, or for each proof line and node. Ranks
//! count from 0, the numbers of calls, variables and clauses in a text from 1. `specs/Grammar.antt`
//! defines the text, `specs/Fault.antt` what is wrong with bytes that are none,
//! `specs/FormulaText.antt` the text of a formula.
#![tactic(auto)]

mod ahead;
mod evidence;
mod fault;
mod formula_text;
mod laws;
mod node;
mod portions;
mod proof_line;
mod reader;
mod refutation;
mod refutation_reader;
mod schedule;
mod step;
mod text;
mod trims;
mod words;
mod writer;

pub use evidence::Evidence;
pub use fault::EvidenceFault;
pub use formula_text::write_formula;
pub use laws::{depths_are_of_the_tree, one_fault, one_value, text_has_no_fault};
pub use reader::{read_evidence, read_evidence_in};
pub use refutation::{
    MOST_DEPTH, MOST_LINES, MOST_NODES, MakeRefutationFault, Refutation, Version, are_in_range,
};
pub use schedule::Schedule;
pub use step::{find_word, put_find};
pub use text::Text;
pub use trims::{TrimFault, trim, trim_in_place};
pub use writer::{put_hints, put_literals, write_evidence, write_evidence_in};
