//! From the texts of a program and an evidence to the text that people read, and to the proof that
//! other checkers read; and from an evidence's text to that of the evidence without lines that
//! aren't needed. What one run decides of a text of any length is told likewise.
#![tactic(auto)]

mod added;
mod asked;
mod counts;
mod decided;
mod deciders;
mod explained;
mod exported;
mod formula_texts;
mod laws;
mod sizes;
mod steps;
mod telling;
mod trimmed;

pub use decided::{explain_run, explain_sizes};
pub use explained::{Explained, explain_evidence};
pub use exported::export_evidence;
pub use formula_texts::{dimacs_formula, formula_text};
pub use laws::shortened_refute;
pub use steps::{Replayed, replay};
pub use trimmed::{Shortened, Untrimmed, trim_evidence};
