//! Formulas and proofs in the formats of other tools: the formula of a program in the DIMACS
//! format, and proof lines in the LRAT format.
//!
//! `specs/Dimacs.antt` and `specs/Lrat.antt` define the texts. The comment lines of a formula tell
//! what each variable stands for.
#![tactic(auto)]

mod comments;
mod dimacs;
mod events;
mod lrat;
mod words;

pub use dimacs::dimacs_text;
pub use lrat::lrat_text;
