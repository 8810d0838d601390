//! The checker: judges a program's text by an evidence's text, whoever wrote them. It makes the
//! program's formula itself.
//!
//! The checks of proof lines and trees are passed on here.
#![tactic(auto)]

mod encoding;
mod judging;
mod laws;
mod reason;
mod refuting;
mod texts;

pub use encoding::formula_of;
pub use judging::{Judged, judge, refuted_in, verdict, verdict_in};
pub use laws::{never_both, one_verdict, refuted_are_never_stuck};
pub use pieces::PieceGate;
pub use reason::{NoRun, Reason, Verdict};
pub use refutations::{LineFault, LineList, TreeFault, check_line, check_tree};
pub use refuting::Refuted;
pub use texts::{StuckRun, program_of, stuck_run_of};
