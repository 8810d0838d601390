//! Phases that keep to themselves although finders take messages of any source: whoever sends to
//! such a finder later finishes the phase only after it has found.
//!
//! A finder is a receive, a matched probe or a probe. Ranks, and calls by their place in the
//! program's list, count from 0.
#![tactic(auto)]

mod asked;
mod ends;
mod finders;
mod lasts;
mod laws;
mod loose;
mod occurrences;
mod partners;
mod sides;

pub use ends::loose_ends;
pub use laws::{finish_tells, no_loose_send_seals, one_sealed_phase_more, sure_partners_are_so};
pub use loose::Loose;
