//! What decided that a run of a program ends stuck: which of its sends had to be buffered, or not,
//! and which messages its wildcards had to find.
//!
//! A choice is pinned by other words in the place of one line of the program's text, so all that is
//! proved of texts holds of the pinned program too.
#![tactic(auto)]

mod asking;
mod finding;
mod items;
mod laws;
mod otherwise;
mod pinning;
mod places;
mod sufficing;
mod telling;
mod weighing;
mod wording;

pub use items::{AskingLimits, Choice, ChoiceNeed, Decided, HangExtent, Weighed};
pub use laws::known_is_taken;
pub use narrowing::ChoiceTaken;
pub use pinning::with_choice;
pub use telling::{need_words, told};
pub use weighing::{decide, decide_run};
