//! What one run tells of all runs of a program, of any length.
//!
//! The run that buffers as little as the policy allows is made. Where it gets stuck it is a
//! deadlock. Where it finishes, and no other message can come first for a receive, matched probe or
//! probe of any source, no run gets stuck. Else messages may race, and the run alone tells nothing.
//! `specs/Decisions.antt` says what each answer means.
#![tactic(auto)]

mod decision;
mod laws;
mod schedule;
mod stages;
mod texts;

pub use decision::{Caller, CallerRace, Decision, decide_program, judge_run};
pub use laws::{
    justified_runs_are_decided, lone_senders_are_decided, named_sources_are_decided,
    short_texts_are_decided,
};
pub use schedule::schedule_text;
pub use stages::{Stage, decide_telling};
pub use texts::{Undecided, decide, program_of};
