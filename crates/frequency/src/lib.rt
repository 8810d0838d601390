//! How often the runs of a program get stuck: each of them, some, or it isn't known.
//!
//! One run is made, that which buffers as much as the policy allows. Where it finishes, some run
//! does. Where it gets stuck and messages don't race in it, no run has more than it, so each run
//! gets stuck. Messages don't race where each receive, matched probe and probe names its source,
//! and where each other send that the run has issued, and that could be found in place of one that
//! was, is shown to be held back until then (`clocks`).
#![tactic(auto)]

mod judging;

pub use judging::{Frequency, frequency_of};
