//! Judges a long program by its phases, one after another: no run of the whole gets stuck where no
//! run of a phase does, and each phase but the last keeps to itself.
//!
//! A phase keeps to itself where it takes all that is sent in it, and none of its receives and
//! probes can find a message of a later phase: each names its source; or each rank that later sends
//! one that would fit finishes the phase only after the receive or probe has found its own, as
//! messages with sure partners tell. It is judged once, by one run or by an evidence, and may occur
//! any number of times. `specs/Dealing.antt` says what is asked of the phases and their order.
//!
//! Where a phase gets stuck, a run of the whole is made along its run.
#![tactic(auto)]

mod early;
mod hanging;
mod joining;
mod laws;
mod phase;
mod reason;
mod senders;

pub use hanging::stuck_by;
pub use joining::join;
pub use laws::{joined_are_never_stuck, joined_have_no_fault, one_fault};
pub use phase::Phase;
pub use reason::{NotAPhase, NotJoined};
