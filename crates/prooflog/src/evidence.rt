//! Evidence.

use crate::refutation::Refutation;
use crate::schedule::Schedule;

/// What an evidence text says of a program; whether it is so is not asked here.
#[derive(Drop)]
pub enum Evidence {
    /// Proof lines and a tree that are said to refute the program's formula.
    Refutation(Refutation),
    /// The steps of a run that is said to end stuck.
    Schedule(Schedule),
}
