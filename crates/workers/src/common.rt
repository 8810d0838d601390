//! What the workers of a search have in common.

use crate::closed::ClosedStates;
use crate::events::EventCount;
use crate::kept::KeptLines;
use encode::Encoded;
use pool::Why;

/// When workers search over sets of matched calls, and not below cubes.
#[derive(Clone, Copy, PartialEq, Eq)]
pub enum Exploring {
    /// Never.
    Never,
    /// All of them in turn with cubes, where a conflict counts as 16 lines. The first turn is over
    /// sets and takes 4,000 lines of worker 0, and of each of the next three workers twice as many
    /// as of the one before. Each turn takes twice as many as the last one of its kind.
    InTurn,
    /// All of them as long as that search goes on.
    Always,
}

/// What was done before the workers began.
#[derive(Clone, Copy, PartialEq, Eq)]
pub struct Opening {
    /// How many conflicts of worker 0's budget were counted.
    pub conflicts: u64,
    /// Whether the match variables were probed.
    pub is_probed: bool,
    /// How many conflicts worker 0 counts with no cube before it goes on as the others do.
    pub whole: u64,
    /// Why worker 0 has to leave; none where it may go on.
    pub why: Option<Why>,
}

impl Opening {
    /// Nothing was done.
    pub fn nothing() -> Opening {
        Opening {
            conflicts: 0,
            is_probed: false,
            whole: 0,
            why: None,
        }
    }
}

/// What all workers of a search have in common.
#[derive(Drop)]
pub struct SearchContext<'s, S, G> {
    /// The program that is shared, with its formula.
    pub encoded: &'s Encoded,
    /// The pool, or a share of it.
    pub shared: &'s S,
    /// Is called before each cube, and after each search.
    pub gate: &'s G,
    /// Counts what may give a worker without a cube something to do.
    pub events: &'s EventCount,
    /// How many conflicts each worker may count.
    pub budget: u32,
    /// When workers search over sets of matched calls.
    pub exploring: Exploring,
    /// What was done before.
    pub begun: Opening,
    /// What is kept of the log.
    pub kept: &'s KeptLines,
    /// The states that are closed.
    pub closed: &'s ClosedStates,
}

impl<S, G> SearchContext<'_, S, G> {
    /// How many conflicts this worker, from 0, may still count.
    pub(crate) fn left(&self, worker: u32) -> u64 {
        let budget = u64::from(self.budget);
        if worker == 0 {
            budget.saturating_sub(self.begun.conflicts)
        } else {
            budget
        }
    }

    /// How many conflicts this worker, from 0, counts with no cube at first.
    pub(crate) fn whole(&self, worker: u32) -> u64 {
        if worker == 0 { self.begun.whole } else { 0 }
    }

    /// How much of the budget is used where so much is left.
    pub(crate) fn used(&self, left: u64) -> u64 {
        u64::from(self.budget).saturating_sub(left)
    }
}
