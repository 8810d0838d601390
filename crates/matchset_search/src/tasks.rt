//! What is left to do.

use crate::explorer::Explorer;
use matchsets::{Key, MatchState};
use propagation::{ClauseRef, LitIndex};
use std::alloc::AllocError;

/// A literal on which a state is branched.
#[derive(Drop)]
pub(crate) struct Branch {
    pub(crate) literal: LitIndex,
    /// What tells the state below it; none where there is none.
    pub(crate) key: Option<Key>,
    /// The clause against it, once there is one.
    pub(crate) clause: Option<ClauseRef>,
}

/// A state and the literals on which it is branched, of which one is true.
#[derive(Drop)]
pub(crate) struct Branching {
    pub(crate) key: Key,
    pub(crate) assumptions: Vec<LitIndex>,
    pub(crate) branches: Vec<Branch>,
}

/// What a clause is looked for.
#[derive(Drop)]
pub(crate) enum Purpose {
    /// It closes the state with this key.
    State(Key),
    /// It is against the literal at this place of the branching that is finished next.
    Literal(usize),
    /// It closes the search.
    Formula,
}

/// Something to do.
#[derive(Drop)]
pub(crate) enum Task {
    /// To begin.
    Start,
    /// To close this state.
    Visit(MatchState),
    /// The same where another search was closing it, once nothing else is left to do below the same
    /// state.
    VisitLast(MatchState),
    /// To close the first state by what closes the second.
    Alias(Key, Key),
    /// To close a state below whose literals all states are closed.
    Finish(Branching),
    /// To learn a clause of negations of these literals.
    Learn(Vec<LitIndex>, Purpose),
    /// To close the search, now that this first state is closed.
    End(MatchState),
}

impl Task {
    /// Whether it is to close a state that wasn't looked at.
    pub(crate) fn is_visit(&self) -> bool {
        matches!(self, Task::Visit(_) | Task::VisitLast(_))
    }

    /// The key of the state that it closes, and what is assumed of that, where it knows both.
    pub(crate) fn closing(&self) -> Option<(Key, &[LitIndex])> {
        match self {
            Task::Finish(branching) => { Some((branching.key, branching.assumptions.as_slice())) }
            Task::Learn(literals, Purpose::State(key)) => Some((*key, literals.as_slice())),
            _ => None,
        }
    }
}

impl<'e> Explorer<'e> {
    /// Puts a task before all others.
    pub(crate) fn push(&mut self, task: Task) -> Result<(), AllocError> {
        self.tasks.push(task)?;
        Ok(())
    }

    /// Puts the state behind all others that are to be closed below the same one.
    pub(crate) fn put_last(&mut self, state: MatchState) -> Result<(), AllocError> {
        let place = match self.tasks.iter().rposition(|task| !task.is_visit()) {
            Some(last) => last + 1,
            None => 0,
        };
        self.tasks.insert(place, Task::VisitLast(state))?;
        Ok(())
    }
}
