//! Visits of states, and the literals on which they are branched.

ghost use Rattle.std.specs.Prelude.{◌≤◌, vec_len};

use crate::explorer::Explorer;
use crate::tasks::{Branch, Branching, Purpose, Task};
use matchsets::{Key, MatchState, choose, mixed, read_off};
use propagation::LitIndex;
use refutations::Batch;
use std::alloc::{AllocError, Global};

/// How often lemmas are made below one literal before its state is looked at anew.
const MOST_ROUNDS: usize = 64;

/// The place, of so many, at which a search of this turn begins below the state with this key: the
/// first one at turn 0.
fn first_of(turn: u32, key: Key, length: usize) -> usize
    ensures { result ≤ length }
{
    if turn == 0 {
        return 0;
    }
    let mixed = mixed(key.state, u64::from(turn)) >> 33;
    (mixed as usize)
        .checked_rem(length)
        .unwrap_or(0)
        .min(length)
}

/// What is below a literal.
#[derive(Drop)]
enum Below {
    /// A conflict.
    Conflict,
    /// Lemmas that were made, with the trail at level 0.
    Lemmas,
    /// This state.
    State(MatchState),
}

impl<'e> Explorer<'e> {
    /// Branches the state, unless it is closed already or meets a conflict at once, as what leads
    /// to it then does too. One that another search is closing comes last, unless it has to be now.
    pub(crate) fn visit(
        &mut self,
        alloc: Global,
        state: MatchState,
        is_last: bool,
        batch: &mut Batch,
    ) -> Result<(), AllocError> {
        let key = state.key();
        if self.clause_of(key).is_some() {
            return Ok(());
        }
        self.visit_unknown(alloc, state, key, is_last, batch)
    }

    /// Branches a state with this key, which wasn't closed, unless others did or it meets a
    /// conflict at once.
    fn visit_unknown(
        &mut self,
        alloc: Global,
        state: MatchState,
        key: Key,
        is_last: bool,
        batch: &mut Batch,
    ) -> Result<(), AllocError> {
        if self.others.closing(key.state).is_none() && self.is_taken(key) && !is_last {
            return self.put_last(state);
        }
        let assumptions = state.assumptions(alloc, &self.shape)?;
        if self.takes_over(alloc, key, &assumptions)?
            || !self.stand_on(alloc, &assumptions)?
            || self.take_over(alloc, key)?
        {
            return Ok(());
        }
        self.visit_open(alloc, state, key, assumptions, batch)
    }

    /// Closes or branches a state with this key, whose assumptions stand on the trail.
    fn visit_open(
        &mut self,
        alloc: Global,
        state: MatchState,
        key: Key,
        assumptions: Vec<LitIndex>,
        batch: &mut Batch,
    ) -> Result<(), AllocError> {
        if let Some(clause) = self.near_clause(key) {
            return self.close_too(key, clause);
        }
        if self.makes_lemmas(alloc, None, batch)? {
            return self.push(Task::Visit(state));
        }
        let read = read_off(alloc, &self.shape, self.engine.known.trail(), &state)?;
        self.visit_read(alloc, read, key, assumptions, batch)
    }

    /// Branches the state that was read off the trail of the one with this key, or visits it
    /// before, where it is another one.
    fn visit_read(
        &mut self,
        alloc: Global,
        read: MatchState,
        key: Key,
        assumptions: Vec<LitIndex>,
        batch: &mut Batch,
    ) -> Result<(), AllocError> {
        let read_key = read.key();
        if read_key != key {
            self.push(Task::Alias(key, read_key))?;
            return self.push(Task::Visit(read));
        }
        self.expand(alloc, read, key, assumptions, batch)
    }

    /// Branches a state whose assumptions stand on the trail.
    fn expand(
        &mut self,
        alloc: Global,
        state: MatchState,
        key: Key,
        assumptions: Vec<LitIndex>,
        batch: &mut Batch,
    ) -> Result<(), AllocError> {
        let literals = choose(alloc, &self.shape, self.engine.known.trail(), &state)?;
        if literals.is_empty() {
            return self.push(Task::Learn(assumptions, Purpose::State(key)));
        }
        let mut branches = Vec::new(alloc);
        let mut states = Vec::new(alloc);
        let are_made = self.look_below(
            alloc,
            &state,
            &assumptions,
            &literals,
            &mut branches,
            &mut states,
            batch,
        )?;
        if are_made {
            return self.push(Task::Visit(state));
        }
        let first = first_of(self.portion.turn, key, states.len());
        self.push(Task::Finish(Branching {
            key,
            assumptions,
            branches,
        }))?;
        self.visit_all(states, first)
    }

    /// Has these states closed: from one on that the turn tells, in the order of a round, where
    /// there are many. Of two the first one often closes the second, too, but not the other way
    /// round.
    fn visit_all(&mut self, mut states: Vec<MatchState>, first: usize) -> Result<(), AllocError>
        requires { first ≤ vec_len states }
    {
        if states.len() > 2 {
            states.rotate_right(first);
        }
        for state in states {
            self.push(Task::Visit(state))?;
        }
        Ok(())
    }

    /// What is below the literal. Where the state is settled, no lemma is due at it.
    fn below(
        &mut self,
        alloc: Global,
        state: &MatchState,
        literal: LitIndex,
        is_settled: bool,
        batch: &mut Batch,
    ) -> Result<Below, AllocError> {
        let level = self.engine.known.level();
        let settled = if is_settled { Some(level) } else { None };
        let conflict = self.engine.decide(alloc, literal)?;
        if conflict.is_some() {
            self.engine.known.back(level);
            return Ok(Below::Conflict);
        }
        if self.makes_lemmas(alloc, settled, batch)? {
            return Ok(Below::Lemmas);
        }
        let below = read_off(alloc, &self.shape, self.engine.known.trail(), state)?;
        self.engine.known.back(level);
        Ok(Below::State(below))
    }

    /// The same once no lemma is due there, unless that takes too many lines or rounds, or lemmas
    /// tell more of the state itself. Where lemmas are made, the state isn't settled any more.
    fn below_lemmas(
        &mut self,
        alloc: Global,
        state: &MatchState,
        assumptions: &[LitIndex],
        literal: LitIndex,
        is_settled: &mut bool,
        batch: &mut Batch,
    ) -> Result<Below, AllocError> {
        for _ in 0..MOST_ROUNDS {
            match self.below(alloc, state, literal, *is_settled, batch)? {
                Below::Lemmas => *is_settled = false,
                below => return Ok(below),
            }
            if batch.lines.len() >= self.portion.lines || !self.stand_on(alloc, assumptions)? {
                break;
            }
        }
        Ok(Below::Lemmas)
    }

    /// Adds what is below the literals, and answers whether lemmas were made, with the trail at
    /// level 0; else it stands as before.
    fn look_below(
        &mut self,
        alloc: Global,
        state: &MatchState,
        assumptions: &[LitIndex],
        literals: &[LitIndex],
        branches: &mut Vec<Branch>,
        states: &mut Vec<MatchState>,
        batch: &mut Batch,
    ) -> Result<bool, AllocError> {
        let mut is_settled = true;
        for literal in literals {
            let key = match self.below_lemmas(
                alloc,
                state,
                assumptions,
                *literal,
                &mut is_settled,
                batch,
            )? {
                Below::Lemmas => return Ok(true),
                Below::Conflict => None,
                Below::State(below) => {
                    let key = below.key();
                    states.push(below)?;
                    Some(key)
                }
            };
            branches.push(Branch {
                literal: *literal,
                key,
                clause: None,
            })?;
        }
        states.reverse();
        Ok(false)
    }
}
