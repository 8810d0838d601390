//! What searches over the same program tell each other.

use clauses::Clause;
use pages::{Lines, Log};
use propagation::{ClauseRef, Origin};
use std::alloc::{AllocError, Global};
use std::collections::HashMap;

/// A state that a search closed, or a lemma that it made, and the clause by which it did.
#[derive(Clone, Copy, PartialEq, Eq)]
pub struct ClosedState {
    /// What tells the state or the lemma from nearly all others of the same program.
    pub state: u64,
    /// The clause's number, from 1.
    pub number: u32,
}

/// The same, with the clause itself.
#[derive(Clone, Copy)]
pub(crate) struct Told {
    pub(crate) state: u64,
    pub(crate) clause: ClauseRef,
}

/// What others closed, and the lines by which they did, and what this search closed in the last
/// batch. Nothing of it is trusted: a clause that isn't the state's is of no use, and no harm.
#[derive(Drop)]
pub(crate) struct SharedClosed {
    alloc: Global,
    clauses: usize,
    numbers: HashMap<u64, u32>,
    pub(crate) told: Vec<Told>,
    /// The place in the log, from 0, of the first line that is known of it.
    first: usize,
    /// The lines that are known, from there on.
    log: Log,
}

impl SharedClosed {
    /// Nothing, of a formula of so many clauses.
    pub(crate) fn new(alloc: Global, clauses: usize) -> SharedClosed {
        SharedClosed {
            alloc,
            clauses,
            numbers: HashMap::new(alloc),
            told: Vec::new(alloc),
            first: 0,
            log: Log::new(alloc),
        }
    }

    /// Puts these lines of the log in, from this place on, in place of those that are in from there
    /// on. Where lines between are missing, all others go.
    pub(crate) fn put_lines(&mut self, first: usize, lines: Lines) -> Result<(), AllocError> {
        if lines.len() == 0 {
            return Ok(());
        }
        match first.checked_sub(self.first) {
            Some(from) if from <= self.log.len() => {
                self.log.follow_unseen(self.alloc, from, &lines)
            }
            _ => self.put_first(first, &lines),
        }
    }

    /// Puts these lines in alone.
    fn put_first(&mut self, first: usize, lines: &Lines) -> Result<(), AllocError> {
        self.log = Log::new(self.alloc);
        self.first = first;
        self.log.follow(self.alloc, 0, lines)
    }

    /// Puts these states and lemmas in, whose clauses are those of the formula and then of the
    /// lines.
    pub(crate) fn take_in(&mut self, closings: &[ClosedState]) -> Result<(), AllocError> {
        for closing in closings {
            self.numbers.insert(closing.state, closing.number)?;
        }
        Ok(())
    }

    /// This search closed this state, or made this lemma, by this clause.
    pub(crate) fn tell(&mut self, state: u64, clause: ClauseRef) -> Result<(), AllocError> {
        self.told.push(Told { state, clause })?;
        Ok(())
    }

    /// Whether nothing is known of others.
    pub(crate) fn is_empty(&self) -> bool {
        self.numbers.is_empty()
    }

    /// Forgets that the state that this number tells is closed.
    pub(crate) fn forget(&mut self, state: u64) {
        self.numbers.remove(&state);
    }

    /// The line of the lemma that this number tells, and where it comes from. It is forgotten then.
    pub(crate) fn take_lemma(&mut self, state: u64) -> Option<(Origin, &Clause)> {
        let number = self.numbers.remove(&state)?;
        Some((Origin::of_number(number)?, self.line(number)?))
    }

    /// The line of this number.
    fn line(&self, number: u32) -> Option<&Clause> {
        let place = (number as usize).checked_sub(self.clauses)?.checked_sub(1)?;
        let line = self.log.get(place.checked_sub(self.first)?)?;
        Some(line.clause())
    }

    /// The line by which the state that this number tells is closed, and where it comes from.
    pub(crate) fn closing(&self, state: u64) -> Option<(Origin, &Clause)> {
        if self.is_empty() {
            return None;
        }
        let number = *self.numbers.get(&state)?;
        Some((Origin::of_number(number)?, self.line(number)?))
    }
}
