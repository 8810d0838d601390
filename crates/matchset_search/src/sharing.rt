//! What searches over the same program tell each other, taken in and handed out.

use crate::claims::InProgress;
use crate::explorer::Explorer;
use crate::others::ClosedState;
use crate::tasks::Task;
use matchsets::Key;
use pages::Lines;
use propagation::{LitIndex, indices_of};
use refutations::Hint;
use std::alloc::{AllocError, Global};

impl<'e> Explorer<'e> {
    /// Has the search of this number begin elsewhere than others that have these claims.
    pub(crate) fn share(&mut self, claims: &'e InProgress, number: u32) {
        self.claims = Some(claims);
        self.portion.turn = number;
    }

    /// Takes in what others closed and made, by clauses of the formula and then of the log's lines,
    /// of which these come next, from this place on.
    pub(crate) fn take_in(
        &mut self,
        first: usize,
        lines: Lines,
        closings: &[ClosedState],
    ) -> Result<(), AllocError> {
        self.others.put_lines(first, lines)?;
        self.others.take_in(closings)
    }

    /// The states that were closed in the last batch, whose first line has this number, and the
    /// lemmas that were made.
    pub(crate) fn closings(
        &self,
        alloc: Global,
        base: u32,
    ) -> Result<Vec<ClosedState>, AllocError> {
        let mut closings = Vec::with_capacity(alloc, self.others.told.len())?;
        for told in &self.others.told {
            let number = match self.engine.known.origin(told.clause).hint() {
                Hint::Own(place) => base.saturating_add(place),
                Hint::Known(number) => number,
            };
            closings.push(ClosedState {
                state: told.state,
                number,
            })?;
        }
        Ok(closings)
    }

    /// Whether another search is closing the state with this key; else this one is from now on.
    pub(crate) fn is_taken(&self, key: Key) -> bool {
        match self.claims {
            Some(claims) => claims.is_taken(key, self.portion.turn),
            None => false,
        }
    }

    /// What the task at this place assumes of the state that it is to close, where others closed
    /// that.
    fn assumed_of_closed(
        &self,
        alloc: Global,
        place: usize,
    ) -> Result<Option<Vec<LitIndex>>, AllocError> {
        let Some((key, assumptions)) = self.tasks.get(place).and_then(Task::closing) else {
            return Ok(None);
        };
        if self.others.closing(key.state).is_none() {
            return Ok(None);
        }
        Ok(Some(assumptions.to_vec(alloc)?))
    }

    /// The key of the state that the task at this place is to close.
    fn key_at(&self, place: usize) -> Option<Key> {
        let (key, _assumptions) = self.tasks.get(place).and_then(Task::closing)?;
        Some(key)
    }

    /// Closes the state that the task at this place is to close by the clause of others that does,
    /// and drops all that was to be done for it. Answers whether the clause closes it.
    fn drop_task(&mut self, alloc: Global, place: usize) -> Result<bool, AllocError> {
        let Some(assumptions) = self.assumed_of_closed(alloc, place)? else {
            return Ok(false);
        };
        if !self.stand_on(alloc, &assumptions)? {
            return Ok(false);
        }
        let Some(key) = self.key_at(place) else {
            return Ok(false);
        };
        if !self.take_over(alloc, key)? {
            self.others.forget(key.state);
            return Ok(false);
        }
        self.tasks.truncate(place);
        Ok(true)
    }

    /// Drops the first task for a state that others have closed, and all that was to be done for it
    /// before.
    pub(crate) fn drop_closed(&mut self, alloc: Global) -> Result<(), AllocError> {
        for place in 0..self.tasks.len() {
            if self.drop_task(alloc, place)? {
                return Ok(());
            }
        }
        Ok(())
    }

    /// Closes the state with this key, whose assumptions stand on the trail, by the clause of
    /// others that closes it, and answers whether there is one that is false. What others know may
    /// make one false that isn't so here.
    pub(crate) fn take_over(&mut self, alloc: Global, key: Key) -> Result<bool, AllocError> {
        let Some((origin, clause)) = self.others.closing(key.state) else {
            return Ok(false);
        };
        let literals = indices_of(alloc, clause.literals())?;
        if !self.engine.known.are_false(&literals) {
            return Ok(false);
        }
        let Some(clause) = self.engine.known.add(&literals, origin, 0)? else {
            return Ok(false);
        };
        self.put_near(alloc, key, clause)?;
        self.table.insert(key.state, clause)?;
        Ok(true)
    }

    /// The same where that clause is false under the assumptions alone, as most are, so that
    /// nothing has to follow from them.
    pub(crate) fn takes_over(
        &mut self,
        alloc: Global,
        key: Key,
        assumptions: &[LitIndex],
    ) -> Result<bool, AllocError> {
        if self.others.closing(key.state).is_none() {
            return Ok(false);
        }
        self.engine.suppose(assumptions)?;
        self.take_over(alloc, key)
    }
}
