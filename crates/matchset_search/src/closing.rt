//! Which states are closed, and by which clauses.

use crate::explorer::Explorer;
use matchsets::Key;
use propagation::ClauseRef;
use std::alloc::{AllocError, Global};

/// How many of the clauses that closed states with the same matched calls are tried.
const MOST_NEAR: usize = 16;

impl<'e> Explorer<'e> {
    /// The clause that closes the state with this key.
    pub(crate) fn clause_of(&self, key: Key) -> Option<ClauseRef> {
        self.table.get(&key.state).copied()
    }

    /// The state with this key is closed by this clause, which closed another one.
    pub(crate) fn close_too(&mut self, key: Key, clause: ClauseRef) -> Result<(), AllocError> {
        self.others.tell(key.state, clause)?;
        self.table.insert(key.state, clause)?;
        Ok(())
    }

    /// This clause closes the state with this key, and maybe others with the same matched calls.
    pub(crate) fn put_near(
        &mut self,
        alloc: Global,
        key: Key,
        clause: ClauseRef,
    ) -> Result<(), AllocError> {
        let clauses = self.near.entry(key.matched)?.or_insert(Vec::new(alloc));
        clauses.push(clause)?;
        Ok(())
    }

    /// The state with this key is closed by this clause.
    pub(crate) fn close(
        &mut self,
        alloc: Global,
        key: Key,
        clause: ClauseRef,
    ) -> Result<(), AllocError> {
        self.put_near(alloc, key, clause)?;
        self.close_too(key, clause)
    }

    /// The first of these clauses that is false, of the last few, from the last one on.
    fn first_false(&self, clauses: &[ClauseRef]) -> Option<ClauseRef> {
        clauses
            .iter()
            .rev()
            .take(MOST_NEAR)
            .find(|clause| self.engine.is_false(**clause))
            .copied()
    }

    /// A clause that closed a state with the same matched calls, and is false now.
    pub(crate) fn near_clause(&self, key: Key) -> Option<ClauseRef> {
        self.first_false(self.near.get(&key.matched)?)
    }

    /// Closes the first state by what closes the second.
    pub(crate) fn alias(&mut self, key: Key, other: Key) -> Result<(), AllocError> {
        match self.clause_of(other) {
            Some(clause) => self.close_too(key, clause),
            None => Ok(()),
        }
    }
}
