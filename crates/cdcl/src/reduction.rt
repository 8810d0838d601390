//! Dropping clauses between searches.

use crate::engine::Engine;
use propagation::{ClauseRef, Propagator};
use std::alloc::{AllocError, Global};

/// How many learnt clauses more are kept after each reduction.
const MORE: usize = 1_000;

/// The middle one of the ranks of these clauses.
fn median_rank(
    alloc: Global,
    known: &Propagator,
    clauses: &[ClauseRef],
) -> Result<u64, AllocError> {
    let mut ranks = Vec::new(alloc);
    for clause in clauses {
        if let Some(rank) = known.rank(*clause) {
            ranks.push(rank)?;
        }
    }
    ranks.sort_unstable();
    Ok(ranks.get(ranks.len() / 2).copied().unwrap_or(u64::MAX))
}

impl Engine {
    /// Whether a learnt clause stays, whose rank has to be below the last one. What gives a value
    /// at level 0 stays, since clauses that it settles are dropped for good.
    fn is_chosen(&self, clause: ClauseRef, most: u64) -> bool {
        if self.known.is_reason(clause) {
            return true;
        }
        if self.known.is_settled(clause) {
            return false;
        }
        match self.known.rank(clause) {
            Some(rank) => rank < most,
            None => true,
        }
    }

    /// Those of these clauses that stay.
    fn chosen(
        &self,
        alloc: Global,
        clauses: &[ClauseRef],
        most: u64,
    ) -> Result<Vec<ClauseRef>, AllocError> {
        let mut chosen = Vec::new(alloc);
        for clause in clauses {
            if self.is_chosen(*clause, most) {
                chosen.push(*clause)?;
            }
        }
        Ok(chosen)
    }

    /// Drops lines that have no number, and all values.
    fn drop_lost(&mut self, alloc: Global) -> Result<(), AllocError> {
        self.free_from(0);
        self.known.drop_lost(alloc)?;
        let learnt = self.known.learnt(alloc)?;
        self.learnt = self.count_learnt(&learnt);
        Ok(())
    }

    /// How many of these clauses have more than one level.
    fn count_learnt(&self, clauses: &[ClauseRef]) -> usize {
        clauses
            .iter()
            .filter(|clause| self.known.glue(**clause) > 1)
            .count()
    }

    /// Drops half of the learnt clauses, and those that level 0 settles, which are no longer
    /// watched either.
    fn reduce(&mut self, alloc: Global) -> Result<(), AllocError> {
        if self.known.propagate(alloc)?.is_some() {
            return Ok(());
        }
        self.limit = self.limit.saturating_add(MORE);
        let learnt = self.known.learnt(alloc)?;
        let most = median_rank(alloc, &self.known, &learnt)?;
        let chosen = self.chosen(alloc, &learnt, most)?;
        self.learnt = self.count_learnt(&chosen);
        self.known.keep(alloc, &chosen)
    }

    /// Goes back to level 0, and drops lines that never came back, and then others where many were
    /// learnt.
    pub(crate) fn begin(&mut self, alloc: Global) -> Result<(), AllocError> {
        self.back(0);
        if self.known.end_batch() {
            self.drop_lost(alloc)?;
        }
        if self.learnt > self.limit {
            return self.reduce(alloc);
        }
        Ok(())
    }
}
