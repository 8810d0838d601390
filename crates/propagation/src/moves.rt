//! Where clauses are after others were dropped.

use crate::reference::ClauseRef;
use std::alloc::{AllocError, Global};

/// Where each clause is now. Those before a first place didn't move.
#[derive(Drop)]
pub(crate) struct Moves {
    first: usize,
    places: Vec<ClauseRef>,
}

impl Moves {
    /// From the first place on, where so many words stood, all clauses were dropped.
    pub(crate) fn new(alloc: Global, first: usize, count: usize) -> Result<Moves, AllocError> {
        let places = vec![in alloc; ClauseRef::none(); count]?;
        Ok(Moves { first, places })
    }

    /// The clause is at another place now.
    pub(crate) fn set(&mut self, old: ClauseRef, now: ClauseRef) {
        let place = old.place().saturating_sub(self.first);
        if let Some(entry) = self.places.get_mut(place) {
            *entry = now;
        }
    }

    /// Where the clause is now; none where it was dropped.
    pub(crate) fn place(&self, clause: ClauseRef) -> Option<ClauseRef> {
        let Some(place) = clause.place().checked_sub(self.first) else {
            return Some(clause);
        };
        match self.places.get(place) {
            Some(now) if !now.is_none() => Some(*now),
            _ => None,
        }
    }
}
