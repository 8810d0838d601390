//! Probing: what follows at level 0 because a variable can't be true alone.

use crate::engine::Engine;
use propagation::{ClauseRef, LitIndex, Truth};
use std::alloc::{AllocError, Global};

/// How many variables in a row are probed in vain at most. A probe is as dear as a conflict where
/// the formula is large, and those that fail mostly follow on each other.
const MOST_IN_VAIN: usize = 512;

/// How many of so many variables are probed at most where none fails.
pub(crate) fn most_in_vain(variables: usize) -> usize {
    variables.min(MOST_IN_VAIN)
}

impl Engine {
    /// The variable to probe next, as its positive literal.
    fn next_probe(&mut self) -> Option<LitIndex> {
        self.probes_left = self.probes_left.saturating_sub(1);
        let literal = self.probes.get(self.probe_place).copied();
        self.probe_place = match literal {
            Some(_) => self.probe_place + 1,
            None => 0,
        };
        literal
    }

    /// Makes this literal true alone. What follows isn't kept as phases: they would be those of
    /// many different cases.
    fn propagate_alone(
        &mut self,
        alloc: Global,
        literal: LitIndex,
    ) -> Result<Option<ClauseRef>, AllocError> {
        self.known.set_keeps_phases(false);
        self.known.decide(literal)?;
        let conflict = self.known.propagate(alloc)?;
        self.known.set_keeps_phases(true);
        Ok(conflict)
    }

    /// Makes the next variable true alone, and takes that back unless a clause has become false,
    /// which is answered.
    fn probe_next(&mut self, alloc: Global) -> Result<Option<ClauseRef>, AllocError> {
        let Some(literal) = self.next_probe() else {
            return Ok(None);
        };
        if self.known.value(literal) != Truth::Open {
            return Ok(None);
        }
        let conflict = self.propagate_alone(alloc, literal)?;
        if conflict.is_some() {
            self.probes_left = most_in_vain(self.probes.len() + 1);
        } else {
            self.back(0);
        }
        Ok(conflict)
    }

    /// Probes the variables that are left, until a clause has become false, which is answered.
    pub(crate) fn probe(&mut self, alloc: Global) -> Result<Option<ClauseRef>, AllocError> {
        for _ in 0..self.probes_left {
            let conflict = self.probe_next(alloc)?;
            if conflict.is_some() {
                return Ok(conflict);
            }
        }
        Ok(None)
    }
}
