//! Numbers that are put together.

use std::alloc::{AllocError, Global};

/// Groups of the numbers below a bound, each led by its smallest.
#[derive(Drop)]
pub struct Groups {
    /// For each number a smaller one of its group; for one that leads, itself.
    smaller: Vec<usize>,
}

impl Groups {
    /// Each number below the bound as a group of its own.
    pub fn single(alloc: Global, bound: usize) -> Result<Groups, AllocError> {
        let mut smaller = Vec::with_capacity(alloc, bound)?;
        for number in 0..bound {
            smaller.push(number)?;
        }
        Ok(Groups { smaller })
    }

    /// The smaller number that stands for this one, or itself.
    fn next(&self, number: usize) -> usize {
        self.smaller.get(number).copied().unwrap_or(number)
    }

    /// The number that leads the group of this one. The way to it is made shorter, so that many
    /// questions take time near linear.
    pub fn leader(&mut self, number: usize) -> usize {
        let mut at = number;
        for _step in 0..self.smaller.len() {
            let next = self.next(at);
            if next == at {
                return at;
            }
            let far = self.next(next);
            if let Some(smaller) = self.smaller.get_mut(at) {
                *smaller = far;
            }
            at = far;
        }
        at
    }

    /// Makes one group of those of these two numbers.
    pub fn join(&mut self, one: usize, other: usize) {
        let one = self.leader(one);
        let other = self.leader(other);
        if let Some(smaller) = self.smaller.get_mut(one.max(other)) {
            *smaller = one.min(other);
        }
    }
}
