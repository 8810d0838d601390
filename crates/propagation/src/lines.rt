//! The lines of a batch, until they come back with their numbers.

use crate::batch::add_line;
use crate::literal::LitIndex;
use crate::propagator::Propagator;
use crate::reference::{ClauseRef, Origin};
use refutations::Batch;
use std::alloc::{AllocError, Global};

/// A line of the batch.
#[derive(Drop)]
struct Line {
    clause: ClauseRef,
    /// Its literals, rising.
    rising: Vec<LitIndex>,
}

/// Lines of a batch, and how many of them came back.
#[derive(Drop)]
pub(crate) struct Lines {
    lines: Vec<Line>,
    returned: usize,
}

impl Lines {
    /// No line.
    pub(crate) fn new(alloc: Global) -> Lines {
        Lines {
            lines: Vec::new(alloc),
            returned: 0,
        }
    }
}

impl Propagator {
    /// One more line of these literals, which are given as they are to be watched and as they rise,
    /// and its clause; none where there is no number left for it.
    pub fn add_line(
        &mut self,
        alloc: Global,
        literals: &[LitIndex],
        rising: &[LitIndex],
        origins: &[Origin],
        glue: u32,
        batch: &mut Batch,
    ) -> Result<Option<ClauseRef>, AllocError> {
        let Some(origin) = add_line(alloc, batch, rising, origins)? else {
            return Ok(None);
        };
        let clause = self.store.add(literals, origin, glue)?;
        self.lines.lines.push(Line {
            clause: clause.unwrap_or(ClauseRef::none()),
            rising: rising.to_vec(alloc)?,
        })?;
        Ok(clause)
    }

    /// The clause of the line at this place, from 0, of those that were added.
    pub fn line(&self, place: usize) -> Option<ClauseRef> {
        let line = self.lines.lines.get(place)?;
        Some(line.clause)
    }

    /// How many lines came back.
    pub fn returned(&self) -> usize {
        self.lines.returned
    }

    /// Where the next line to come back has these literals, which rise, it comes from there from
    /// now on. Answers whether it has.
    pub fn take_back(&mut self, rising: &[LitIndex], origin: Origin) -> bool {
        match self.lines.lines.get(self.lines.returned) {
            Some(line) if line.rising.as_slice() == rising => {
                self.store.set_origin(line.clause, origin);
                self.lines.returned += 1;
                true
            }
            _ => false,
        }
    }

    /// Waits for no line any more, and answers whether some didn't come back.
    pub fn end_batch(&mut self) -> bool {
        let is_lost = self.lines.returned < self.lines.lines.len();
        self.lines.lines.clear();
        self.lines.returned = 0;
        is_lost
    }
}
