//! Which states the searches over sets of matched calls have closed, and which lemmas they made.

use matchset_search::{ClosedState, InProgress};
use std::alloc::{AllocError, Global};
use std::sync::{Mutex, Wait};

/// A state that a worker closed, or a lemma that it made.
#[derive(Clone, Copy)]
struct Entry {
    worker: u32,
    closing: ClosedState,
}

/// The states that any worker's search over sets of matched calls has closed, and the lemmas that
/// it has made, in the order in which that was told, and the states that each is closing.
#[derive(Drop)]
pub struct ClosedStates {
    entries: Mutex<Vec<Entry>>,
    pub(crate) claims: InProgress,
}

impl ClosedStates {
    /// None.
    pub fn new(alloc: Global) -> ClosedStates {
        ClosedStates {
            entries: Mutex::new(Vec::new(alloc)),
            claims: InProgress::new(alloc),
        }
    }

    /// Adds those that this worker closed.
    pub(crate) fn add<R: Wait>(
        &self,
        rt: &R,
        worker: u32,
        closings: &[ClosedState],
    ) -> Result<(), AllocError> {
        let mut entries = self.entries.lock(rt);
        for closing in closings {
            entries.push(Entry {
                worker,
                closing: *closing,
            })?;
        }
        Ok(())
    }

    /// Those after the first so many that other workers closed, and how many there are in all.
    pub(crate) fn others<R: Wait>(
        &self,
        rt: &R,
        alloc: Global,
        worker: u32,
        from: usize,
    ) -> Result<(Vec<ClosedState>, usize), AllocError> {
        let entries = self.entries.lock(rt);
        let mut closings = Vec::new(alloc);
        for place in from..entries.len() {
            let entry = entries[place];
            if entry.worker != worker {
                closings.push(entry.closing)?;
            }
        }
        Ok((closings, entries.len()))
    }
}
