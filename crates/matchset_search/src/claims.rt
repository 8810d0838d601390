//! Which states searches over the same program are closing.

use matchsets::Key;
use std::alloc::{AllocError, Global};
use std::sync::atomic::{AtomicU64, Ordering};

/// How many states are told at most; a later one may take the place of another.
const PLACES: usize = 16_384;

/// So many last bits of a state's hash give way to the number of the search.
const BITS_OF_A_NUMBER: u32 = 6;

/// Which states searches over the same program are closing, so that each begins with others than
/// the rest. Nothing of it is trusted: what it lacks, or tells wrongly, makes searches do something
/// in another order, or twice.
#[derive(Drop)]
pub struct InProgress {
    states: Vec<AtomicU64>,
}

/// A place for each state.
fn no_states(alloc: Global) -> Result<Vec<AtomicU64>, AllocError> {
    let mut states = Vec::with_capacity(alloc, PLACES)?;
    for _ in 0..PLACES {
        states.push(AtomicU64::new(0))?;
    }
    Ok(states)
}

impl InProgress {
    /// None. Without memory for them none are ever told.
    pub fn new(alloc: Global) -> InProgress {
        InProgress {
            states: no_states(alloc).unwrap_or(Vec::new(alloc)),
        }
    }

    /// Whether another search than that of this number, from 0 and below 64, is closing the state;
    /// else this one is from now on.
    pub(crate) fn is_taken(&self, key: Key, number: u32) -> bool {
        let state = key.state >> BITS_OF_A_NUMBER;
        let Some(place) = self.states.get((state as usize) % PLACES) else {
            return false;
        };
        let name = (state << BITS_OF_A_NUMBER) | u64::from(number);
        let told = place.load(Ordering::SeqCst);
        if told != name && told >> BITS_OF_A_NUMBER == state {
            return true;
        }
        place.store(name, Ordering::SeqCst);
        false
    }
}
