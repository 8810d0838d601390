//! How workers without a cube wait.

use std::sync::Wait;
use std::sync::atomic::{AtomicU64, Ordering};

/// Counts what may give a resting worker something to do, and wakes those that rest.
///
/// Who waits reads the count first, then looks for what it wants, and rests only until the count
/// differs from what it read; who changes something advances the count after the change. So no
/// change is missed.
#[derive(Drop)]
pub struct EventCount {
    word: AtomicU64,
}

impl EventCount {
    /// A count of nothing.
    pub fn new() -> EventCount {
        EventCount {
            word: AtomicU64::new(0),
        }
    }

    /// What is counted so far, modulo 2^32.
    pub fn read(&self) -> u32 {
        (self.word.load(Ordering::SeqCst) % 4_294_967_296) as u32
    }

    /// Counts one more, and wakes all that rest.
    pub fn advance(&self) {
        self.word.fetch_add(1, Ordering::SeqCst);
        self.word.wake_all();
    }

    /// Rests as long as the count is what was read. It may also return for no reason.
    pub fn rest<R: Wait>(&self, rt: &R, seen: u32) {
        self.word.park(rt, seen);
    }
}

impl Default for EventCount {
    fn default() -> EventCount {
        EventCount::new()
    }
}
