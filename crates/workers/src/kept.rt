//! How many lines of the log are kept for searches over sets of matched calls.

use std::sync::atomic::{AtomicU64, Ordering};

/// How many lines they write at most: the log has room for more, but not for twice as many, as one
/// send more to a wildcard would take.
const MOST_IN_ALL: u64 = 600_000;

/// How many lines of the log are kept for searches over sets of matched calls, 600,000 unless
/// another number is given. Where the log has room for no more than these, workers no longer search
/// below cubes until they are used up; from then on they search below cubes alone.
#[derive(Drop)]
pub struct KeptLines {
    most: u64,
    used: AtomicU64,
}

impl KeptLines {
    /// The usual number of lines, of which none is used.
    pub fn new() -> KeptLines {
        KeptLines::of(MOST_IN_ALL)
    }

    /// So many lines, of which none is used.
    pub fn of(most: u64) -> KeptLines {
        KeptLines {
            most,
            used: AtomicU64::new(0),
        }
    }

    /// So many more are used.
    pub(crate) fn use_up(&self, lines: u64) {
        self.used.fetch_add(lines, Ordering::SeqCst);
    }

    /// How many are left.
    pub(crate) fn count(&self) -> u64 {
        self.most.saturating_sub(self.used.load(Ordering::SeqCst))
    }
}

impl Default for KeptLines {
    fn default() -> KeptLines {
        KeptLines::new()
    }
}
