//! What the workers of a search have told so far.

ghost use Rattle.std.specs.Prelude.{◌≡◌, ◌/◌, ◌^◌, ◌≤◌};

use crate::moment::{Moment, WHOLE};
use prover::Gate;
use std::sync::Wait;
use std::sync::atomic::{AtomicU64, Ordering};
use std::time::Duration;
use workers::Searched;

/// What a closed cube whose path has so many literals is of the tree; one of more than 56 counts
/// for nothing.
fn share_of(depth: usize) -> u64
    ensures { depth ≤ 56 → result ≡ 2 ^ 56 / 2 ^ depth }
{
    if depth > 56 { 0 } else { WHOLE >> depth }
}

/// What the workers of a search have told so far, and whether it is over. It holds no worker back.
#[derive(Drop)]
pub struct Counts {
    /// How many conflicts each worker may count.
    budget: u32,
    /// How many clauses the formula has; 0 until it is made.
    clauses: AtomicU64,
    /// 0 until a worker begins.
    begun: AtomicU64,
    open: AtomicU64,
    closed: AtomicU64,
    /// How much of the tree is closed.
    share: AtomicU64,
    lines: AtomicU64,
    conflicts: AtomicU64,
    set_lines: AtomicU64,
    /// The most that a worker has used of its budget.
    used: AtomicU64,
    /// 0 until the search is over.
    over: AtomicU64,
}

impl Counts {
    /// Nothing was told yet of a search each of whose workers has this budget.
    pub fn new(budget: u32) -> Counts
        ensures { result.budget ≡ budget }
    {
        Counts {
            budget,
            clauses: AtomicU64::new(0),
            begun: AtomicU64::new(0),
            open: AtomicU64::new(0),
            closed: AtomicU64::new(0),
            share: AtomicU64::new(0),
            lines: AtomicU64::new(0),
            conflicts: AtomicU64::new(0),
            set_lines: AtomicU64::new(0),
            used: AtomicU64::new(0),
            over: AtomicU64::new(0),
        }
    }

    /// Notes that the search is over, and wakes who rests.
    pub fn end(&self) {
        self.over.store(1, Ordering::SeqCst);
        self.over.wake_all();
    }

    /// Whether the search is over.
    pub fn is_over(&self) -> bool {
        self.over.load(Ordering::SeqCst) != 0
    }

    /// What was told so far, for the moment after so many seconds. Who tells a closed cube has told
    /// before how many are open, so the share is read first.
    pub fn at(&self, seconds: u64) -> Moment
        ensures seconds { result.seconds ≡ seconds }
        ensures budget { result.budget ≡ self.now.budget }
    {
        let share = self.share.load(Ordering::SeqCst);
        Moment {
            seconds,
            clauses: self.clauses.load(Ordering::SeqCst),
            is_begun: self.begun.load(Ordering::SeqCst) != 0,
            open: self.open.load(Ordering::SeqCst),
            closed: self.closed.load(Ordering::SeqCst),
            share,
            lines: self.lines.load(Ordering::SeqCst),
            conflicts: self.conflicts.load(Ordering::SeqCst),
            set_lines: self.set_lines.load(Ordering::SeqCst),
            used: self.used.load(Ordering::SeqCst),
            budget: self.budget,
        }
    }

    /// Rests for at most so long, and no longer than the search goes on. It may also return for no
    /// reason.
    pub(crate) fn rest<R: Wait>(&self, rt: &R, at_most: Duration) {
        self.over.park_timeout(rt, 0, at_most);
    }
}

impl Gate for Counts {
    fn formed(&self, clauses: usize) {
        self.clauses.store(clauses as u64, Ordering::SeqCst);
    }

    fn before(&self, _worker: u32, _cube: u32) {
        self.begun.store(1, Ordering::SeqCst);
    }

    fn after(&self, _worker: u32, searched: Searched) {
        self.begun.store(1, Ordering::SeqCst);
        self.open.store(u64::from(searched.open), Ordering::SeqCst);
        self.used.fetch_max(searched.used, Ordering::SeqCst);
        if searched.is_closed {
            self.closed.fetch_add(1, Ordering::SeqCst);
            self.share
                .fetch_add(share_of(searched.depth), Ordering::SeqCst);
        }
        let lines = searched.lines as u64;
        if searched.over_sets {
            self.set_lines.fetch_add(lines, Ordering::SeqCst);
            return;
        }
        self.lines.fetch_add(lines, Ordering::SeqCst);
        self.conflicts
            .fetch_add(searched.conflicts, Ordering::SeqCst);
    }
}
