//! What a worker did, as its share and its gate are told it.

use std::sync::atomic::{AtomicBool, AtomicU64, Ordering};

/// More than any number of a worker or a cube.
const NONE: u64 = u64::MAX;

/// Notes of what a worker did. Its calls of `status` and `leave` aren't noted: it makes both after
/// a refusal too.
#[derive(Drop)]
pub struct Trail {
    /// The worker with which the gate was called last before a search.
    worker: AtomicU64,
    /// The cube with which it was called then.
    cube: AtomicU64,
    /// How often it was called before a search.
    cubes: AtomicU64,
    /// How many searches began below another cube than that, or were told to have ended by another
    /// worker.
    strayed: AtomicU64,
    /// How many lines were learnt, as the gate is told after each search.
    lines: AtomicU64,
    /// Whether a call was refused.
    is_refused: AtomicBool,
    /// How many calls were made after that.
    late: AtomicU64,
    /// How many lists of lines were counted.
    fetches: AtomicU64,
}

/// What was noted.
#[derive(Clone, Copy, Debug, PartialEq, Eq)]
pub struct Noted {
    /// The worker with which the gate was called last before a search; [`u64::MAX`] where it wasn't
    /// called.
    pub worker: u64,
    /// How many cubes it was called before.
    pub cubes: u64,
    /// How many searches began below another cube than it was called with, or were told to have
    /// ended by another worker.
    pub strayed: u64,
    /// How many lines were learnt.
    pub lines: u64,
    /// How many calls were made after one was refused.
    pub late: u64,
}

impl Trail {
    /// Notes of nothing.
    pub fn new() -> Trail {
        Trail {
            worker: AtomicU64::new(NONE),
            cube: AtomicU64::new(NONE),
            cubes: AtomicU64::new(0),
            strayed: AtomicU64::new(0),
            lines: AtomicU64::new(0),
            is_refused: AtomicBool::new(false),
            late: AtomicU64::new(0),
            fetches: AtomicU64::new(0),
        }
    }

    /// One more list of lines is asked for. Answers how many were by now.
    pub fn fetch(&self) -> u64 {
        self.fetches
            .fetch_add(1, Ordering::SeqCst)
            .saturating_add(1)
    }

    /// The gate is called before a search.
    pub fn pass(&self, worker: u32, cube: u32) {
        self.worker.store(u64::from(worker), Ordering::SeqCst);
        self.cube.store(u64::from(cube), Ordering::SeqCst);
        self.cubes.fetch_add(1, Ordering::SeqCst);
    }

    /// A search below a cube begins.
    pub fn begin(&self, cube: u32) {
        if self.cube.load(Ordering::SeqCst) != u64::from(cube) {
            self.strayed.fetch_add(1, Ordering::SeqCst);
        }
    }

    /// The gate is called after a search, which learnt so many lines.
    pub fn end(&self, worker: u32, lines: usize) {
        if self.worker.load(Ordering::SeqCst) != u64::from(worker) {
            self.strayed.fetch_add(1, Ordering::SeqCst);
        }
        self.lines.fetch_add(lines as u64, Ordering::SeqCst);
    }

    /// The share is asked something, which it may refuse.
    pub fn ask(&self, is_refused: bool) {
        if self.is_refused.load(Ordering::SeqCst) {
            self.late.fetch_add(1, Ordering::SeqCst);
        }
        if is_refused {
            self.is_refused.store(true, Ordering::SeqCst);
        }
    }

    /// What is noted so far.
    pub fn noted(&self) -> Noted {
        Noted {
            worker: self.worker.load(Ordering::SeqCst),
            cubes: self.cubes.load(Ordering::SeqCst),
            strayed: self.strayed.load(Ordering::SeqCst),
            lines: self.lines.load(Ordering::SeqCst),
            late: self.late.load(Ordering::SeqCst),
        }
    }
}
