//! Searches with the usual options, past the opening, by workers that wait for one another.

use super::{MANY, SENDERS, for_cubes, options, shown};
use prover::Gate;
use std::sync::atomic::{AtomicBool, Ordering};
use std::test::Fail;
use std::thread;
use workers::Searched;

/// Waits until this is so; not for ever, which it answers.
fn came(flag: &AtomicBool) -> bool {
    for _ in 0..1_000_000_u32 {
        if flag.load(Ordering::SeqCst) {
            return true;
        }
        thread::yield_now();
    }
    false
}

/// Holds worker 1 back after its first search until worker 0 ends one too, and worker 0 after its
/// first search over sets of matched calls until worker 1 has ended one.
#[derive(Drop)]
struct Meeting {
    met: AtomicBool,
    second: AtomicBool,
    ran_out: AtomicBool,
}

impl Meeting {
    /// Waits for this.
    fn wait(&self, flag: &AtomicBool) {
        if !came(flag) {
            self.ran_out.store(true, Ordering::SeqCst);
        }
    }
}

impl Gate for Meeting {
    fn before(&self, _worker: u32, _cube: u32) {}

    fn after(&self, worker: u32, searched: Searched) {
        if worker > 0 {
            if !self.second.swap(true, Ordering::SeqCst) {
                self.wait(&self.met);
            }
            return;
        }
        if searched.over_sets {
            self.wait(&self.second);
        }
        if self.second.load(Ordering::SeqCst) {
            self.met.store(true, Ordering::SeqCst);
        }
    }
}

/// Two workers search at the same time: neither goes on past its first searches before the other
/// one has ended some.
#[test]
fn two_workers_hold_each_other(rt: HostRuntime) -> Result<(), Fail> {
    let gate = Meeting {
        met: AtomicBool::new(false),
        second: AtomicBool::new(false),
        ran_out: AtomicBool::new(false),
    };
    let options = options(2, 4, 1_000_000)?;
    assert_eq!(rt;
        shown(&rt, rt.alloc(), MANY, options, &gate)?,
        "no deadlock"
    );
    assert!(rt; !gate.ran_out.load(Ordering::SeqCst));
    assert!(rt; gate.met.load(Ordering::SeqCst));
    Ok(())
}

/// Notes whether a search over sets of matched calls was followed by one below a cube.
#[derive(Drop)]
struct Turning {
    over_sets: AtomicBool,
    below_cubes: AtomicBool,
}

impl Gate for Turning {
    fn before(&self, _worker: u32, _cube: u32) {}

    fn after(&self, _worker: u32, searched: Searched) {
        if searched.over_sets {
            self.over_sets.store(true, Ordering::SeqCst);
        } else if self.over_sets.load(Ordering::SeqCst) {
            self.below_cubes.store(true, Ordering::SeqCst);
        }
    }
}

/// A worker that searches over sets of matched calls goes on to cubes in its turn.
#[test]
fn turns_come_to_cubes(rt: HostRuntime) -> Result<(), Fail> {
    let gate = Turning {
        over_sets: AtomicBool::new(false),
        below_cubes: AtomicBool::new(false),
    };
    let options = options(1, 4, 1_000_000)?;
    assert_eq!(rt;
        shown(&rt, rt.alloc(), MANY, options, &gate)?,
        "no deadlock"
    );
    assert!(rt; gate.below_cubes.load(Ordering::SeqCst));
    Ok(())
}

/// Holds whoever takes a second cube back until both workers have had one.
#[derive(Drop)]
struct Waiting {
    first: AtomicBool,
    second: AtomicBool,
    ran_out: AtomicBool,
}

impl Gate for Waiting {
    fn before(&self, worker: u32, _cube: u32) {
        let (own, other) = if worker == 0 {
            (&self.first, &self.second)
        } else {
            (&self.second, &self.first)
        };
        if own.swap(true, Ordering::SeqCst) && !came(other) {
            self.ran_out.store(true, Ordering::SeqCst);
        }
    }
}

/// Of one cube, a worker without one waits for the half that the other one splits off.
#[test]
fn a_worker_waits_for_a_half(rt: HostRuntime) -> Result<(), Fail> {
    let gate = Waiting {
        first: AtomicBool::new(false),
        second: AtomicBool::new(false),
        ran_out: AtomicBool::new(false),
    };
    let options = for_cubes(2, 0, 1_000_000)?;
    assert_eq!(rt;
        shown(&rt, rt.alloc(), SENDERS, options, &gate)?,
        "no deadlock"
    );
    assert!(rt; !gate.ran_out.load(Ordering::SeqCst));
    assert!(rt; gate.first.load(Ordering::SeqCst) && gate.second.load(Ordering::SeqCst));
    Ok(())
}
