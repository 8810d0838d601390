//! Which workers search below which cubes, and how many conflicts each counts.

use super::{RELAY, SENDERS, for_cubes, options, shown};
use prover::{Gate, Options, Searches};
use std::alloc::{AllocError, Global};
use std::process::Abort;
use std::sync::Wait;
use std::sync::atomic::{AtomicBool, AtomicU64, Ordering};
use std::test::Fail;
use std::thread;
use std::thread::Threads;
use workers::Searched;

/// Three ranks that each send to one rank, so nine pairs match.
const GATHER: &str =
    "ranks 4/policy none/rank 0/recv * 1/recv * 1/recv * 1/rank 1/send 0 1/rank 2/send 0 1/rank 3/send 0 1/";

/// Ten ranks that each send to one rank. It has no deadlock, which clauses learnt from some
/// thousand conflicts don't show.
pub const MANY: &str =
    "ranks 11/policy none/rank 0/recv * 1/recv * 1/recv * 1/recv * 1/recv * 1/recv * 1/recv * 1/recv * 1/recv * 1/recv * 1/rank 1/send 0 1/rank 2/send 0 1/rank 3/send 0 1/rank 4/send 0 1/rank 5/send 0 1/rank 6/send 0 1/rank 7/send 0 1/rank 8/send 0 1/rank 9/send 0 1/rank 10/send 0 1/";

/// Twelve such ranks: more than some ten thousand lines over sets of matched calls are needed, too.
const MORE: &str =
    "ranks 13/policy none/rank 0/recv * 1/recv * 1/recv * 1/recv * 1/recv * 1/recv * 1/recv * 1/recv * 1/recv * 1/recv * 1/recv * 1/recv * 1/rank 1/send 0 1/rank 2/send 0 1/rank 3/send 0 1/rank 4/send 0 1/rank 5/send 0 1/rank 6/send 0 1/rank 7/send 0 1/rank 8/send 0 1/rank 9/send 0 1/rank 10/send 0 1/rank 11/send 0 1/rank 12/send 0 1/";

/// What one worker was asked for, and told.
#[derive(Drop)]
struct Record {
    asked: AtomicU64,
    conflicts: AtomicU64,
}

/// Records what each worker is asked for, and holds each worker's first cube back until so many
/// workers have one, and then until worker 1 has so many.
#[derive(Drop)]
struct Recorder {
    records: Vec<Record>,
    /// The cubes below 64 that were asked for, as bits.
    cubes: AtomicU64,
    here: AtomicU64,
    wanted: u64,
    of_worker_one: u64,
    ran_out: AtomicBool,
}

impl Recorder {
    fn new(alloc: Global, wanted: u64, of_worker_one: u64) -> Result<Recorder, AllocError> {
        let mut records = Vec::with_capacity(alloc, 64)?;
        for _ in 0..64_u32 {
            records.push(Record {
                asked: AtomicU64::new(0),
                conflicts: AtomicU64::new(0),
            })?;
        }
        Ok(Recorder {
            records,
            cubes: AtomicU64::new(0),
            here: AtomicU64::new(0),
            wanted,
            of_worker_one,
            ran_out: AtomicBool::new(false),
        })
    }

    fn asked_of(&self, worker: usize) -> u64 {
        match self.records.get(worker) {
            Some(record) => record.asked.load(Ordering::SeqCst),
            None => 0,
        }
    }

    /// How many workers were asked.
    fn workers(&self) -> usize {
        let mut count: usize = 0;
        for record in &self.records {
            if record.asked.load(Ordering::SeqCst) > 0 {
                count = count.saturating_add(1);
            }
        }
        count
    }

    /// The most conflicts that a worker counted, and those of all.
    fn conflicts(&self) -> (u64, u64) {
        let mut most: u64 = 0;
        let mut sum: u64 = 0;
        for record in &self.records {
            let count = record.conflicts.load(Ordering::SeqCst);
            most = most.max(count);
            sum = sum.saturating_add(count);
        }
        (most, sum)
    }

    fn may_go_on(&self) -> bool {
        self.here.load(Ordering::SeqCst) >= self.wanted && self.asked_of(1) >= self.of_worker_one
    }
}

impl Gate for Recorder {
    fn before(&self, worker: u32, cube: u32) {
        let Some(record) = self.records.get(worker as usize) else {
            return;
        };
        if cube < 64 {
            self.cubes.fetch_or(1 << cube, Ordering::SeqCst);
        }
        if record.asked.fetch_add(1, Ordering::SeqCst) > 0 {
            return;
        }
        self.here.fetch_add(1, Ordering::SeqCst);
        if worker == 1 && self.of_worker_one > 0 {
            return;
        }
        for _ in 0..1_000_000_u32 {
            if self.may_go_on() {
                return;
            }
            thread::yield_now();
        }
        self.ran_out.store(true, Ordering::SeqCst);
    }

    fn after(&self, worker: u32, searched: Searched) {
        if let Some(record) = self.records.get(worker as usize) {
            record
                .conflicts
                .fetch_add(searched.conflicts, Ordering::SeqCst);
        }
    }
}

/// What was recorded of a run.
#[derive(Clone, Copy)]
struct Seen {
    answer: &'static str,
    cubes: u64,
    workers: usize,
    /// The most conflicts that a worker counted.
    most: u64,
    /// All conflicts.
    sum: u64,
    ran_out: bool,
}

/// Runs a search, each of whose workers waits with its first cube until `wanted` workers have one
/// and worker 1 has `of_worker_one`.
fn observed<R: Threads + Wait + Sync>(
    rt: &R,
    alloc: Global,
    text: &str,
    options: Options,
    wanted: u64,
    of_worker_one: u64,
) -> Result<Seen, Fail> {
    let gate = Recorder::new(alloc, wanted, of_worker_one)?;
    let answer = shown(rt, alloc, text, options, &gate)?;
    let (most, sum) = gate.conflicts();
    Ok(Seen {
        answer,
        cubes: gate.cubes.load(Ordering::SeqCst),
        workers: gate.workers(),
        most,
        sum,
        ran_out: gate.ran_out.load(Ordering::SeqCst),
    })
}

/// Asserts that one worker is asked for just the leaves of the full tree, whose nodes are numbered
/// level by level from 0.
fn assert_leaves<R: Abort + Threads + Wait + Sync>(
    rt: &R,
    alloc: Global,
    depth: u32,
    cubes: u64,
) -> Result<(), Fail> {
    let seen = observed(rt, alloc, RELAY, for_cubes(1, depth, 1_000_000)?, 1, 0)?;
    assert_eq!(rt; seen.answer, "no deadlock");
    assert_eq!(rt; seen.cubes, cubes, "depth {depth}");
    Ok(())
}

#[test]
fn depth_is_that_of_the_first_tree(rt: HostRuntime) -> Result<(), Fail> {
    assert_leaves(&rt, rt.alloc(), 0, 0b1)?;
    assert_leaves(&rt, rt.alloc(), 1, 0b110)?;
    assert_leaves(&rt, rt.alloc(), 2, 0b111_1000)
}

/// Asserts that so many workers have a cube at once, and no more have one ever.
fn assert_workers<R: Abort + Threads + Wait + Sync>(
    rt: &R,
    alloc: Global,
    workers: u32,
    depth: u32,
) -> Result<(), Fail> {
    let seen = observed(
        rt,
        alloc,
        GATHER,
        for_cubes(workers, depth, 1_000_000)?,
        u64::from(workers),
        0,
    )?;
    assert_eq!(rt; seen.answer, "no deadlock");
    assert!(rt; !seen.ran_out, "{workers} workers");
    assert_eq!(rt; seen.workers, workers as usize);
    Ok(())
}

#[test]
fn as_many_workers_as_asked_for(rt: HostRuntime) -> Result<(), Fail> {
    assert_workers(&rt, rt.alloc(), 1, 0)?;
    assert_workers(&rt, rt.alloc(), 2, 1)?;
    assert_workers(&rt, rt.alloc(), 4, 2)?;
    assert_workers(&rt, rt.alloc(), 64, 6)
}

/// Asserts that a worker counts as many conflicts as its own budget, and all together more.
fn assert_budgets<R: Abort + Threads + Wait + Sync>(
    rt: &R,
    alloc: Global,
    budget: u32,
) -> Result<(), Fail> {
    let seen = observed(rt, alloc, SENDERS, for_cubes(2, 1, budget)?, 2, 0)?;
    assert_eq!(rt; seen.answer, "unknown budget");
    assert!(rt; !seen.ran_out);
    assert_eq!(rt; seen.most, u64::from(budget));
    assert!(rt;
        seen.sum > u64::from(budget),
        "{budget} for all: {}",
        seen.sum
    );
    Ok(())
}

#[test]
fn each_worker_has_its_own_budget(rt: HostRuntime) -> Result<(), Fail> {
    assert_budgets(&rt, rt.alloc(), 100)?;
    assert_budgets(&rt, rt.alloc(), 3_000)
}

/// Worker 0 waits with its first cube of two until worker 1 has searched below its own two and
/// taken another one.
#[test]
fn a_worker_steals(rt: HostRuntime) -> Result<(), Fail> {
    let seen = observed(&rt, rt.alloc(), RELAY, for_cubes(2, 2, 1_000_000)?, 2, 3)?;
    assert_eq!(rt; seen.answer, "no deadlock");
    assert!(rt; !seen.ran_out);
    Ok(())
}

/// Where the whole formula is searched first and refuted, no worker is asked for a cube.
#[test]
fn the_whole_formula_first(rt: HostRuntime) -> Result<(), Fail> {
    let seen = observed(&rt, rt.alloc(), RELAY, options(4, 2, 1_000_000)?, 0, 0)?;
    assert_eq!(rt; seen.answer, "no deadlock");
    assert_eq!(rt; seen.workers, 0);
    Ok(())
}

/// Asserts that no worker counts more than its budget, the first search counted for worker 0, and
/// lines over sets of matched calls for the one that writes them.
fn assert_all_counted<R: Abort + Threads + Wait + Sync>(
    rt: &R,
    alloc: Global,
    workers: u32,
) -> Result<(), Fail> {
    let seen = observed(rt, alloc, MORE, options(workers, 0, 4_500)?, 0, 0)?;
    assert_eq!(rt; seen.answer, "unknown budget");
    assert_eq!(rt; seen.most, 4_500, "{workers} workers");
    Ok(())
}

#[test]
fn the_first_search_counts_for_worker_zero(rt: HostRuntime) -> Result<(), Fail> {
    assert_all_counted(&rt, rt.alloc(), 1)?;
    assert_all_counted(&rt, rt.alloc(), 4)
}

/// What so many workers come to by these searches, each with so small a budget.
fn come_to<R: Abort + Threads + Wait + Sync>(
    rt: &R,
    alloc: Global,
    workers: u32,
    budget: u32,
    searches: Searches,
) -> Result<&'static str, Fail> {
    let options = options(workers, 0, budget)?.with_searches(searches);
    Ok(observed(rt, alloc, MANY, options, 0, 0)?.answer)
}

/// Within 6,000 lines one worker refutes the formula over sets of matched calls, but not below
/// cubes. Four workers do so within half of that for each, since none of them searches over sets
/// that another one has closed.
#[test]
fn sets_are_fewer_than_orders(rt: HostRuntime) -> Result<(), Fail> {
    let alloc = rt.alloc();
    for (workers, budget, searches, answer) in [
        (1, 6_000, Searches::Sets, "no deadlock"),
        (1, 6_000, Searches::Cubes, "unknown budget"),
        (1, 3_000, Searches::Sets, "unknown budget"),
        (4, 3_000, Searches::Sets, "no deadlock"),
    ] {
        assert_eq!(rt; come_to(&rt, alloc, workers, budget, searches)?, answer);
    }
    Ok(())
}
