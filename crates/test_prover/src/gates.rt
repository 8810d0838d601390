//! In the programs' texts `/` stands for the end of a line.

mod pieces_at_once;
mod recorded;
mod telling;
mod usual;

use prooflog::Text;
use prover::{Answer, Gate, Options, Searches, Verdict, Why, prove, verdict};
use recorded::MANY;
use std::alloc::Global;
use std::sync::Wait;
use std::sync::atomic::{AtomicBool, AtomicU64, Ordering};
use std::test::Fail;
use std::thread;
use std::thread::Threads;

/// A program without deadlock, whose tree of depth 2 has four leaves.
const RELAY: &str =
    "ranks 3/policy none/rank 0/send 1 1/send 2 1/rank 1/send 2 1/recv 0 1/rank 2/recv * 1/recv 0 1/";

/// Seven ranks that each send to one rank. It has no deadlock, but that takes more conflicts than
/// one search counts.
const SENDERS: &str =
    "ranks 8/policy none/rank 0/recv * 1/recv * 1/recv * 1/recv * 1/recv * 1/recv * 1/recv * 1/rank 1/send 0 1/rank 2/send 0 1/rank 3/send 0 1/rank 4/send 0 1/rank 5/send 0 1/rank 6/send 0 1/rank 7/send 0 1/";

/// Holds the first cube back until a second one is asked for, but not for ever.
#[derive(Drop)]
struct Holding {
    asked: AtomicU64,
    ran_out: AtomicBool,
}

impl Gate for Holding {
    fn before(&self, _worker: u32, _cube: u32) {
        if self.asked.fetch_add(1, Ordering::SeqCst) > 0 {
            return;
        }
        for _ in 0..1_000_000_u32 {
            if self.asked.load(Ordering::SeqCst) > 1 {
                return;
            }
            thread::yield_now();
        }
        self.ran_out.store(true, Ordering::SeqCst);
    }
}

/// Counts the cubes, and adds up the numbers of the workers that took them.
#[derive(Drop)]
struct Counter {
    asked: AtomicU64,
    workers: AtomicU64,
}

impl Gate for Counter {
    fn before(&self, worker: u32, _cube: u32) {
        self.asked.fetch_add(1, Ordering::SeqCst);
        self.workers.fetch_add(u64::from(worker), Ordering::SeqCst);
    }
}

fn options(workers: u32, depth: u32, budget: u32) -> Result<Options, Fail> {
    Options::make(workers, depth, budget).ok_or_else(|| Fail::from("options out of range"))
}

/// The same, where nothing but cubes is searched.
fn for_cubes(workers: u32, depth: u32, budget: u32) -> Result<Options, Fail> {
    Ok(options(workers, depth, budget)?.with_searches(Searches::Cubes))
}

/// What the evidence of the answer shows of the program, or what the answer is.
fn shown<R: Threads + Wait + Sync, G: Gate + Sync>(
    rt: &R,
    alloc: Global,
    text: &str,
    options: Options,
    gate: &G,
) -> Result<&'static str, Fail> {
    let text = text.replace(alloc, '/', "\n")?;
    Ok(shown_of(rt, alloc, text.as_bytes(), options, gate))
}

fn shown_of<R: Threads + Wait + Sync, G: Gate + Sync>(
    rt: &R,
    alloc: Global,
    text: &[u8],
    options: Options,
    gate: &G,
) -> &'static str {
    match prove(rt, alloc, text, options, gate) {
        Answer::NoDeadlock(evidence) => shown_by(rt, alloc, text, &evidence),
        Answer::Deadlock(evidence) => shown_by(rt, alloc, text, &evidence),
        Answer::Unknown(Why::Budget) => "unknown budget",
        Answer::Unknown(_) => "unknown",
        Answer::Refused(_reason) => "refused",
    }
}

fn shown_by<R: Threads + Sync>(
    rt: &R,
    alloc: Global,
    text: &[u8],
    evidence: &Text,
) -> &'static str {
    let Ok(evidence) = evidence.joined(alloc) else {
        return "memory";
    };
    match verdict(rt, alloc, text, &evidence) {
        Verdict::NoDeadlock => "no deadlock",
        Verdict::Deadlock => "deadlock",
        Verdict::Refused(_reason) => "refused evidence",
    }
}

#[test]
fn gate_two_cubes(rt: HostRuntime) -> Result<(), Fail> {
    let gate = Holding {
        asked: AtomicU64::new(0),
        ran_out: AtomicBool::new(false),
    };
    let options = for_cubes(4, 2, 1_000_000)?;
    assert_eq!(rt;
        shown(&rt, rt.alloc(), RELAY, options, &gate)?,
        "no deadlock"
    );
    assert!(rt; !gate.ran_out.load(Ordering::SeqCst));
    assert!(rt; gate.asked.load(Ordering::SeqCst) >= 2);
    Ok(())
}

#[test]
fn one_worker_takes_all(rt: HostRuntime) -> Result<(), Fail> {
    let gate = Counter {
        asked: AtomicU64::new(0),
        workers: AtomicU64::new(0),
    };
    let options = for_cubes(1, 2, 1_000_000)?;
    assert_eq!(rt;
        shown(&rt, rt.alloc(), RELAY, options, &gate)?,
        "no deadlock"
    );
    assert_eq!(rt; gate.asked.load(Ordering::SeqCst), 4);
    assert_eq!(rt; gate.workers.load(Ordering::SeqCst), 0);
    Ok(())
}

#[test]
fn halves_are_shared(rt: HostRuntime) -> Result<(), Fail> {
    for workers in [1, 2, 4, 64] {
        let gate = Counter {
            asked: AtomicU64::new(0),
            workers: AtomicU64::new(0),
        };
        let options = for_cubes(workers, 0, 1_000_000)?;
        assert_eq!(rt;
            shown(&rt, rt.alloc(), SENDERS, options, &gate)?,
            "no deadlock"
        );
        assert!(rt; gate.asked.load(Ordering::SeqCst) > 1, "{workers}");
    }
    Ok(())
}

#[test]
fn each_worker_has_a_budget(rt: HostRuntime) -> Result<(), Fail> {
    let gate = Counter {
        asked: AtomicU64::new(0),
        workers: AtomicU64::new(0),
    };
    for workers in [1, 4] {
        let options = options(workers, 0, 100)?;
        assert_eq!(rt;
            shown(&rt, rt.alloc(), SENDERS, options, &gate)?,
            "unknown budget"
        );
    }
    Ok(())
}
