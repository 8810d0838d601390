//! A worker that searches over sets of matched calls, and has no cube, or no line left for that.

use crate::searches::fake::{Fake, Lie};
use crate::searches::{ENOUGH, SENDERS, WORKER, encoded, is_refuted, leaves, opened};
use encode::Encoded;
use std::alloc::Global;
use std::sync::Wait;
use std::test::Fail;
use std::thread::Threads;
use steal::Supply;
use workers::{
    ClosedStates, Cubes, EventCount, Exploring, KeptLines, Opening, SearchContext, work,
};

/// Ten ranks that each send to one rank. It has no deadlock, which clauses learnt from some
/// thousand conflicts don't show.
const MANY: &str =
    "ranks 11/policy none/rank 0/recv * 1/recv * 1/recv * 1/recv * 1/recv * 1/recv * 1/recv * 1/recv * 1/recv * 1/recv * 1/rank 1/send 0 1/rank 2/send 0 1/rank 3/send 0 1/rank 4/send 0 1/rank 5/send 0 1/rank 6/send 0 1/rank 7/send 0 1/rank 8/send 0 1/rank 9/send 0 1/rank 10/send 0 1/";

/// How often in a row a cube is asked for in vain at most while nothing is learnt.
const PATIENCE: u32 = 3;

/// How long a worker is left without a cube: as long as it learns without one.
#[derive(Drop)]
struct Patience {
    /// How many lines were learnt when a cube was asked for last.
    lines: u64,
    /// How often it was asked for since.
    asked: u32,
}

impl Patience {
    /// Whether the worker still waits, after so many lines.
    fn waits(&mut self, lines: u64) -> bool {
        if lines > self.lines {
            self.lines = lines;
            self.asked = 0;
        }
        self.asked = self.asked.saturating_add(1);
        self.asked <= PATIENCE
    }
}

/// Cubes that are handed out once nothing more is learnt without them, and no room for more.
#[derive(Drop)]
struct Late<'s> {
    share: &'s Fake,
    cubes: Supply,
    patience: Patience,
}

impl Cubes for Late<'_> {
    ghost use Rattle.steal.specs.Supplies.{deques_of};

    ghost deques = { λ late. deques_of late.cubes };

    fn take(&mut self) -> Option<u32> {
        if self.patience.waits(self.share.trail.noted().lines) {
            return None;
        }
        self.cubes.take()
    }

    fn put(&mut self, cube: u32) -> Result<(), u32> {
        Err(cube)
    }
}

/// Has one worker of this number search this formula over the share, where so many lines are kept
/// for searches over sets of matched calls.
fn worked_on<R: Threads + Wait + Sync, C: Cubes>(
    rt: &R,
    alloc: Global,
    encoded: &Encoded,
    share: &Fake,
    cubes: &mut C,
    kept: &KeptLines,
    exploring: Exploring,
    worker: u32,
) -> Result<(), Fail> {
    let events = EventCount::new();
    let closed = ClosedStates::new(alloc);
    let common = SearchContext {
        encoded,
        shared: share,
        gate: share,
        events: &events,
        budget: ENOUGH,
        exploring,
        begun: Opening::nothing(),
        kept,
        closed: &closed,
    };
    let mut seat = worker;
    work(rt, alloc, &common, &mut seat, cubes, worker)?;
    Ok(())
}

/// How many lines worker 0 learns of this share before it has a cube.
fn learnt_without_a_cube<R: Threads + Wait + Sync>(
    rt: &R,
    alloc: Global,
    encoded: &Encoded,
    share: &Fake,
) -> Result<u64, Fail> {
    let mut cubes = Late {
        share,
        cubes: leaves(rt, alloc, share)?,
        patience: Patience { lines: 0, asked: 0 },
    };
    let kept = KeptLines::new();
    worked_on(
        rt,
        alloc,
        encoded,
        share,
        &mut cubes,
        &kept,
        Exploring::InTurn,
        0,
    )?;
    Ok(cubes.patience.lines)
}

/// How many lines worker 0 learns of this share of [`MANY`] before it has a cube, and whether it
/// refutes the formula then.
fn learnt_in<R: Threads + Wait + Sync>(
    rt: &R,
    alloc: Global,
    share: &Fake,
) -> Result<(u64, bool), Fail> {
    let encoded = encoded(rt, alloc, MANY)?;
    let lines = learnt_without_a_cube(rt, alloc, &encoded, share)?;
    Ok((lines, is_refuted(rt, alloc, share)))
}

/// The same of a share of its own.
fn learnt<R: Threads + Wait + Sync>(rt: &R, alloc: Global) -> Result<(u64, bool), Fail> {
    let share = opened(rt, alloc, MANY, 0, Lie::Nothing)?;
    learnt_in(rt, alloc, &share)
}

/// The first turn over sets of matched calls takes 4,000 lines; the formula needs more than 5,000.
#[test]
fn a_worker_without_a_cube_goes_on_over_sets(rt: HostRuntime) -> Result<(), Fail> {
    let (lines, is_refuted) = learnt(&rt, rt.alloc())?;
    assert!(rt; lines > 4_500, "{lines}");
    assert!(rt; is_refuted);
    Ok(())
}

/// Has one worker search [`SENDERS`] over this share, where it may write so few lines over sets of
/// matched calls.
fn worked_with<R: Threads + Wait + Sync>(
    rt: &R,
    alloc: Global,
    share: &Fake,
    cubes: &mut Supply,
    kept: u64,
) -> Result<(), Fail> {
    let encoded = encoded(rt, alloc, SENDERS)?;
    let kept = KeptLines::of(kept);
    worked_on(
        rt,
        alloc,
        &encoded,
        share,
        cubes,
        &kept,
        Exploring::Always,
        WORKER,
    )
}

/// Whether that worker refutes the formula of this share, whose cubes it takes.
fn refutes_with<R: Threads + Wait + Sync>(
    rt: &R,
    alloc: Global,
    share: &Fake,
    kept: u64,
) -> Result<bool, Fail> {
    let mut cubes = leaves(rt, alloc, share)?;
    worked_with(rt, alloc, share, &mut cubes, kept)?;
    Ok(is_refuted(rt, alloc, share))
}

/// Once its lines are used up a worker goes on below cubes, and not over sets without an end.
#[test]
fn used_up_lines_are_followed_by_cubes(rt: HostRuntime) -> Result<(), Fail> {
    let alloc = rt.alloc();
    let share = opened(&rt, alloc, SENDERS, 0, Lie::Impatient)?;
    assert!(rt; refutes_with(&rt, alloc, &share, 40)?);
    assert!(rt; share.trail.noted().cubes > 0);
    Ok(())
}
