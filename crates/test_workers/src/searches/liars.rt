//! Workers that are honest beside some that lie in each call, over one pool. Each has a seat, and a
//! thread of its own.

ghost use Rattle.std.specs.Prelude.{◌≡◌, ◌≤◌, IfOk, []};
ghost use Rattle.crossbeam_utils.specs.Seq.{cell_view};
ghost use Rattle.sharedpool.specs.Views.{knower};

use crate::searches::{ENOUGH, MANNERS, RELAY, encoded, shown_by, tree_of};
use clauses::{Clause, Lit};
use encode::Encoded;
use pool::{CloseFault, Entry, FoundFault, Operation, Pool, PublishFault, Share};
use prooflog::{Evidence, write_evidence};
use refutations::{Batch, BatchLine, Hint};
use sharedpool::{Cell, PoolName, Seat, SharedPool, Token, open_room};
use std::alloc::Global;
use std::marker::Brand;
use std::process::Abort;
use std::sync::Wait;
use std::sync::atomic::{AtomicU64, Ordering};
use std::test::Fail;
use std::thread;
use std::thread::Threads;
use steal::{Supply, deal};
use workers::{ClosedStates, EventCount, Exploring, Gate, KeptLines, Opening, SearchContext, work};

/// How often each liar makes each of its three calls.
const ROUNDS: u32 = 1_000;

/// How many leaves the tree has, which are its last nodes.
const LEAVES: u32 = 4;

/// How often somebody looks again before it goes on without what it waits for.
const PATIENCE: u32 = 1_000_000;

/// Who works, and in which way.
#[derive(Clone, Copy)]
struct Cast {
    /// How many workers are liars, which are the first ones.
    liars: u32,
    /// When the others search over sets of matched calls.
    exploring: Exploring,
}

/// What a worker's thread is handed.
#[derive(Drop)]
struct WorkerPlace<B: PoolName> {
    seat: Seat<B>,
    supply: Supply,
}

/// Lets honest workers begin once this many rounds of lies were told.
#[derive(Drop)]
struct Lies {
    told: AtomicU64,
    first: u64,
}

impl Gate for Lies {
    fn before(&self, _worker: u32, _cube: u32) {
        for _ in 0..PATIENCE {
            if self.told.load(Ordering::SeqCst) >= self.first {
                return;
            }
            thread::yield_now();
        }
    }
}

/// What became of the calls of all workers.
#[derive(Drop)]
struct Tally {
    /// How many calls the liars made.
    lies: u32,
    /// How many of these are refused, each for its reason.
    refused: u32,
    /// How many of these found their leaf open.
    at_open: u32,
    /// How many lines the others published.
    published: usize,
}

/// What all workers leave.
#[derive(Drop)]
struct Outcome {
    tally: Tally,
    /// How many lines the evidence has.
    lines: usize,
    /// What it shows of the program.
    shown: &'static str,
}

/// A line with one hint.
fn line(alloc: Global, literals: &[Lit], hint: Hint) -> Result<BatchLine, Fail> {
    let clause = Clause::make(alloc, literals)?;
    let mut hints = Vec::new(alloc);
    hints.push(hint)?;
    Ok(BatchLine { clause, hints })
}

/// Two lines: the formula's first clause once more, which derives, and the empty clause, which
/// doesn't.
fn lie(alloc: Global, encoded: &Encoded) -> Result<Batch, Fail> {
    let first = encoded.formula().clauses().first().ok_or("no clause")?;
    let mut lines = Vec::new(alloc);
    lines.push(line(alloc, first.literals(), Hint::Known(1))?)?;
    lines.push(line(alloc, &[], Hint::Own(0))?)?;
    Ok(Batch { lines })
}

/// Waits until a leaf is closed, but not for ever.
fn await_honest<S: Share, R: Wait>(rt: &R, shared: &S) {
    for _ in 0..PATIENCE {
        if shared.status(rt).open_leaves < LEAVES {
            return;
        }
        thread::yield_now();
    }
}

/// Lies in each call: publishes the batch, closes a leaf by the formula's first clause, and tells a
/// schedule without steps. Half of the lies come once a leaf is closed.
fn tell_lies<S: Share, R: Wait>(
    rt: &R,
    alloc: Global,
    common: &SearchContext<S, Lies>,
    lie: &Batch,
    seat: &mut S::Seat,
) {
    for round in 0..ROUNDS {
        if round == ROUNDS / 2 {
            await_honest(rt, common.shared);
        }
        let leaf = LEAVES - 1 + round % LEAVES;
        let _published = common.shared.publish(rt, alloc, seat, lie);
        let _closed = common.shared.close(rt, seat, leaf, 1);
        let _found = common.shared.found(rt, alloc, seat, Vec::new(alloc));
        common.gate.told.fetch_add(1, Ordering::SeqCst);
    }
}

/// Lets a liar lie, and an honest worker work.
fn act<B: PoolName, R: Wait>(
    rt: &R,
    alloc: Global,
    common: &SearchContext<SharedPool<B>, Lies>,
    lie: &Batch,
    cast: Cast,
    station: &mut WorkerPlace<B>,
) {
    let worker = station.seat.worker();
    let seat = &mut station.seat;
    if worker < cast.liars {
        tell_lies(rt, alloc, common, lie, seat);
    } else {
        let _noted = work(rt, alloc, common, seat, &mut station.supply, worker);
    }
}

/// Lets each act in a thread of its own.
fn all_act<B: PoolName + Send + Sync, R: Threads + Wait + Sync>(
    rt: &R,
    alloc: Global,
    shared: &SharedPool<B>,
    encoded: &Encoded,
    lie: &Batch,
    cast: Cast,
    stations: &mut [WorkerPlace<B>],
) {
    let gate = Lies {
        told: AtomicU64::new(0),
        first: u64::from(cast.liars) * u64::from(ROUNDS / 2),
    };
    let events = EventCount::new();
    let kept = KeptLines::new();
    let closed = ClosedStates::new(alloc);
    let common = SearchContext {
        encoded,
        shared,
        gate: &gate,
        events: &events,
        budget: ENOUGH,
        exploring: cast.exploring,
        begun: Opening::nothing(),
        kept: &kept,
        closed: &closed,
    };
    let threads = stations.len().max(1);
    thread::for_each_mut(
        rt,
        stations,
        threads,
        &|_place, station: &mut WorkerPlace<B>| {
            act(rt, alloc, &common, lie, cast, station);
        },
    );
}

/// A station for each seat. All cubes lie in the first deque, whose owner is a liar, so that each
/// is stolen.
fn stations<B: PoolName>(
    alloc: Global,
    seats: Vec<Seat<B>>,
    workers: u32,
) -> Result<Vec<WorkerPlace<B>>, Fail>
    requires { workers ≤ 64 }
{
    let mut supplies = deal(alloc, workers)?;
    let first = supplies.first_mut().ok_or("no supply")?;
    for leaf in LEAVES - 1..LEAVES * 2 - 1 {
        if first.put(leaf).is_err() {
            return Err(Fail::from("no memory"));
        }
    }
    let mut supplies = supplies.into_iter();
    let mut stations = Vec::new(alloc);
    for seat in seats {
        let supply = supplies.next().ok_or("no supply")?;
        stations.push(WorkerPlace { seat, supply })?;
    }
    Ok(stations)
}

/// The seats of these stations.
fn seats_of<B: PoolName>(
    alloc: Global,
    stations: Vec<WorkerPlace<B>>,
) -> Result<Vec<Seat<B>>, Fail> {
    let mut seats = Vec::new(alloc);
    for station in stations {
        seats.push(station.seat)?;
    }
    Ok(seats)
}

/// The seats, once all have acted.
fn acted<B: PoolName + Send + Sync, R: Threads + Wait + Sync>(
    rt: &R,
    alloc: Global,
    shared: &SharedPool<B>,
    seats: Vec<Seat<B>>,
    encoded: &Encoded,
    lie: &Batch,
    cast: Cast,
    workers: u32,
) -> Result<Vec<Seat<B>>, Fail>
    requires { workers ≤ 64 }
{
    let mut stations = stations(alloc, seats, workers)?;
    all_act(
        rt,
        alloc,
        shared,
        encoded,
        lie,
        cast,
        stations.as_mut_slice(),
    );
    seats_of(alloc, stations)
}

/// The pool that is left where all these seats come back.
fn finished<B: PoolName, R: Wait>(
    rt: &R,
    alloc: Global,
    shared: SharedPool<B>,
    seats: Vec<Seat<B>>,
) -> Result<Pool, Fail> {
    match shared.finish(rt, alloc, seats) {
        Ok((pool, _counts)) => Ok(pool),
        Err(_back) => Err(Fail::from("not finished")),
    }
}

/// The pool that all leave, in a room that has a name.
fn left_by<B: PoolName + Send + Sync, R: Threads + Wait + Sync>(
    rt: &R,
    alloc: Global,
    cell: Cell,
    keeper: Token,
    pool: Pool,
    encoded: &Encoded,
    lie: &Batch,
    cast: Cast,
    workers: u32,
) -> Result<Pool, Fail>
    requires room { (cell.table.shared.table_id ≡ B.table) × (keeper.table_id ≡ B.table) × (cell_view keeper ≡ knower 0 []) }
    requires fresh { (pool.history ≡ []) × (pool.held ≡ B.opening) }
    requires workers { workers ≡ B.workers }
    requires some { 1 ≤ workers }
    requires few { workers ≤ 64 }
{
    let (shared, seats) = SharedPool::<B>::new(alloc, cell, keeper, pool, workers)?;
    let seats = acted(rt, alloc, &shared, seats, encoded, lie, cast, workers)?;
    finished(rt, alloc, shared, seats)
}

/// A pool over the program, in which all leaves are open.
fn opened(rt: &(impl Threads + Sync), alloc: Global) -> Result<Pool, Fail>
    ensures { IfOk result (λ pool. pool.history ≡ []) }
{
    let encoded = encoded(rt, alloc, RELAY)?;
    let tree = tree_of(alloc, &encoded, 2)?;
    Ok(Pool::new(alloc, encoded, tree)?)
}

/// Whether a liar's call is refused, for the reason that there is.
fn is_refused(operation: &Operation) -> bool {
    match operation {
        Operation::Publish(2, Err(PublishFault::NotDerived(1))) => true,
        Operation::Close(_, 1, Err(CloseFault::NotRefuted)) => true,
        Operation::Close(_, 1, Err(CloseFault::NotOpen)) => true,
        Operation::Found(0, Err(FoundFault::NotStuck)) => true,
        _ => false,
    }
}

fn is_at_open(operation: &Operation) -> bool {
    matches!(
        operation,
        Operation::Close(_, _, Err(CloseFault::NotRefuted))
    )
}

/// How many lines this call appended to the log.
fn lines_of(operation: &Operation) -> usize {
    match operation {
        Operation::Publish(count, Ok(_base)) => *count,
        _ => 0,
    }
}

fn tally_of(history: &[Entry], liars: u32) -> Tally {
    let mut tally = Tally {
        lies: 0,
        refused: 0,
        at_open: 0,
        published: 0,
    };
    for entry in history {
        if entry.worker >= liars {
            tally.published = tally.published.saturating_add(lines_of(&entry.operation));
            continue;
        }
        tally.lies = tally.lies.saturating_add(1);
        tally.refused = tally
            .refused
            .saturating_add(u32::from(is_refused(&entry.operation)));
        tally.at_open = tally
            .at_open
            .saturating_add(u32::from(is_at_open(&entry.operation)));
    }
    tally
}

/// How many lines the evidence has; a schedule has none.
fn count_lines(evidence: &Evidence) -> usize {
    match evidence {
        Evidence::Refutation(refutation) => refutation.lines().len(),
        Evidence::Schedule(_schedule) => 0,
    }
}

fn outcome_of(
    rt: &(impl Threads + Sync),
    alloc: Global,
    pool: &Pool,
    liars: u32,
) -> Result<Outcome, Fail> {
    let evidence = pool.assemble(alloc)?;
    let text = write_evidence(alloc, &evidence)?;
    Ok(Outcome {
        tally: tally_of(pool.history(), liars),
        lines: count_lines(&evidence),
        shown: shown_by(rt, alloc, RELAY, text.as_slice())?,
    })
}

/// The pool that so many workers leave.
fn left<R: Threads + Wait + Sync>(
    rt: &R,
    alloc: Global,
    encoded: &Encoded,
    lie: &Batch,
    cast: Cast,
    workers: u32,
) -> Result<Pool, Fail>
    requires some { 1 ≤ workers }
    requires few { workers ≤ 64 }
{
    let (cell, keeper) = open_room(alloc)?;
    let pool = opened(rt, alloc)?;
    left_by::<Brand, R>(rt, alloc, cell, keeper, pool, encoded, lie, cast, workers)
}

/// What so many workers leave of this formula.
fn left_of<R: Threads + Wait + Sync>(
    rt: &R,
    alloc: Global,
    encoded: &Encoded,
    cast: Cast,
    workers: u32,
) -> Result<Outcome, Fail>
    requires some { 1 ≤ workers }
    requires few { workers ≤ 64 }
{
    let lie = lie(alloc, encoded)?;
    let pool = left(rt, alloc, encoded, &lie, cast, workers)?;
    outcome_of(rt, alloc, &pool, cast.liars)
}

/// What so many workers leave.
fn beside<R: Threads + Wait + Sync>(
    rt: &R,
    alloc: Global,
    cast: Cast,
    workers: u32,
) -> Result<Outcome, Fail>
    requires some { 1 ≤ workers }
    requires few { workers ≤ 64 }
{
    let encoded = encoded(rt, alloc, RELAY)?;
    left_of(rt, alloc, &encoded, cast, workers)
}

fn judge(rt: &impl Abort, outcome: &Outcome, liars: u32)
    requires { liars ≤ 64 }
{
    let Tally {
        lies,
        refused,
        at_open,
        published,
    } = &outcome.tally;
    assert_eq!(rt; *lies, liars * ROUNDS * 3);
    assert_eq!(rt; *refused, *lies);
    assert!(rt; *at_open >= liars * (ROUNDS / 2));
    assert_eq!(rt; outcome.lines, *published);
    assert_eq!(rt; outcome.shown, "no deadlock");
}

#[test]
fn liar_beside_honest(rt: HostRuntime) -> Result<(), Fail> {
    for exploring in MANNERS {
        let outcome = beside(
            &rt,
            rt.alloc(),
            Cast {
                liars: 1,
                exploring,
            },
            2,
        )?;
        judge(&rt, &outcome, 1);
    }
    Ok(())
}

#[test]
fn liars_beside_honest(rt: HostRuntime) -> Result<(), Fail> {
    for exploring in MANNERS {
        let outcome = beside(
            &rt,
            rt.alloc(),
            Cast {
                liars: 2,
                exploring,
            },
            4,
        )?;
        judge(&rt, &outcome, 2);
    }
    Ok(())
}
