//! The search of a program's formula, over a pool that workers share.

ghost use Rattle.std.specs.Prelude.{◌≡◌, ◌<◌, ◌≤◌, [], IfOk, length, map};
ghost use Rattle.steal.specs.Supplies.{AreDealt, deques_of};
ghost use Rattle.crossbeam_utils.specs.Seq.{cell_view};
ghost use Rattle.sharedpool.specs.Views.{knower};
ghost use Rattle.prover.specs.parts.Searches.{smallest_with};

use cubes::{CubeFault, split};
use encode::Encoded;
use options::{Options, Searches};
use pool::{Pool, Share, Why, smaller};
use sharedpool::{Cell, FinishFault, PoolName, Seat, SharedPool, Token, open_room};
use std::alloc::{AllocError, Global};
use std::marker::Brand;
use std::sync::Wait;
use std::sync::atomic::{AtomicBool, Ordering};
use std::thread::Threads;
use std::{mem, thread};
use steal::{Supply, deal, settle_all};
use trees::Tree;
use workers::{
    ClosedStates, EventCount, Exploring, Gate, KeptLines, Opening, SearchContext, open, work,
};

/// What a worker's thread is handed.
#[derive(Drop)]
struct WorkerPlace<B: PoolName> {
    seat: Seat<B>,
    supply: Supply,
}

/// The numbers of the tree's leaves, in the order of its nodes.
fn leaves(alloc: Global, tree: &Tree) -> Result<Vec<u32>, AllocError> {
    let mut leaves = Vec::new(alloc);
    for node in 0..tree.len() as u32 {
        if tree.is_leaf(node) {
            leaves.push(node)?;
        }
    }
    Ok(leaves)
}

/// Puts the cubes in, cube k into supply k modulo their number; one comes back where there is no
/// room.
fn fill(supplies: &mut [Supply], cubes: &[u32]) -> Result<(), u32>
    requires { 0 < length supplies.old }
    ensures { map deques_of supplies.new ≡ map deques_of supplies.old }
{
    let many = supplies.len();
    for (place, cube) in cubes.iter().enumerate() {
        supplies[place % many].put(*cube)?;
    }
    Ok(())
}

/// Each seat with a supply.
fn pair<B: PoolName>(
    alloc: Global,
    seats: Vec<Seat<B>>,
    supplies: Vec<Supply>,
) -> Result<Vec<WorkerPlace<B>>, AllocError>
    requires { length seats.items ≡ length supplies.items }
    ensures { IfOk result (λ stations. map (λ s. s.supply) stations.items ≡ supplies.items) }
{
    let mut stations = Vec::new(alloc);
    let mut seats = seats.into_iter();
    for supply in supplies {
        let Some(seat) = seats.next() else {
            unreachable!()
        };
        stations.push(WorkerPlace { seat, supply })?;
    }
    Ok(stations)
}

/// A station for each seat, with the cubes put in. A cube that has no room is want of memory.
fn stations<B: PoolName>(
    alloc: Global,
    seats: Vec<Seat<B>>,
    workers: u32,
    cubes: &[u32],
) -> Result<Vec<WorkerPlace<B>>, AllocError>
    requires many { length seats.items ≡ workers }
    requires some { 1 ≤ workers }
    requires few { workers ≤ 64 }
    ensures { IfOk result (λ stations. AreDealt (map (λ s. deques_of s.supply) stations.items)) }
{
    let mut supplies = deal(alloc, workers)?;
    if fill(supplies.as_mut_slice(), cubes).is_err() {
        return Err(AllocError);
    }
    pair(alloc, seats, supplies)
}

/// Lets a worker work at its station.
fn work_at<B: PoolName, G: Gate, R: Wait>(
    rt: &R,
    alloc: Global,
    common: &SearchContext<SharedPool<B>, G>,
    station: &mut WorkerPlace<B>,
) -> Result<(), AllocError>
    ensures { deques_of station.new.supply ≡ deques_of station.old.supply }
{
    let worker = station.seat.worker();
    work(
        rt,
        alloc,
        common,
        &mut station.seat,
        &mut station.supply,
        worker,
    )
}

/// Lets each worker work at its station. Answers whether each could note why it left.
fn work_all<B: PoolName + Send + Sync, G: Gate + Sync, R: Threads + Wait + Sync>(
    rt: &R,
    alloc: Global,
    common: &SearchContext<SharedPool<B>, G>,
    stations: &mut [WorkerPlace<B>],
) -> bool
    ensures { map (λ s. deques_of s.supply) stations.new ≡ map (λ s. deques_of s.supply) stations.old }
{
    let threads = stations.len().max(1);
    let is_unnoted = AtomicBool::new(false);
    let noted = &is_unnoted;
    thread::for_each_mut(
        rt,
        stations,
        threads,
        &|_place, station: &mut WorkerPlace<B>|
            ensures { deques_of station.new.supply ≡ deques_of station.old.supply }
        {
            if work_at(rt, alloc, common, station).is_err() {
                noted.store(true, Ordering::SeqCst);
            }
        },
    );
    !is_unnoted.load(Ordering::SeqCst)
}

/// Hands the seats back, settles all supplies, and answers too whether these could be settled.
fn settle<B: PoolName>(
    alloc: Global,
    stations: Vec<WorkerPlace<B>>,
) -> Result<(Vec<Seat<B>>, bool), AllocError>
    requires { AreDealt (map (λ s. deques_of s.supply) stations.items) }
{
    let mut seats = Vec::new(alloc);
    let mut supplies = Vec::new(alloc);
    for station in stations {
        let WorkerPlace { seat, supply } = station;
        seats.push(seat)?;
        supplies.push(supply)?;
    }
    let is_settled = settle_all(alloc, supplies).is_ok();
    Ok((seats, is_settled))
}

/// The smaller of a reason and of the one that is noted, if one is.
pub(crate) fn smallest_with(noted: Option<Why>, why: Why) -> Why
    ensures { result ≡ smallest_with noted why }
{
    match noted {
        Some(noted) => smaller(noted, why),
        None => why,
    }
}

/// The pool of a shared one and all its seats, and whether memory was wanting: for a worker that
/// couldn't note why it left, or to settle the supplies. Where it is wanting before there is a
/// pool, the smallest reason that is known.
fn end<B: PoolName, R: Wait>(
    rt: &R,
    alloc: Global,
    shared: SharedPool<B>,
    stations: Vec<WorkerPlace<B>>,
    are_noted: bool,
) -> Result<(Pool, bool), Why>
    requires { AreDealt (map (λ s. deques_of s.supply) stations.items) }
    ensures program { IfOk result (λ made. made.0.held.program ≡ B.opening.program) }
    ensures formula { IfOk result (λ made. made.0.held.formula ≡ B.opening.formula) }
{
    let noted = shared.status(rt).why;
    let Ok((seats, is_settled)) = settle(alloc, stations) else {
        return Err(smallest_with(noted, Why::Memory));
    };
    match shared.finish(rt, alloc, seats) {
        Ok((pool, _counts)) => Ok((pool, !are_noted || !is_settled)),
        Err((FinishFault::Memory, _shared, _seats)) => Err(smallest_with(noted, Why::Memory)),
        Err((FinishFault::Missing, _shared, _seats)) => Err(smallest_with(noted, Why::Left)),
    }
}

/// When workers search over sets of matched calls.
fn exploring(options: Options) -> Exploring {
    match options.searches() {
        Searches::All => Exploring::InTurn,
        Searches::Cubes => Exploring::Never,
        Searches::Sets => Exploring::Always,
    }
}

/// What is done before the workers begin, at the seat of worker 0.
fn begin<B: PoolName, G: Gate, R: Wait>(
    rt: &R,
    alloc: Global,
    common: &SearchContext<SharedPool<B>, G>,
    seats: &mut [Seat<B>],
    cubes: &[u32],
    options: Options,
) -> Opening {
    if options.searches() != Searches::All {
        return Opening::nothing();
    }
    match seats.first_mut() {
        Some(seat) => open(rt, alloc, common, seat, cubes, options.workers()),
        None => Opening::nothing(),
    }
}

/// A search in a room that has a name.
fn search_in<B: PoolName + Send + Sync, G: Gate + Sync, R: Threads + Wait + Sync>(
    rt: &R,
    alloc: Global,
    cell: Cell,
    keeper: Token,
    pool: Pool,
    cubes: &[u32],
    options: Options,
    gate: &G,
) -> Result<(Pool, bool), Why>
    requires room { (cell.table.shared.table_id ≡ B.table) × (keeper.table_id ≡ B.table) × (cell_view keeper ≡ knower 0 []) }
    requires fresh { (pool.history ≡ []) × (pool.held ≡ B.opening) }
    requires workers { options.workers ≡ B.workers }
    ensures program { IfOk result (λ made. made.0.held.program ≡ pool.held.program) }
    ensures formula { IfOk result (λ made. made.0.held.formula ≡ pool.held.formula) }
{
    let workers = options.workers();
    let Ok(lent) = pool.lend_encoded() else {
        return Err(Why::Memory);
    };
    let Ok((shared, mut seats)) = SharedPool::<B>::new(alloc, cell, keeper, pool, workers) else {
        return Err(Why::Memory);
    };
    let events = EventCount::new();
    let kept = KeptLines::new();
    let closed = ClosedStates::new(alloc);
    let first = SearchContext {
        encoded: &lent,
        shared: &shared,
        gate,
        events: &events,
        budget: options.budget(),
        exploring: exploring(options),
        begun: Opening::nothing(),
        kept: &kept,
        closed: &closed,
    };
    let begun = begin(rt, alloc, &first, seats.as_mut_slice(), cubes, options);
    let common = SearchContext { begun, ..first };
    let Ok(mut stations) = stations(alloc, seats, workers, cubes) else {
        return Err(Why::Memory);
    };
    let places = stations.as_mut_slice();
    let are_noted = work_all(rt, alloc, &common, places);
    end(rt, alloc, shared, stations, are_noted)
}

/// The tree that a search begins with, and its leaves.
fn first_tree(alloc: Global, encoded: &Encoded, depth: u32) -> Result<(Tree, Vec<u32>), Why>
    requires { depth ≤ 15 }
    ensures { IfOk result (λ made. made.0.variables ≡ encoded.now.formula.variables) }
{
    let tree = match split(alloc, encoded, depth) {
        Ok(tree) => tree,
        Err(CubeFault::Memory) => return Err(Why::Memory),
        Err(CubeFault::TooMany) => unreachable!(),
    };
    match leaves(alloc, &tree) {
        Ok(cubes) => Ok((tree, cubes)),
        Err(AllocError) => Err(Why::Memory),
    }
}

/// A pool in which all leaves of that tree are open, and the leaves.
fn open_pool(alloc: Global, encoded: Encoded, depth: u32) -> Result<(Pool, Vec<u32>), Why>
    requires { depth ≤ 15 }
    ensures program { IfOk result (λ made. made.0.held.program ≡ encoded.program) }
    ensures formula { IfOk result (λ made. made.0.held.formula ≡ encoded.formula) }
    ensures fresh { IfOk result (λ made. made.0.history ≡ []) }
{
    let (tree, cubes) = first_tree(alloc, &encoded, depth)?;
    match Pool::new(alloc, encoded, tree) {
        Ok(pool) => Ok((pool, cubes)),
        Err(AllocError) => Err(Why::Memory),
    }
}

/// The pool at the end of a search over a program's formula, and whether memory was wanting at the
/// end, or why there is no pool.
pub fn pool_of<G: Gate + Sync, R: Threads + Wait + Sync>(
    rt: &R,
    alloc: Global,
    encoded: Encoded,
    options: Options,
    gate: &G,
) -> Result<(Pool, bool), Why>
    ensures program { IfOk result (λ made. made.0.held.program ≡ encoded.program) }
    ensures formula { IfOk result (λ made. made.0.held.formula ≡ encoded.formula) }
{
    let Ok((cell, keeper)) = open_room(alloc) else {
        mem::drop(encoded);
        return Err(Why::Memory);
    };
    let (pool, cubes) = open_pool(alloc, encoded, options.depth())?;
    search_in::<Brand, G, R>(rt, alloc, cell, keeper, pool, &cubes, options, gate)
}
