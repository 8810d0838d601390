//! The pool that workers share.

ghost use Rattle.std.specs.Prelude.{◌≡◌, ◌≢◌, ◌↔◌, ◌≤◌, ◌<◌, ◌+◌, ℕ, All, Err, IfErr, IfOk, IsOk, OnOk, OnErr, IsTrue, false, [], length, map};
ghost use Rattle.std.specs.List.{range_with_len};
ghost use Rattle.std.specs.Arc.{arc_value};
ghost use Rattle.crossbeam_utils.specs.Seq.{cell_view};
ghost use Rattle.semantics.specs.Machine.{IsStuckRun};
ghost use Rattle.pool.specs.States.{with_places, IsPublished, IsFetched, IsClosed, IsSplit, IsFoundReply};
ghost use Rattle.sharedpool.specs.Leaves.{has_left};
ghost use Rattle.sharedpool.specs.Views.{knower, items_of, AllBelow, AreDifferent};
ghost use Rattle.sharedpool.specs.Seats.{AreNumbered, workers_of, HoldsOver, IsFinishedPool, IsRefusedOver, told_publish, told_fetch, told_close, told_split, told_found, told_leave};

use crate::locked::Locked;
use crate::passes::take_seat;
use crate::room::{Cell, PoolName, Token};
use crate::seat::{Seat, derived_from, follow};
use clauses::{Formula, Lit};
use encode::Encoded;
use pages::Lines;
use pool::{
    AssembleFault, CloseFault, FetchFault, FoundFault, PathFault, Pool, PublishFault, Share,
    SplitFault, Status, Why,
};
use prooflog::Evidence;
use refutations::Batch;
use semantics::Step;
use std::alloc::{AllocError, Global};
use std::sync::{Arc, Mutex, Wait};
use thiserror::Error;

/// A pool under one lock, which workers call with their seats.
#[derive(Drop)]
pub struct SharedPool<B: PoolName> {
    encoded: Arc<Encoded>,
    cell: Cell,
    lock: Mutex<Locked<B>>,
    ghost lent: { (arc_value encoded).formula ≡ B.opening.formula },
    ghost tied: { cell.table.shared.table_id ≡ B.table },
}

/// Why a shared pool isn't given back.
#[derive(Clone, Copy, Debug, PartialEq, Eq, Error)]
pub enum FinishFault {
    /// Memory ran out.
    #[error("memory")]
    Memory,
    /// A seat is missing: there are not as many as were made.
    #[error("seat missing")]
    Missing,
}

/// A cell and its first pass, whose table is the name of a room.
pub fn open_room(alloc: Global) -> Result<(Cell, Token), AllocError>
    ensures { IfOk result (λ r. (r.1.table_id ≡ r.0.table.shared.table_id) × (cell_view r.1 ≡ knower 0 [])) }
{
    Cell::ruled(alloc, [0])
}

/// A seat for each worker, numbered from 0.
fn make_seats<B: PoolName>(
    alloc: Global,
    cell: &Cell,
    formula: &Formula,
    mut keeper: Token,
    workers: u32,
) -> Result<(Token, Vec<Seat<B>>), AllocError>
    requires room { (cell.now.table.shared.table_id ≡ B.table) × (keeper.table_id ≡ B.table) × (cell_view keeper ≡ knower 0 []) }
    requires formula { formula.now ≡ B.opening.formula }
    ensures keeper { IfOk result (λ r. (r.0.table_id ≡ B.table) × (cell_view r.0 ≡ knower workers [])) }
    ensures many { IfOk result (λ r. length r.1.items ≡ workers) }
    ensures numbered { IfOk result (λ r. AreNumbered r.1.items) }
    ensures empty { IfOk result (λ r. All (λ seat. seat.mine ≡ []) r.1.items) }
{
    let mut seats = Vec::new(alloc);
    for worker in 0..workers {
        seats.reserve(1)?;
        let pass = take_seat(cell, &mut keeper);
        seats.push_reserved(Seat::new(alloc, formula, worker, pass)?);
    }
    Ok((keeper, seats))
}

/// A seat for each worker, with a place in the pool's history for its first leave.
fn seats_with_places<B: PoolName>(
    alloc: Global,
    cell: &Cell,
    pool: &mut Pool,
    keeper: Token,
    workers: u32,
) -> Result<(Token, Vec<Seat<B>>), AllocError>
    requires room { (cell.now.table.shared.table_id ≡ B.table) × (keeper.table_id ≡ B.table) × (cell_view keeper ≡ knower 0 []) }
    requires formula { pool.old.held.formula ≡ B.opening.formula }
    ensures places { OnOk result (pool.new ≡ with_places pool.old (pool.old.places + workers)) }
    ensures keeper { IfOk result (λ r. (r.0.table_id ≡ B.table) × (cell_view r.0 ≡ knower workers [])) }
    ensures many { IfOk result (λ r. length r.1.items ≡ workers) }
    ensures numbered { IfOk result (λ r. AreNumbered r.1.items) }
    ensures empty { IfOk result (λ r. All (λ seat. seat.mine ≡ []) r.1.items) }
{
    pool.keep_places(workers as usize)?;
    make_seats(alloc, cell, pool.formula(), keeper, workers)
}

/// How many entries each worker has.
fn counts<B: PoolName>(
    alloc: Global,
    locked: &Locked<B>,
    workers: u32,
) -> Result<Vec<usize>, AllocError>
    ensures { IfOk result (λ counts. counts.items ≡ map (λ worker. length (items_of worker locked.now.items)) (range_with_len 0 workers)) }
{
    (0..workers)
        .map(|worker| locked.count_of(worker))
        .collect(alloc)
}

/// Takes all seats back. Each is another worker's, and its list is its worker's items.
fn take_all_back<R: Wait, B: PoolName>(rt: &R, cell: &Cell, mut keeper: Token, seats: Vec<Seat<B>>)
    requires room { cell.now.table.shared.table_id ≡ B.table }
    requires keeper_of { keeper.table_id ≡ B.table }
    requires knows { cell_view keeper ≡ knower (cell_view keeper).workers (cell_view keeper).all }
    ensures mine { All (λ seat. seat.mine ≡ items_of seat.worker (cell_view keeper).all) seats.items }
    ensures below { All (λ seat. seat.worker < (cell_view keeper).workers) seats.items }
    ensures different { AreDifferent (workers_of seats.items) }
    ensures others { 0 < length seats.items → AllBelow (cell_view keeper).workers (cell_view keeper).all }
{
    for seat in seats {
        seat.hand_back(rt, cell, &mut keeper);
    }
}

impl<B: PoolName> SharedPool<B> {
    /// A pool without a history under a lock, and a seat for each worker, in order of their
    /// numbers. The room is named after the cell, the pool and the number of workers. One to 64
    /// workers. Each seat has a place in the history for its first leave, so that this one never
    /// wants memory.
    pub fn new(
        alloc: Global,
        cell: Cell,
        keeper: Token,
        mut pool: Pool,
        workers: u32,
    ) -> Result<(SharedPool<B>, Vec<Seat<B>>), AllocError>
        requires room { (cell.table.shared.table_id ≡ B.table) × (keeper.table_id ≡ B.table) × (cell_view keeper ≡ knower 0 []) }
        requires fresh { (pool.history ≡ []) × (pool.held ≡ B.opening) }
        requires some_worker { 1 ≤ workers }
        requires few_workers { workers ≤ 64 }
        requires workers { workers ≡ B.workers }
        ensures many { IfOk result (λ r. length r.1.items ≡ workers) }
        ensures numbered { IfOk result (λ r. AreNumbered r.1.items) }
        ensures empty { IfOk result (λ r. All (λ seat. seat.mine ≡ []) r.1.items) }
    {
        let encoded = pool.lend_encoded()?;
        match seats_with_places(alloc, &cell, &mut pool, keeper, workers) {
            Ok((keeper, seats)) => {
                let lock = Mutex::new(Locked::new(pool, workers, keeper));
                let shared = SharedPool {
                    encoded,
                    cell,
                    lock,
                };
                Ok((shared, seats))
            }
            Err(AllocError) => Err(AllocError),
        }
    }

    /// The pool, and how many entries each worker has in its history. Takes all seats, in any
    /// order, or hands them back with the shared pool: `Missing` is told exactly where there are
    /// not as many as were made.
    pub fn finish<R: Wait>(
        self,
        rt: &R,
        alloc: Global,
        seats: Vec<Seat<B>>,
    ) -> Result<(Pool, Vec<usize>), (FinishFault, SharedPool<B>, Vec<Seat<B>>)>
        ensures all { IfOk result (λ r. length seats.items ≡ B.workers) }
        ensures finished { IfOk result (λ r. IsFinishedPool B.opening seats.items r.0 r.1.items) }
        ensures program { IfOk result (λ r. r.0.held.program ≡ B.opening.program) }
        ensures formula { IfOk result (λ r. r.0.held.formula ≡ B.opening.formula) }
        ensures missing { IfErr result (λ r. (r.0 ≡ FinishFault.Missing) ↔ (length seats.items ≢ B.workers)) }
        ensures back { IfErr result (λ r. r.2 ≡ seats) }
    {
        let SharedPool {
            encoded,
            cell,
            lock,
        } = self;
        let locked = lock.into_inner();
        let workers = locked.workers();
        if seats.len() != workers as usize {
            let lock = Mutex::new(locked);
            let shared = SharedPool {
                encoded,
                cell,
                lock,
            };
            return Err((FinishFault::Missing, shared, seats));
        }
        let Ok(counts) = counts(alloc, &locked, workers) else {
            let lock = Mutex::new(locked);
            let shared = SharedPool {
                encoded,
                cell,
                lock,
            };
            return Err((FinishFault::Memory, shared, seats));
        };
        let (pool, keeper) = locked.into_parts();
        take_all_back(rt, &cell, keeper, seats);
        Ok((pool, counts))
    }
}

impl<B: PoolName> Share for SharedPool<B> {
    type Seat = Seat<B>;

    fn publish<R: Wait>(
        &self,
        rt: &R,
        alloc: Global,
        seat: &mut Seat<B>,
        batch: &Batch,
    ) -> Result<u32, PublishFault>
        ensures seat { seat.new ≡ told_publish seat.old batch.now.lines.items result }
        ensures reply { (result ≡ Err PublishFault.Memory → ⊥) →
            HoldsOver B.opening seat.old (λ h. IsPublished h batch.now.lines.items result) }
        ensures not_derived { (place : ℕ) → result ≡ Err (PublishFault.NotDerived place) →
            IsRefusedOver B.opening.formula seat.old.mine batch.now.lines.items place }
    {
        let formula = self.encoded.formula();
        let derived = derived_from(alloc, &mut seat.known, formula, &seat.view, batch);
        let mut locked = self.lock.lock(rt);
        let ticket = &mut seat.ticket;
        locked.publish(rt, alloc, &self.cell, ticket, &seat.view, derived, batch)
    }

    fn fetch<R: Wait>(
        &self,
        rt: &R,
        alloc: Global,
        seat: &mut Seat<B>,
        from: usize,
    ) -> Result<Lines, FetchFault>
        ensures seat { seat.new ≡ told_fetch seat.old from result }
        ensures reply { (result ≡ Err FetchFault.Memory → ⊥) → HoldsOver B.opening seat.old (λ h. IsFetched h from result) }
    {
        let reply = self
            .lock
            .lock(rt)
            .fetch(rt, alloc, &self.cell, &mut seat.ticket, from);
        follow(alloc, &mut seat.view, from, &reply);
        reply
    }

    fn close<R: Wait>(
        &self,
        rt: &R,
        seat: &mut Seat<B>,
        leaf: u32,
        number: u32,
    ) -> Result<(), CloseFault>
        ensures seat { seat.new ≡ told_close seat.old leaf number result }
        ensures reply { (result ≡ Err CloseFault.Memory → ⊥) → HoldsOver B.opening seat.old (λ h. IsClosed h leaf number result) }
    {
        self.lock
            .lock(rt)
            .close(rt, &self.cell, &mut seat.ticket, leaf, number)
    }

    fn split_leaf<R: Wait>(
        &self,
        rt: &R,
        alloc: Global,
        seat: &mut Seat<B>,
        leaf: u32,
        variable: u32,
    ) -> Result<(u32, u32), SplitFault>
        ensures seat { seat.new ≡ told_split seat.old leaf variable result }
        ensures reply { (result ≡ Err SplitFault.Memory → ⊥) → HoldsOver B.opening seat.old (λ h. IsSplit h leaf variable result) }
    {
        self.lock
            .lock(rt)
            .split_leaf(rt, alloc, &self.cell, &mut seat.ticket, leaf, variable)
    }

    fn found<R: Wait>(
        &self,
        rt: &R,
        alloc: Global,
        seat: &mut Seat<B>,
        steps: Vec<Step>,
    ) -> Result<(), FoundFault>
        ensures seat { seat.new ≡ told_found seat.old steps.items result }
        ensures reply { (result ≡ Err FoundFault.Memory → ⊥) → HoldsOver B.opening seat.old (λ h. IsFoundReply h steps.items result) }
        ensures stuck { OnOk result (IsStuckRun B.opening.program steps.items) }
        ensures not_stuck { result ≡ Err FoundFault.NotStuck → IsStuckRun B.opening.program steps.items → ⊥ }
    {
        self.lock
            .lock(rt)
            .found(rt, alloc, &self.cell, &mut seat.ticket, steps)
    }

    /// As [`Pool::leave`]; the first leave with a seat asks for no memory, and is answered.
    fn leave<R: Wait>(&self, rt: &R, seat: &mut Seat<B>, why: Option<Why>) -> Result<(), AllocError>
        ensures ok { OnOk result (seat.new ≡ told_leave seat.old why) }
        ensures err { OnErr result (seat.new ≡ seat.old) }
        ensures first { has_left seat.old.mine ≡ false → IsOk result }
    {
        self.lock
            .lock(rt)
            .leave(rt, &self.cell, &mut seat.ticket, why)
    }

    fn status<R: Wait>(&self, rt: &R) -> Status {
        self.lock.lock(rt).status()
    }

    fn path<R: Wait>(&self, rt: &R, alloc: Global, leaf: u32) -> Result<Vec<Lit>, PathFault> {
        self.lock.lock(rt).path(alloc, leaf)
    }

    fn assemble<R: Wait>(&self, rt: &R, alloc: Global) -> Result<Evidence, AssembleFault> {
        self.lock.lock(rt).assemble(alloc)
    }
}
