//! What the lock holds: the pool, and the pass that knows all items.

ghost use Rattle.std.specs.Prelude.{◌≡◌, ◌==◌, ◌≤◌, ◌<◌, ◌++◌, ℕ, [], false, Err, IfSome, IsOk, OnOk, OnErr, length};
ghost use Rattle.std.specs.List.{count_by};
ghost use Rattle.pool.specs.States.{noted, with_places, leave_item, IsLegal, IsSoundPool, IsPublished, IsFetched, IsClosed, IsSplit, IsFoundReply};
ghost use Rattle.pool.specs.Moves.{AreOfBatch};
ghost use Rattle.crossbeam_utils.specs.Seq.{cell_view};
ghost use Rattle.sharedpool.specs.parts.Leaves.{has_entry, places_after};
ghost use Rattle.sharedpool.specs.Leaves.{has_left};
ghost use Rattle.sharedpool.specs.Views.{knower, items_of};
ghost use Rattle.sharedpool.specs.Seats.{HoldsOver, IsRefusedOver, told_publish, told_fetch, told_close, told_split, told_found, told_leave, IsViewTold, IsDerivedFrom};

use crate::note::{match_lists, note};
use crate::room::{Cell, PoolName, StepsName, Token};
use crate::seat::Ticket;
use clauses::Lit;
use pages::{Lines, Log};
use pool::{
    AssembleFault, CloseFault, DerivedLines, Entry, FetchFault, FoundFault, Operation, PathFault,
    Pool, PublishFault, SplitFault, Status, Why,
};
use prooflog::Evidence;
use refutations::Batch;
use semantics::Step;
use std::alloc::{AllocError, Global};
use std::marker::{Brand, Model, PhantomData};
use std::sync::Wait;

/// The pool with the keeper, the pass that knows the items of all its calls.
#[derive(Drop)]
pub(crate) struct Locked<B: PoolName> {
    pool: Pool,
    workers: u32,
    keeper: Token,
    room: PhantomData<B>,
    ghost made: { workers ≡ B.workers },
}

impl<B: PoolName> Model for Locked<B> {
    ghost use Rattle.crossbeam_utils.specs.Seq.{cell_view};
    ghost use Rattle.sharedpool.specs.parts.Seats.{Shared, IsLocked};

    ghost Value = { Shared };

    ghost view = { λ s. record { pool = s.pool; workers = s.workers; items = (cell_view s.keeper).all } };

    ghost invariant = { λ s. IsLocked B.table B.opening s.pool s.workers s.keeper };
}

/// Whether one of these entries is a leave of this worker.
fn left_before(history: &[Entry], worker: u32) -> bool
    ensures { result ≡ has_entry worker history.now }
{
    for entry in history {
        if entry.worker == worker && matches!(entry.operation, Operation::Leave(_)) {
            return true;
        }
    }
    false
}

/// A leave; the first of a worker by a place that is kept.
fn leave_pool(pool: &mut Pool, worker: u32, why: Option<Why>) -> Result<(), AllocError>
    ensures ok { OnOk result (pool.new ≡
        noted (with_places pool.old (places_after (has_entry worker pool.old.history) pool.old.places))
        (leave_item worker why)) }
    ensures err { OnErr result (pool.new ≡ pool.old) }
    ensures first { has_entry worker pool.old.history ≡ false → 1 ≤ pool.old.places → IsOk result }
{
    if left_before(pool.history(), worker) {
        pool.leave(worker, why)
    } else {
        pool.leave_kept(worker, why)
    }
}

/// How many of these entries are of this worker.
fn entries_of(history: &[Entry], worker: u32) -> usize
    ensures { result ≡ count_by (λ entry. entry.worker == worker) history.now }
{
    history
        .iter()
        .filter(|entry| entry.worker == worker)
        .count()
}

impl<B: PoolName> Locked<B> {
    /// A pool without a history, with the keeper that made the seats.
    pub(crate) fn new(pool: Pool, workers: u32, keeper: Token) -> Self
        requires keeper { (keeper.table_id ≡ B.table) × (cell_view keeper ≡ knower workers []) }
        requires fresh { (pool.history ≡ []) × (pool.held ≡ B.opening) }
        requires places { workers ≤ pool.places }
        requires some_worker { 1 ≤ workers }
        requires workers { workers ≡ B.workers }
    {
        let _history = pool.history();
        Locked {
            pool,
            workers,
            keeper,
            room: PhantomData,
        }
    }

    /// How many seats were made.
    pub(crate) fn workers(&self) -> u32
        ensures made { result ≡ self.now.workers }
        ensures room { result ≡ B.workers }
        ensures some_worker { 1 ≤ result }
    {
        self.workers
    }

    /// How many entries of the history are of this worker.
    pub(crate) fn count_of(&self, worker: u32) -> usize
        ensures { result ≡ length (items_of worker self.now.items) }
    {
        entries_of(self.pool.history(), worker)
    }

    /// The pool, whose history is legal, with the keeper.
    pub(crate) fn into_parts(self) -> (Pool, Token)
        ensures same { result.0 ≡ self.pool }
        ensures legal { IsLegal B.opening self.items result.0 }
        ensures keeper_of { result.1.table_id ≡ B.table }
        ensures knows { cell_view result.1 ≡ knower self.workers self.items }
    {
        let Locked {
            pool,
            workers: _,
            keeper,
            room: _,
        } = self;
        (pool, keeper)
    }

    pub(crate) fn status(&self) -> Status {
        self.pool.status()
    }

    pub(crate) fn path(&self, alloc: Global, leaf: u32) -> Result<Vec<Lit>, PathFault> {
        self.pool.path(alloc, leaf)
    }

    pub(crate) fn assemble(&self, alloc: Global) -> Result<Evidence, AssembleFault> {
        self.pool.assemble(alloc)
    }

    /// A batch by the worker of this seat. Where it is known to derive from lines that the seat was
    /// told, its lines are given, and neither checked nor made again.
    pub(crate) fn publish<R: Wait>(
        &mut self,
        rt: &R,
        alloc: Global,
        cell: &Cell,
        seat: &mut Ticket<B>,
        view: &Log,
        derived: Option<DerivedLines>,
        batch: &Batch,
    ) -> Result<u32, PublishFault>
        requires room { cell.now.table.shared.table_id ≡ B.table }
        requires told { IsViewTold B.opening.formula seat.old.mine view.now }
        requires derived { IfSome derived (λ _. IsDerivedFrom B.opening.formula view.now batch.now.lines.items) }
        requires lines { IfSome derived (λ d. AreOfBatch batch.now.lines.items d) }
        ensures seat { seat.new ≡ told_publish seat.old batch.now.lines.items result }
        ensures reply { (result ≡ Err PublishFault.Memory → ⊥) →
            HoldsOver B.opening seat.old (λ h. IsPublished h batch.now.lines.items result) }
        ensures not_derived { (place : ℕ) → result ≡ Err (PublishFault.NotDerived place) →
            IsRefusedOver B.opening.formula seat.old.mine batch.now.lines.items place }
    {
        self.match_seat(rt, cell, seat);
        let worker = seat.worker;
        let reply = self.pool.publish_as(alloc, worker, batch, derived);
        if let Err(PublishFault::Memory) = &reply {
            return Err(PublishFault::Memory);
        }
        let keeper = &mut self.keeper;
        let pass = &mut seat.pass;
        note::<Brand, _, _, R>(rt, cell, keeper, pass, worker, batch, &reply);
        reply
    }

    /// A fetch by the worker of this seat.
    pub(crate) fn fetch<R: Wait>(
        &mut self,
        rt: &R,
        alloc: Global,
        cell: &Cell,
        seat: &mut Ticket<B>,
        from: usize,
    ) -> Result<Lines, FetchFault>
        requires { cell.now.table.shared.table_id ≡ B.table }
        ensures seat { seat.new ≡ told_fetch seat.old from result }
        ensures reply { (result ≡ Err FetchFault.Memory → ⊥) → HoldsOver B.opening seat.old (λ h. IsFetched h from result) }
    {
        let worker = seat.worker;
        let reply = self.pool.fetch(alloc, worker, from);
        if let Err(FetchFault::Memory) = &reply {
            return Err(FetchFault::Memory);
        }
        let keeper = &mut self.keeper;
        let pass = &mut seat.pass;
        note::<Brand, _, _, R>(rt, cell, keeper, pass, worker, &from, &reply);
        reply
    }

    /// A close by the worker of this seat.
    pub(crate) fn close<R: Wait>(
        &mut self,
        rt: &R,
        cell: &Cell,
        seat: &mut Ticket<B>,
        leaf: u32,
        number: u32,
    ) -> Result<(), CloseFault>
        requires { cell.now.table.shared.table_id ≡ B.table }
        ensures seat { seat.new ≡ told_close seat.old leaf number result }
        ensures reply { (result ≡ Err CloseFault.Memory → ⊥) → HoldsOver B.opening seat.old (λ h. IsClosed h leaf number result) }
    {
        let worker = seat.worker;
        let reply = self.pool.close(worker, leaf, number);
        if let Err(CloseFault::Memory) = &reply {
            return Err(CloseFault::Memory);
        }
        let call = (leaf, number);
        let keeper = &mut self.keeper;
        let pass = &mut seat.pass;
        note::<Brand, _, _, R>(rt, cell, keeper, pass, worker, &call, &reply);
        reply
    }

    /// A split by the worker of this seat.
    pub(crate) fn split_leaf<R: Wait>(
        &mut self,
        rt: &R,
        alloc: Global,
        cell: &Cell,
        seat: &mut Ticket<B>,
        leaf: u32,
        variable: u32,
    ) -> Result<(u32, u32), SplitFault>
        requires { cell.now.table.shared.table_id ≡ B.table }
        ensures seat { seat.new ≡ told_split seat.old leaf variable result }
        ensures reply { (result ≡ Err SplitFault.Memory → ⊥) → HoldsOver B.opening seat.old (λ h. IsSplit h leaf variable result) }
    {
        let worker = seat.worker;
        let reply = self.pool.split_leaf(alloc, worker, leaf, variable);
        if let Err(SplitFault::Memory) = &reply {
            return Err(SplitFault::Memory);
        }
        let call = (leaf, variable);
        let keeper = &mut self.keeper;
        let pass = &mut seat.pass;
        note::<Brand, _, _, R>(rt, cell, keeper, pass, worker, &call, &reply);
        reply
    }

    /// A schedule by the worker of this seat.
    pub(crate) fn found<R: Wait>(
        &mut self,
        rt: &R,
        alloc: Global,
        cell: &Cell,
        seat: &mut Ticket<B>,
        steps: Vec<Step>,
    ) -> Result<(), FoundFault>
        requires { cell.now.table.shared.table_id ≡ B.table }
        ensures seat { seat.new ≡ told_found seat.old steps.items result }
        ensures reply { (result ≡ Err FoundFault.Memory → ⊥) → HoldsOver B.opening seat.old (λ h. IsFoundReply h steps.items result) }
    {
        self.found_as::<Brand, R>(rt, alloc, cell, seat, steps)
    }

    /// The same for steps that have a name: the pool takes them before the item is noted.
    fn found_as<S: StepsName, R: Wait>(
        &mut self,
        rt: &R,
        alloc: Global,
        cell: &Cell,
        seat: &mut Ticket<B>,
        steps: Vec<Step>,
    ) -> Result<(), FoundFault>
        requires cell { cell.now.table.shared.table_id ≡ B.table }
        requires steps { steps.items ≡ S.steps }
        ensures seat { seat.new ≡ told_found seat.old S.steps result }
        ensures reply { (result ≡ Err FoundFault.Memory → ⊥) → HoldsOver B.opening seat.old (λ h. IsFoundReply h S.steps result) }
    {
        let worker = seat.worker;
        let reply = self.pool.found(alloc, worker, steps);
        if let Err(FoundFault::Memory) = &reply {
            return Err(FoundFault::Memory);
        }
        let keeper = &mut self.keeper;
        let pass = &mut seat.pass;
        note::<Brand, _, _, R>(rt, cell, keeper, pass, worker, &(), &reply);
        reply
    }

    /// Compares the seat's list with all items.
    fn match_seat<R: Wait>(&mut self, rt: &R, cell: &Cell, seat: &mut Ticket<B>)
        requires { cell.now.table.shared.table_id ≡ B.table }
        ensures same { self.new ≡ self.old }
        ensures seat { seat.new ≡ seat.old }
        ensures mine { seat.old.mine ≡ items_of seat.old.worker self.old.items }
        ensures below { seat.old.worker < self.old.workers }
    {
        match_lists(rt, cell, &mut self.keeper, &mut seat.pass);
    }

    /// A leave by the worker of this seat. Its first one asks for no memory.
    pub(crate) fn leave<R: Wait>(
        &mut self,
        rt: &R,
        cell: &Cell,
        seat: &mut Ticket<B>,
        why: Option<Why>,
    ) -> Result<(), AllocError>
        requires { cell.now.table.shared.table_id ≡ B.table }
        ensures ok { OnOk result (seat.new ≡ told_leave seat.old why) }
        ensures err { OnErr result (seat.new ≡ seat.old) }
        ensures first { has_left seat.old.mine ≡ false → IsOk result }
    {
        self.match_seat(rt, cell, seat);
        let worker = seat.worker;
        leave_pool(&mut self.pool, worker, why)?;
        let keeper = &mut self.keeper;
        let pass = &mut seat.pass;
        note::<Brand, _, _, R>(rt, cell, keeper, pass, worker, &why, &());
        Ok(())
    }
}
