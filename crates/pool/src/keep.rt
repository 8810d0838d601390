//! The pool, and the calls that change it.

ghost use Rattle.std.specs.Prelude.{◌≡◌, ◌↔◌, ◌≤◌, ◌+◌, ◌-◌, ◌++◌, ◌∷◌, [], Some, length, replicate, unwrap_or, IfOk, IfSome, OnOk, OnErr, IsTrue, IsOk};
ghost use Rattle.std.specs.Option.{option_map};
ghost use Rattle.std.specs.Arc.{arc_value};
ghost use Rattle.trees.specs.Trees.{HasNoRoom, IsLeaf, split_at};
ghost use Rattle.pool.specs.Counts.{open_count};
ghost use Rattle.pool.specs.Calls.{published, fetched, closed, after_split, after_found};
ghost use Rattle.pool.specs.States.{opening_pool, noted, with_places, next_number, leave_item, IsPublished, IsFetched, IsClosed, IsSplit, IsFoundReply};
ghost use Rattle.pool.specs.Moves.{AreOfBatch};
ghost use Rattle.pool.specs.Replies.{resolved_lines, DeriveAfter};
ghost use Rattle.semantics.specs.Machine.{IsStuckRun};

use crate::derived::DerivedLines;
use crate::entry::{CloseFault, FetchFault, FoundFault, Operation, PublishFault, SplitFault};
use crate::extend::extend;
use crate::ledger::Ledger;
use crate::why::Why;
use callorder::Program;
use clauses::Formula;
use encode::Encoded;
use pages::{Lines, Log};
use refutations::{Batch, PartialAssignment};
use semantics::{End, ReplayFault, Step, replay};
use std::alloc::{AllocError, Global};
use std::marker::Model;
use std::sync::Arc;
use trees::Tree;

/// What the workers of a search over one program share. Each line of its log derives from the
/// formula and the lines before it, each closed leaf is refuted by its clause, and a schedule that
/// it keeps is a run of the program that ends stuck. Workers are numbered from 0; their calls stand
/// in the history, in order, but for those that were refused for want of memory.
#[derive(Drop)]
pub struct Pool {
    pub(crate) encoded: Arc<Encoded>,
    pub(crate) tree: Tree,
    pub(crate) closed: Vec<u32>,
    pub(crate) open_leaves: u32,
    pub(crate) log: Log,
    pub(crate) known: PartialAssignment,
    pub(crate) schedule: Option<Vec<Step>>,
    pub(crate) ledger: Ledger,
}

impl Model for Pool {
    ghost use Rattle.std.specs.Prelude.{◌≡◌, ◌+◌, length};
    ghost use Rattle.std.specs.Option.{option_map};
    ghost use Rattle.std.specs.Arc.{arc_value};
    ghost use Rattle.pool.specs.Counts.{open_count};
    ghost use Rattle.pool.specs.States.{PoolWithHistory, IsSoundPool, held_of};

    ghost Value = { PoolWithHistory };

    ghost view = { λ a. record {
      held = held_of (arc_value a.encoded) a.tree a.closed.items a.log
          (option_map (λ s. s.items) a.schedule) a.ledger.reasons;
      history = a.ledger.history;
      places = a.ledger.places;
    } };

    ghost invariant = { λ a.
        IsSoundPool (held_of (arc_value a.encoded) a.tree a.closed.items a.log
        (option_map (λ s. s.items) a.schedule) a.ledger.reasons)
        × (a.open_leaves ≡ open_count a.tree.nodes a.closed.items)
        × (length a.known ≡ (arc_value a.encoded).formula.variables + 1) };
}

/// How many leaves the tree has.
fn leaves_of(tree: &Tree) -> u32
    ensures { result ≡ open_count tree.now.nodes (replicate (length tree.now.nodes) 0) }
{
    let mut leaves = 0;
    for node in 0..tree.len() {
        if tree.is_leaf(node as u32) {
            leaves += 1;
        }
    }
    leaves
}

/// Splits a leaf for which there is room; the two new leaves are open.
fn split_open(
    alloc: Global,
    tree: &mut Tree,
    closed: &mut Vec<u32>,
    leaf: u32,
    variable: u32,
) -> Result<(u32, u32), AllocError>
    requires leaf { IsLeaf tree.old.nodes leaf }
    requires room { HasNoRoom tree.old.nodes leaf → ⊥ }
    requires from_one { 1 ≤ variable }
    requires within { variable ≤ tree.old.variables }
    ensures split { OnOk result (tree.new ≡ record tree.old { nodes = split_at tree.old.nodes leaf variable }) }
    ensures open { OnOk result (closed.new.items ≡ closed.old.items ++ 0 ∷ 0 ∷ []) }
    ensures numbers { IfOk result (λ below. below ≡ (length tree.old.nodes, length tree.old.nodes + 1)) }
    ensures kept { OnErr result (tree.new ≡ tree.old) }
    ensures unchanged { OnErr result (closed.new.items ≡ closed.old.items) }
{
    closed.reserve(2)?;
    match tree.split_leaf(alloc, leaf, variable) {
        Ok(below) => {
            closed.push_reserved(0);
            closed.push_reserved(0);
            Ok(below)
        }
        Err(trees::LeafSplitFault::Memory) => Err(AllocError),
        Err(trees::LeafSplitFault::TooMany) => unreachable!(),
    }
}

/// Whether the steps are a run of the program that ends stuck.
fn ends_stuck(alloc: Global, program: &Program, steps: &[Step]) -> Result<bool, AllocError>
    ensures { IfOk result (λ stuck. IsTrue stuck ↔ IsStuckRun program.now steps.now) }
{
    match replay(alloc, program, steps) {
        Ok(End::Stuck) => Ok(true),
        Ok(End::Finished) => Ok(false),
        Ok(End::Live) => Ok(false),
        Err(ReplayFault::NotEnabled { .. }) => Ok(false),
        Err(ReplayFault::Memory) => Err(AllocError),
    }
}

/// The first schedule stays.
fn keep_first(schedule: &mut Option<Vec<Step>>, steps: Vec<Step>)
    ensures { option_map (λ s. s.items) schedule.new ≡ Some (unwrap_or (option_map (λ s. s.items) schedule.old) steps.items) }
{
    if schedule.is_none() {
        *schedule = Some(steps);
    }
}

/// No number for each node of the tree, and no value for each variable of the formula.
fn tables(
    alloc: Global,
    formula: &Formula,
    tree: &Tree,
) -> Result<(Vec<u32>, PartialAssignment), AllocError>
    ensures closed { IfOk result (λ made. made.0.items ≡ replicate (length tree.now.nodes) 0) }
    ensures known { IfOk result (λ made. length made.1 ≡ formula.now.variables + 1) }
{
    let closed = vec![in alloc; 0u32; tree.len()]?;
    let known = PartialAssignment::new(alloc, formula.variables())?;
    Ok((closed, known))
}

/// The formula, to be shared.
fn shared(alloc: Global, encoded: Encoded) -> Result<Arc<Encoded>, AllocError>
    ensures { IfOk result (λ shared. arc_value shared ≡ encoded) }
{
    match Arc::new(alloc, encoded) {
        Ok(shared) => Ok(shared),
        Err(_) => Err(AllocError),
    }
}

impl Pool {
    /// The pool in which all leaves of the tree are open, and nothing else is. The tree has to be
    /// over as many variables as the formula has.
    pub fn new(alloc: Global, encoded: Encoded, tree: Tree) -> Result<Pool, AllocError>
        requires { tree.variables ≡ encoded.formula.variables }
        ensures { IfOk result (λ pool. pool ≡ opening_pool encoded tree) }
    {
        let encoded = shared(alloc, encoded)?;
        Pool::opened(alloc, encoded, tree)
    }

    /// The pool of a shared formula, in which nothing was done yet.
    fn opened(alloc: Global, encoded: Arc<Encoded>, tree: Tree) -> Result<Pool, AllocError>
        requires { tree.variables ≡ (arc_value encoded).formula.variables }
        ensures { IfOk result (λ pool. pool ≡ opening_pool (arc_value encoded) tree) }
    {
        let _program = encoded.program();
        let formula = encoded.formula();
        let _variables = tree.variables();
        let (closed, known) = tables(alloc, formula, &tree)?;
        let open_leaves = leaves_of(&tree);
        Ok(Pool {
            encoded,
            tree,
            closed,
            open_leaves,
            log: Log::new(alloc),
            known,
            schedule: None,
            ledger: Ledger::new(alloc),
        })
    }

    /// Appends the lines of a batch to the log, each `Own` hint as the number of the batch's line
    /// at that place, and answers the number of the first line; for an empty batch, that of the
    /// next line. The check of the lines takes no time by the size of the formula or the log. A
    /// batch of more than 2,000,000,000 lines is refused as want of memory, which comes long
    /// before. Refused with [`PublishFault::NotDerived`] at the first line that doesn't derive,
    /// counted from 0, and else with [`PublishFault::Full`] where the log would have more than
    /// 1,000,000 lines; nothing is appended then.
    pub fn publish(
        &mut self,
        alloc: Global,
        worker: u32,
        batch: &Batch,
    ) -> Result<u32, PublishFault>
        ensures reply { IsPublished self.old.held batch.now.lines.items result }
        ensures pool { self.new ≡ published self.old worker batch.now.lines.items result }
    {
        self.publish_as(alloc, worker, batch, None)
    }

    /// The same of a batch whose lines are known to derive behind the log as it is now: where they
    /// are given, they are neither checked nor made again. They may be numbered for another place
    /// of the log, such as a shorter log's end.
    pub fn publish_as(
        &mut self,
        alloc: Global,
        worker: u32,
        batch: &Batch,
        derived: Option<DerivedLines>,
    ) -> Result<u32, PublishFault>
        requires derived { IfSome derived (λ _.
            DeriveAfter self.old.held.formula self.old.held.log (resolved_lines (next_number self.old.held)
            batch.now.lines.items)) }
        requires lines { IfSome derived (λ d. AreOfBatch batch.now.lines.items d) }
        ensures reply { IsPublished self.old.held batch.now.lines.items result }
        ensures pool { self.new ≡ published self.old worker batch.now.lines.items result }
    {
        if self.ledger.reserve().is_err() {
            return Err(PublishFault::Memory);
        }
        let base = self.next_number();
        let count = batch.lines.len();
        let formula = self.encoded.formula();
        let lines = batch.lines.as_slice();
        match extend(
            alloc,
            &mut self.known,
            formula,
            &mut self.log,
            base,
            lines,
            derived,
        ) {
            Ok(()) => {
                let operation = Operation::Publish(count, Ok(base));
                self.ledger.answer(worker, operation, Ok(base))
            }
            Err(PublishFault::Memory) => Err(PublishFault::Memory),
            Err(PublishFault::NotDerived(place)) => {
                let reply = Err(PublishFault::NotDerived(place));
                let operation = Operation::Publish(count, reply);
                self.ledger.answer(worker, operation, reply)
            }
            Err(PublishFault::Full) => {
                let reply = Err(PublishFault::Full);
                let operation = Operation::Publish(count, reply);
                self.ledger.answer(worker, operation, reply)
            }
        }
    }

    /// The lines of the log after the first `from` ones. Refused with [`FetchFault::PastEnd`]
    /// exactly where the log has fewer.
    pub fn fetch(&mut self, alloc: Global, worker: u32, from: usize) -> Result<Lines, FetchFault>
        ensures reply { IsFetched self.old.held from result }
        ensures pool { self.new ≡ fetched self.old worker from result }
    {
        if self.ledger.reserve().is_err() {
            return Err(FetchFault::Memory);
        }
        if self.log.len() < from {
            let fault = FetchFault::PastEnd;
            let operation = Operation::Fetch(from, Err(fault));
            return self.ledger.answer(worker, operation, Err(fault));
        }
        let Ok(lines) = self.log.after(alloc, from) else {
            return Err(FetchFault::Memory);
        };
        let operation = Operation::Fetch(from, Ok(lines.len()));
        self.ledger.answer(worker, operation, Ok(lines))
    }

    /// Closes an open leaf by the clause or line of this number, all of whose literals are
    /// negations of literals on the leaf's path. Nodes are numbered from 0, clauses and lines from
    /// 1. Refused with [`CloseFault::NotOpen`] where there is no such open leaf, and else with
    /// [`CloseFault::NotRefuted`].
    pub fn close(&mut self, worker: u32, leaf: u32, number: u32) -> Result<(), CloseFault>
        ensures reply { IsClosed self.old.held leaf number result }
        ensures pool { self.new ≡ closed self.old worker leaf number result }
    {
        if self.ledger.reserve().is_err() {
            return Err(CloseFault::Memory);
        }
        if !self.is_open(leaf) {
            let reply = Err(CloseFault::NotOpen);
            let operation = Operation::Close(leaf, number, reply);
            return self.ledger.answer(worker, operation, reply);
        }
        if !self.is_closed_by(leaf, number) {
            let reply = Err(CloseFault::NotRefuted);
            let operation = Operation::Close(leaf, number, reply);
            return self.ledger.answer(worker, operation, reply);
        }
        self.closed[leaf as usize] = number;
        self.open_leaves -= 1;
        let operation = Operation::Close(leaf, number, Ok(()));
        self.ledger.answer(worker, operation, Ok(()))
    }

    /// Splits an open leaf on a variable of the formula, from 1, and answers the numbers of the two
    /// new leaves: the first has the variable true, the second false. Nodes are numbered from 0.
    /// Refused, in this order, where there is no such open leaf, no room in the tree (65,536 nodes,
    /// 64 literals on a path), or no such variable.
    pub fn split_leaf(
        &mut self,
        alloc: Global,
        worker: u32,
        leaf: u32,
        variable: u32,
    ) -> Result<(u32, u32), SplitFault>
        ensures reply { IsSplit self.old.held leaf variable result }
        ensures pool { self.new ≡ after_split self.old worker leaf variable result }
    {
        if self.ledger.reserve().is_err() {
            return Err(SplitFault::Memory);
        }
        match self.split_fault(leaf, variable) {
            None => {}
            Some(fault) => {
                let operation = Operation::Split(leaf, variable, Err(fault));
                return self.ledger.answer(worker, operation, Err(fault));
            }
        }
        let Ok(below) = split_open(alloc, &mut self.tree, &mut self.closed, leaf, variable) else {
            return Err(SplitFault::Memory);
        };
        self.open_leaves += 1;
        let operation = Operation::Split(leaf, variable, Ok(below));
        self.ledger.answer(worker, operation, Ok(below))
    }

    /// Notes why a worker leaves, which is `None` where it is done. May want memory, as each call
    /// but [`leave_kept`](Pool::leave_kept).
    pub fn leave(&mut self, worker: u32, why: Option<Why>) -> Result<(), AllocError>
        ensures ok { OnOk result (self.new ≡ noted self.old (leave_item worker why)) }
        ensures err { OnErr result (self.new ≡ self.old) }
    {
        self.ledger.leave(worker, why)
    }

    /// Keeps so many more places, each for one [`leave_kept`](Pool::leave_kept): the other calls
    /// leave them free. Where memory is wanting, none more is kept.
    pub fn keep_places(&mut self, places: usize) -> Result<(), AllocError>
        ensures ok { OnOk result (self.new ≡ with_places self.old (self.old.places + places)) }
        ensures err { OnErr result (self.new ≡ self.old) }
    {
        self.ledger.keep_places(places)
    }

    /// As [`leave`](Pool::leave), by a place that is kept: then no memory is asked for, and none is
    /// wanting. Where no place is kept, it is `leave`.
    pub fn leave_kept(&mut self, worker: u32, why: Option<Why>) -> Result<(), AllocError>
        ensures ok { OnOk result (self.new ≡ noted (with_places self.old (self.old.places - 1)) (leave_item worker why)) }
        ensures err { OnErr result (self.new ≡ self.old) }
        ensures kept { 1 ≤ self.old.places → IsOk result }
    {
        self.ledger.leave_kept(worker, why)
    }

    /// Keeps the first schedule that is a run of the program that ends stuck; later ones change the
    /// history alone.
    pub fn found(&mut self, alloc: Global, worker: u32, steps: Vec<Step>) -> Result<(), FoundFault>
        ensures reply { IsFoundReply self.old.held steps.items result }
        ensures pool { self.new ≡ after_found self.old worker steps.items result }
    {
        if self.ledger.reserve().is_err() {
            return Err(FoundFault::Memory);
        }
        let count = steps.len();
        match ends_stuck(alloc, self.encoded.program(), &steps) {
            Ok(true) => {
                keep_first(&mut self.schedule, steps);
                let operation = Operation::Found(count, Ok(()));
                self.ledger.answer(worker, operation, Ok(()))
            }
            Ok(false) => {
                let reply = Err(FoundFault::NotStuck);
                let operation = Operation::Found(count, reply);
                self.ledger.answer(worker, operation, reply)
            }
            Err(AllocError) => Err(FoundFault::Memory),
        }
    }
}
