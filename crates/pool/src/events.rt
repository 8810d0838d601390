//! Runs of a pool: lists of calls, and what they are answered.

ghost use Rattle.std.specs.Prelude.{◌≡◌, IfOk};
ghost use Rattle.pool.specs.Laws.{IsPoolRun, AreAnswered, IsAnswered, after_event};

use crate::entry::{CloseFault, FetchFault, FoundFault, PublishFault, SplitFault};
use crate::keep::Pool;
use crate::why::Why;
use encode::Encoded;
use pages::Lines;
use refutations::Batch;
use semantics::Step;
use std::alloc::{AllocError, Global};
use trees::Tree;

/// A call of a pool, with all that it is given. Workers, leaves and places of lines count from 0,
/// variables and clauses from 1.
#[derive(Drop)]
pub enum Event {
    /// [`Pool::publish`].
    Publish {
        worker: u32,
        batch: Batch,
    },
    /// [`Pool::fetch`].
    Fetch {
        worker: u32,
        from: usize,
    },
    /// [`Pool::close`].
    Close {
        worker: u32,
        leaf: u32,
        number: u32,
    },
    /// [`Pool::split_leaf`].
    Split {
        worker: u32,
        leaf: u32,
        variable: u32,
    },
    /// [`Pool::found`].
    Found {
        worker: u32,
        steps: Vec<Step>,
    },
    /// [`Pool::leave`].
    Leave {
        worker: u32,
        why: Option<Why>,
    },
}

/// What a call of a pool is answered. None is want of memory, so that a worker may always leave.
#[derive(Debug, Drop)]
pub enum Reply {
    /// The number of the first line, or why the batch isn't appended.
    Publish(Result<u32, PublishFault>),
    /// The lines that are handed out, or why there are none.
    Fetch(Result<Lines, FetchFault>),
    /// That the leaf is closed, or why it isn't.
    Close(Result<(), CloseFault>),
    /// The two new leaves, or why the leaf isn't split.
    Split(Result<(u32, u32), SplitFault>),
    /// That the schedule ends stuck, or why it is refused.
    Found(Result<(), FoundFault>),
    /// That the worker left.
    Leave,
}

fn close(pool: &mut Pool, worker: u32, leaf: u32, number: u32) -> Result<Reply, AllocError>
    ensures reply { IfOk result (IsAnswered pool.old.held (Event.Close worker leaf number)) }
    ensures pool { IfOk result (λ given. pool.new ≡ after_event pool.old (Event.Close worker leaf number) given) }
{
    match pool.close(worker, leaf, number) {
        Err(CloseFault::Memory) => Err(AllocError),
        given => Ok(Reply::Close(given)),
    }
}

fn split(
    alloc: Global,
    pool: &mut Pool,
    worker: u32,
    leaf: u32,
    variable: u32,
) -> Result<Reply, AllocError>
    ensures reply { IfOk result (IsAnswered pool.old.held (Event.Split worker leaf variable)) }
    ensures pool { IfOk result (λ given. pool.new ≡ after_event pool.old (Event.Split worker leaf variable) given) }
{
    match pool.split_leaf(alloc, worker, leaf, variable) {
        Err(SplitFault::Memory) => Err(AllocError),
        given => Ok(Reply::Split(given)),
    }
}

/// What a call is answered, but for want of memory.
fn answer(alloc: Global, pool: &mut Pool, event: &Event) -> Result<Reply, AllocError>
    ensures reply { IfOk result (IsAnswered pool.old.held event.now) }
    ensures pool { IfOk result (λ given. pool.new ≡ after_event pool.old event.now given) }
{
    match event {
        Event::Publish { worker, batch } => match pool.publish(alloc, *worker, batch) {
            Err(PublishFault::Memory) => Err(AllocError),
            given => Ok(Reply::Publish(given)),
        },
        Event::Fetch { worker, from } => match pool.fetch(alloc, *worker, *from) {
            Err(FetchFault::Memory) => Err(AllocError),
            given => Ok(Reply::Fetch(given)),
        },
        Event::Close {
            worker,
            leaf,
            number,
        } => close(pool, *worker, *leaf, *number),
        Event::Split {
            worker,
            leaf,
            variable,
        } => split(alloc, pool, *worker, *leaf, *variable),
        Event::Found { worker, steps } => {
            let copy = Vec::from_slice(alloc, steps.as_slice())?;
            match pool.found(alloc, *worker, copy) {
                Err(FoundFault::Memory) => Err(AllocError),
                given => Ok(Reply::Found(given)),
            }
        }
        Event::Leave { worker, why } => {
            pool.leave(*worker, *why)?;
            Ok(Reply::Leave)
        }
    }
}

/// The replies to these calls, made in order.
fn replies_to(alloc: Global, pool: &mut Pool, events: &[Event]) -> Result<Vec<Reply>, AllocError>
    ensures { IfOk result (λ given. AreAnswered pool.old events.now pool.new given.items) }
{
    let mut replies = Vec::with_capacity(alloc, events.len())?;
    for event in events {
        replies.push(answer(alloc, pool, event)?)?;
    }
    Ok(replies)
}

/// These calls, made in order of a pool, with the reply to each.
fn with_replies(
    alloc: Global,
    mut pool: Pool,
    events: &[Event],
) -> Result<(Pool, Vec<Reply>), AllocError>
    ensures { IfOk result (λ made. AreAnswered pool events.now made.0 made.1.items) }
{
    match replies_to(alloc, &mut pool, events) {
        Ok(replies) => Ok((pool, replies)),
        Err(AllocError) => Err(AllocError),
    }
}

/// Makes these calls, in order, of a new pool, and answers the pool with the reply to each. Want of
/// memory in any of them ends the run.
pub fn run(
    alloc: Global,
    encoded: Encoded,
    tree: Tree,
    events: &[Event],
) -> Result<(Pool, Vec<Reply>), AllocError>
    requires { tree.variables ≡ encoded.formula.variables }
    ensures { IfOk result (λ made. IsPoolRun encoded tree events.now made.0 made.1.items) }
{
    match Pool::new(alloc, encoded, tree) {
        Ok(pool) => with_replies(alloc, pool, events),
        Err(AllocError) => Err(AllocError),
    }
}
