//! What a call of the pool is answered, and what the history keeps of it.

use crate::why::Why;
use refutations::Line;
use semantics::Step;
use std::collections::LinkedList;
use thiserror::Error;

/// Why a batch isn't appended. Of several reasons the first is told, but for want of memory.
#[derive(Clone, Copy, Debug, PartialEq, Eq, Error)]
pub enum PublishFault {
    /// Memory ran out.
    #[error("memory")]
    Memory,
    /// The first line, by its place in the batch from 0, that doesn't derive from the formula, the
    /// log and the lines before it.
    #[error("line {0} not derived")]
    NotDerived(usize),
    /// Each line derives, and the log would have more than 1,000,000 lines.
    #[error("log full")]
    Full,
}

/// Why no lines are handed out.
#[derive(Clone, Copy, Debug, PartialEq, Eq, Error)]
pub enum FetchFault {
    /// Memory ran out.
    #[error("memory")]
    Memory,
    /// The log has fewer lines than those that are to be left out.
    #[error("past the end")]
    PastEnd,
}

/// Why a leaf isn't closed.
#[derive(Clone, Copy, Debug, PartialEq, Eq, Error)]
pub enum CloseFault {
    /// Memory ran out.
    #[error("memory")]
    Memory,
    /// There is no open leaf of this number.
    #[error("not open")]
    NotOpen,
    /// The leaf is open, and there is no clause of this number, or it has a literal that isn't the
    /// negation of one on the leaf's path.
    #[error("not refuted")]
    NotRefuted,
}

/// Why a leaf isn't split.
#[derive(Clone, Copy, Debug, PartialEq, Eq, Error)]
pub enum SplitFault {
    /// Memory ran out.
    #[error("memory")]
    Memory,
    /// There is no open leaf of this number.
    #[error("not open")]
    NotOpen,
    /// The leaf is open, and the tree would have more than 65,536 nodes, or a path more than 64
    /// literals.
    #[error("tree full")]
    Full,
    /// The leaf is open and there is room, and the formula has no variable of this number.
    #[error("no variable")]
    NoVariable,
}

/// Why a schedule is refused.
#[derive(Clone, Copy, Debug, PartialEq, Eq, Error)]
pub enum FoundFault {
    /// Memory ran out.
    #[error("memory")]
    Memory,
    /// The schedule isn't a run of the program that ends stuck.
    #[error("not stuck")]
    NotStuck,
}

/// Why no path is told.
#[derive(Clone, Copy, Debug, PartialEq, Eq, Error)]
pub enum PathFault {
    /// Memory ran out.
    #[error("memory")]
    Memory,
    /// There is no open leaf of this number.
    #[error("not open")]
    NotOpen,
}

/// A call that was answered, but for its lines and its steps. None is answered with want of memory.
#[derive(Clone, Copy, PartialEq, Eq)]
pub enum Operation {
    /// How many lines the batch has, and the number of the first.
    Publish(usize, Result<u32, PublishFault>),
    /// How many lines were left out, and how many there were after them.
    Fetch(usize, Result<usize, FetchFault>),
    /// The leaf, and the number of the clause.
    Close(u32, u32, Result<(), CloseFault>),
    /// The leaf, the variable, and the two new leaves.
    Split(u32, u32, Result<(u32, u32), SplitFault>),
    /// How many steps the schedule has.
    Found(usize, Result<(), FoundFault>),
    /// Why the worker left, if it wasn't done.
    Leave(Option<Why>),
}

/// One call of the history.
#[derive(Clone, Copy, PartialEq, Eq)]
pub struct Entry {
    /// Who called, counted from 0.
    pub worker: u32,
    /// The call and its answer.
    pub operation: Operation,
}

/// An entry with the lines that were appended or handed out and the steps of the schedule that was
/// accepted. Contracts alone see it: no value of it is made.
pub struct LoggedCall {
    /// The entry.
    pub entry: Entry,
    /// The lines that were appended or handed out.
    pub lines: LinkedList<Line>,
    /// The steps of the schedule that was accepted.
    pub steps: LinkedList<Step>,
}
