//! A pool under a lock, which may lie, and which notes what it is asked and what its gate is told.

use crate::searches::trail::Trail;
use clauses::{LARGEST_VARIABLE, Lit};
use pages::Lines;
use pool::{
    AssembleFault, CloseFault, FetchFault, FoundFault, PathFault, Pool, PublishFault, Share,
    SplitFault, Status, Why,
};
use prooflog::Evidence;
use refutations::{Batch, Line};
use semantics::Step;
use std::alloc::{AllocError, Global};
use std::sync::{Mutex, Wait};
use workers::{Gate, Searched};

/// In which way a share lies.
#[derive(Clone, Copy, Debug, PartialEq, Eq)]
pub enum Lie {
    /// In none.
    Nothing,
    /// All that it hands out is a line over a variable that the formula doesn't have.
    ForeignLine,
    /// It says of no leaf that it is open when it is to be closed.
    NeverOpen,
    /// It says of no line that it derives.
    NeverDerived,
    /// It keeps no line, hands out none, and says that the first of each batch has the number 1.
    Forgetful,
    /// It says of each leaf that the tree has no room to split it.
    NoRoom,
    /// It says of each batch that the log has no room for it.
    FullLog,
    /// It says of each path that memory ran out.
    NoMemory,
    /// It says of each list of lines that is asked for that memory ran out.
    NoLines,
    /// It says of each list of lines that is asked for that it would begin past the end.
    PastEnd,
    /// It says of each list of lines, once a thousand were asked for, that memory ran out.
    Impatient,
}

/// How many lists of lines an impatient share hands out.
const MOST_LISTS: u64 = 1_000;

/// A pool under a lock, and the gate of its worker; a seat is the number of a worker.
#[derive(Drop)]
pub struct Fake {
    pub pool: Mutex<Pool>,
    pub lie: Lie,
    pub trail: Trail,
}

impl Gate for Fake {
    fn before(&self, worker: u32, cube: u32) {
        self.trail.pass(worker, cube);
    }

    fn after(&self, worker: u32, searched: Searched) {
        self.trail.end(worker, searched.lines);
    }
}

fn lines_of(alloc: Global, lines: Vec<Line>) -> Result<Lines, FetchFault> {
    match Lines::from_vec(alloc, lines) {
        Ok(lines) => Ok(lines),
        Err(AllocError) => Err(FetchFault::Memory),
    }
}

fn foreign_line(alloc: Global) -> Result<Lines, FetchFault> {
    let mut lines = Vec::new(alloc);
    let Some(literal) = Lit::make(LARGEST_VARIABLE, true) else {
        return Err(FetchFault::PastEnd);
    };
    let Ok(line) = Line::make(alloc, &[literal], &[1]) else {
        return Err(FetchFault::Memory);
    };
    match lines.push(line) {
        Ok(()) => lines_of(alloc, lines),
        Err(_line) => Err(FetchFault::Memory),
    }
}

impl Share for Fake {
    type Seat = u32;

    fn publish<R: Wait>(
        &self,
        rt: &R,
        alloc: Global,
        seat: &mut u32,
        batch: &Batch,
    ) -> Result<u32, PublishFault> {
        let reply = match self.lie {
            Lie::NeverDerived => Err(PublishFault::NotDerived(0)),
            Lie::Forgetful => Ok(1),
            Lie::FullLog => Err(PublishFault::Full),
            _ => self.pool.lock(rt).publish(alloc, *seat, batch),
        };
        self.trail.ask(reply.is_err());
        reply
    }

    fn fetch<R: Wait>(
        &self,
        rt: &R,
        alloc: Global,
        seat: &mut u32,
        from: usize,
    ) -> Result<Lines, FetchFault> {
        let reply = match self.lie {
            Lie::ForeignLine => foreign_line(alloc),
            Lie::Forgetful => lines_of(alloc, Vec::new(alloc)),
            Lie::NoLines => Err(FetchFault::Memory),
            Lie::PastEnd => Err(FetchFault::PastEnd),
            Lie::Impatient if self.trail.fetch() > MOST_LISTS => Err(FetchFault::Memory),
            _ => self.pool.lock(rt).fetch(alloc, *seat, from),
        };
        self.trail.ask(reply.is_err());
        reply
    }

    fn close<R: Wait>(
        &self,
        rt: &R,
        seat: &mut u32,
        leaf: u32,
        number: u32,
    ) -> Result<(), CloseFault> {
        let reply = match self.lie {
            Lie::NeverOpen => Err(CloseFault::NotOpen),
            _ => self.pool.lock(rt).close(*seat, leaf, number),
        };
        self.trail.ask(reply.is_err());
        reply
    }

    fn split_leaf<R: Wait>(
        &self,
        rt: &R,
        alloc: Global,
        seat: &mut u32,
        leaf: u32,
        variable: u32,
    ) -> Result<(u32, u32), SplitFault> {
        let reply = match self.lie {
            Lie::NoRoom => Err(SplitFault::Full),
            _ => self.pool.lock(rt).split_leaf(alloc, *seat, leaf, variable),
        };
        self.trail
            .ask(!matches!(reply, Ok(_) | Err(SplitFault::Full)));
        reply
    }

    fn found<R: Wait>(
        &self,
        rt: &R,
        alloc: Global,
        seat: &mut u32,
        steps: Vec<Step>,
    ) -> Result<(), FoundFault> {
        let reply = self.pool.lock(rt).found(alloc, *seat, steps);
        self.trail.ask(reply.is_err());
        reply
    }

    fn leave<R: Wait>(&self, rt: &R, seat: &mut u32, why: Option<Why>) -> Result<(), AllocError> {
        self.pool.lock(rt).leave(*seat, why)
    }

    fn status<R: Wait>(&self, rt: &R) -> Status {
        self.pool.lock(rt).status()
    }

    fn path<R: Wait>(&self, rt: &R, alloc: Global, leaf: u32) -> Result<Vec<Lit>, PathFault> {
        let reply = match self.lie {
            Lie::NoMemory => Err(PathFault::Memory),
            _ => self.pool.lock(rt).path(alloc, leaf),
        };
        self.trail.ask(reply.is_err());
        self.trail.begin(leaf);
        reply
    }

    fn assemble<R: Wait>(&self, rt: &R, alloc: Global) -> Result<Evidence, AssembleFault> {
        self.pool.lock(rt).assemble(alloc)
    }
}
