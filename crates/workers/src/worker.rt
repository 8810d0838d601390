//! One worker.

use crate::common::SearchContext;
use crate::exploring::Exploration;
use crate::imports::longest;
use crate::numbers::{line_number, line_place};
use crate::probing::probing_order;
use crate::stop::Stop;
use cdcl::{Found, Solver};
use clauses::{Assignment, Clause, Lit};
use cubes::branching_variables;
use encode::Encoded;
use extract::schedule_of;
use matchset_search::SHORT;
use pages::Lines;
use pool::Share;
use refutations::Batch;
use std::alloc::{AllocError, Global};
use std::mem;
use std::ops::Range;
use std::sync::Wait;

/// What a worker knows, and what it may still do.
#[derive(Drop)]
pub(crate) struct Worker<'e> {
    pub(crate) alloc: Global,
    pub(crate) encoded: &'e Encoded,
    /// What learns below cubes, and with no cube, once it was needed.
    pub(crate) solver: Option<Solver<'e>>,
    /// Whether the match variables were probed.
    is_probed: bool,
    /// The variables that cubes are split on, those that come first first.
    pub(crate) variables: Vec<u32>,
    /// How many lines of the log were seen.
    seen: usize,
    /// The places in the log of the lines that the solver learnt last.
    own: Range<usize>,
    /// How many conflicts were counted below the cube that isn't done.
    pub(crate) below: u64,
    /// How many conflicts may still be counted.
    pub(crate) left: u64,
    /// How many conflicts it counts with no cube before it searches otherwise.
    pub(crate) whole: u64,
    /// The search over sets of matched calls, where this worker has one.
    pub(crate) exploration: Option<Exploration<'e>>,
    /// The number of an empty clause, which refutes each cube.
    pub(crate) refuted: Option<u32>,
}

/// A solver of this program's formula, which probes the match variables unless that was done
/// before.
fn solver_of<'e>(
    alloc: Global,
    encoded: &'e Encoded,
    variables: &[u32],
    is_probed: bool,
) -> Result<Solver<'e>, AllocError> {
    let probed = if is_probed {
        Vec::new(alloc)
    } else {
        probing_order(alloc, encoded, variables)?
    };
    Solver::new(alloc, encoded.formula(), &probed)
}

impl<'e> Worker<'e> {
    pub(crate) fn new<S, G>(
        alloc: Global,
        common: &SearchContext<'e, S, G>,
        worker: u32,
    ) -> Result<Worker<'e>, AllocError> {
        let encoded = common.encoded;
        let variables = branching_variables(alloc, encoded)?;
        Ok(Worker {
            alloc,
            encoded,
            solver: None,
            is_probed: common.begun.is_probed,
            variables,
            seen: 0,
            own: 0..0,
            below: 0,
            left: common.left(worker),
            whole: common.whole(worker),
            exploration: None,
            refuted: None,
        })
    }

    /// Makes the worker of this number search over sets of matched calls too, where that is wanted.
    fn explore_too<S, G>(
        &mut self,
        common: &SearchContext<'e, S, G>,
        worker: u32,
    ) -> Result<(), AllocError> {
        self.exploration = Exploration::make(self.alloc, common, worker)?;
        Ok(())
    }

    /// The worker of this number, from 0.
    pub(crate) fn explorer<S, G>(
        alloc: Global,
        common: &SearchContext<'e, S, G>,
        worker: u32,
    ) -> Result<Worker<'e>, AllocError> {
        let mut made = Worker::new(alloc, common, worker)?;
        if made.explore_too(common, worker).is_err() {
            mem::drop(made);
            return Err(AllocError);
        }
        Ok(made)
    }

    /// How many lines of the log were seen.
    pub(crate) fn seen(&self) -> usize {
        self.seen
    }

    /// How many clauses the formula has.
    pub(crate) fn clauses(&self) -> usize {
        self.encoded.formula().len()
    }

    /// The solver, which is made where it wasn't needed before.
    fn solver(&mut self) -> Result<&mut Solver<'e>, AllocError> {
        let solver = match self.solver.take() {
            Some(solver) => solver,
            None => solver_of(self.alloc, self.encoded, &self.variables, self.is_probed)?,
        };
        Ok(self.solver.insert(solver))
    }

    /// Has the solver, where there is one, take in the line at this place of the log, from 0, where
    /// that is one of its own or has at most so many literals.
    fn teach(&mut self, place: usize, clause: &Clause, longest: usize) -> Result<(), Stop> {
        let number = line_number(self.clauses(), place);
        if let Some(solver) = &mut self.solver
            && (clause.literals().len() <= longest || self.own.contains(&place))
        {
            solver.import(self.alloc, number, clause)?;
        }
        Ok(())
    }

    /// Has the solver take in of these lines, which are the first ones of the log, the short ones
    /// of those that this worker has seen.
    fn teach_all(&mut self, lines: &Lines) -> Result<(), Stop> {
        for place in 0..lines.len().min(self.seen) {
            let Some(line) = lines.get(place) else {
                unreachable!()
            };
            self.teach(place, line.clause(), SHORT)?;
        }
        Ok(())
    }

    /// Makes the solver where it wasn't needed before and still is, and has it take in the short
    /// lines that this worker has seen.
    fn begin_learning<S: Share, R: Wait>(
        &mut self,
        rt: &R,
        shared: &S,
        seat: &mut S::Seat,
    ) -> Result<(), Stop> {
        if self.solver.is_some() || self.refuted.is_some() {
            return Ok(());
        }
        self.solver()?;
        let lines = shared.fetch(rt, self.alloc, seat, 0)?;
        self.teach_all(&lines)
    }

    /// Takes in the line at this place of the log, from 0, where it is one of the solver's own or
    /// has at most so many literals.
    fn import_line(&mut self, place: usize, clause: &Clause, longest: usize) -> Result<(), Stop> {
        if clause.literals().is_empty() {
            self.refuted = Some(line_number(self.clauses(), place));
        }
        self.teach(place, clause, longest)?;
        let number = line_number(self.clauses(), place);
        if let Some(exploration) = &mut self.exploration {
            exploration.import(self.alloc, place, number, clause)?;
        }
        Ok(())
    }

    /// Takes in these lines, which weren't seen, and the first of which stands at this place of the
    /// log: the solver's own, and of others those with so many literals at most.
    pub(crate) fn import(
        &mut self,
        lines: &Lines,
        first: usize,
        longest: usize,
    ) -> Result<(), Stop> {
        for place in 0..lines.len() {
            let Some(line) = lines.get(place) else {
                unreachable!()
            };
            self.import_line(first.saturating_add(place), line.clause(), longest)?;
        }
        self.seen = first.saturating_add(lines.len());
        Ok(())
    }

    /// Searches below the path for at most so many conflicts, and at most those that are left.
    /// Answers how many were counted, too.
    pub(crate) fn learn(&mut self, path: &[Lit], most: u64) -> Result<(Found, u64), Stop> {
        let budget = self.left.min(most);
        let alloc = self.alloc;
        let solver = self.solver()?;
        let found = solver.search(alloc, path, budget)?;
        let conflicts = solver.conflicts();
        self.left = self.left.saturating_sub(conflicts);
        Ok((found, conflicts))
    }

    /// Publishes these lines, which the solver learnt. Answers the number of the first.
    pub(crate) fn publish<S: Share, R: Wait>(
        &mut self,
        rt: &R,
        shared: &S,
        seat: &mut S::Seat,
        batch: &Batch,
    ) -> Result<u32, Stop> {
        let base = shared.publish(rt, self.alloc, seat, batch)?;
        let place = line_place(self.clauses(), base);
        self.own = place..place + batch.lines.len();
        Ok(base)
    }

    /// Hands in the schedule that the assignment tells.
    pub(crate) fn tell<S: Share, R: Wait>(
        &self,
        rt: &R,
        shared: &S,
        seat: &mut S::Seat,
        assignment: &Assignment,
    ) -> Result<(), Stop> {
        let steps = schedule_of(self.alloc, self.encoded, assignment)?;
        shared.found(rt, self.alloc, seat, steps)?;
        Ok(())
    }

    /// Imports the solver's own and the shortest of the lines that the log has by now and this
    /// worker hasn't seen. The solver is made before where it has seen none, so that what the
    /// opening learnt is taken in.
    pub(crate) fn catch_up<S: Share, R: Wait>(
        &mut self,
        rt: &R,
        shared: &S,
        seat: &mut S::Seat,
    ) -> Result<(), Stop> {
        let first = self.seen;
        if first == 0 {
            self.solver()?;
        }
        let lines = shared.fetch(rt, self.alloc, seat, first)?;
        self.import(&lines, first, longest(&lines))?;
        if let Some(exploration) = &mut self.exploration {
            exploration.keep(first, lines)?;
        }
        self.begin_learning(rt, shared, seat)
    }
}
