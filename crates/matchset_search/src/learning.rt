//! Clauses that are learnt where no rule helps.

use crate::engine::Written;
use crate::explorer::Explorer;
use crate::tasks::{Branch, Purpose, Task};
use cdcl::{Found, Solver};
use clauses::{Assignment, Formula, Lit};
use propagation::{ClauseRef, LitIndex, Origin, indices_of};
use refutations::{Batch, BatchLine, Hint};
use std::alloc::{AllocError, Global};

/// What the learner found.
#[derive(Drop)]
pub(crate) enum Learning {
    /// A clause, by where it comes from.
    Clause(Origin),
    /// This assignment satisfies the formula and the literals, as it says.
    Model(Assignment),
    /// The budget is used up, or the batch has to end first.
    Budget,
}

/// The literals of these indices.
fn literals_of(alloc: Global, indices: &[LitIndex]) -> Result<Vec<Lit>, AllocError> {
    let mut literals = Vec::new(alloc);
    for index in indices {
        if let Some(literal) = index.literal() {
            literals.push(literal)?;
        }
    }
    Ok(literals)
}

/// What the hints name, where the batch that they belong to is put behind so many lines.
fn origins_behind(alloc: Global, hints: &[Hint], lines: usize) -> Result<Vec<Origin>, AllocError> {
    let mut origins = Vec::with_capacity(alloc, hints.len())?;
    for hint in hints {
        origins.push(Origin::of_hint(*hint, lines))?;
    }
    Ok(origins)
}

/// The literal at this place is excluded by this clause.
fn fill_branches(branches: &mut [Branch], place: usize, clause: ClauseRef) {
    if let Some(branch) = branches.get_mut(place) {
        branch.clause = Some(clause);
    }
}

fn fill_task(task: &mut Task, place: usize, clause: ClauseRef) {
    match task {
        Task::Finish(branching) => {
            fill_branches(branching.branches.as_mut_slice(), place, clause);
        }
        _ => {}
    }
}

impl<'e> Explorer<'e> {
    /// The learner, which is made where there is none yet.
    fn call_learner(
        &mut self,
        alloc: Global,
        formula: &'e Formula,
        cube: &[Lit],
        budget: u64,
    ) -> Result<Found, AllocError> {
        let mut learner = match self.learner.take() {
            Some(learner) => learner,
            None => Solver::new(alloc, formula, &[])?,
        };
        let found = learner.search(alloc, cube, budget);
        self.learner = Some(learner);
        match found {
            Ok(found) => Ok(found),
            Err(_) => Err(AllocError),
        }
    }

    /// Takes in a line of the learner's, whose batch is put behind so many lines.
    fn append_line(
        &mut self,
        alloc: Global,
        line: &BatchLine,
        before: usize,
        batch: &mut Batch,
    ) -> Result<(), AllocError> {
        let literals = indices_of(alloc, line.clause.literals())?;
        let origins = origins_behind(alloc, &line.hints, before)?;
        let Some(clause) = self.engine.add_line(alloc, &literals, &origins, batch)? else {
            return Ok(());
        };
        self.engine.watch_later(&Written {
            clause,
            literals,
            is_new: true,
        })
    }

    /// Takes in the learner's lines.
    fn append(
        &mut self,
        alloc: Global,
        lines: &Batch,
        batch: &mut Batch,
    ) -> Result<(), AllocError> {
        let before = batch.lines.len();
        self.learnt_from = before;
        self.learnt_to = before + lines.lines.len();
        for line in &lines.lines {
            self.append_line(alloc, line, before, batch)?;
        }
        Ok(())
    }

    /// Whether lines of the learner's stand in this batch. It would lose them if it searched once
    /// more before they come back, and begin anew.
    fn awaits_lines(&self) -> bool {
        self.learnt_from < self.learnt_to
    }

    /// Has the learner look for a clause of negations of these literals, unless lines of its own
    /// have to come back first.
    pub(crate) fn learn(
        &mut self,
        alloc: Global,
        formula: &'e Formula,
        literals: &[LitIndex],
        budget: u64,
        batch: &mut Batch,
    ) -> Result<Learning, AllocError> {
        if self.awaits_lines() {
            return Ok(Learning::Budget);
        }
        let cube = literals_of(alloc, literals)?;
        match self.call_learner(alloc, formula, &cube, budget)? {
            Found::Closed(lines, last) => {
                let origin = Origin::of_hint(last, batch.lines.len());
                self.append(alloc, &lines, batch)?;
                Ok(Learning::Clause(origin))
            }
            Found::Model(assignment) => Ok(Learning::Model(assignment)),
            Found::Budget(lines) => {
                self.append(alloc, &lines, batch)?;
                Ok(Learning::Budget)
            }
        }
    }

    /// The clause that comes from there: a line of the batch, or one of the formula, once more.
    fn clause_at(
        &mut self,
        alloc: Global,
        formula: &Formula,
        origin: Origin,
    ) -> Result<Option<ClauseRef>, AllocError> {
        let number = match origin.hint() {
            Hint::Own(place) => return Ok(self.engine.known.line(place as usize)),
            Hint::Known(number) => number,
        };
        let Some(clause) = formula.clause(number as usize) else {
            return Ok(None);
        };
        let literals = indices_of(alloc, clause.literals())?;
        self.engine.known.add(&literals, origin, 0)
    }

    /// The literal at this place of the branching that is finished next is excluded by this clause.
    fn fill_branch(&mut self, place: usize, clause: ClauseRef) {
        if let Some(task) = self.tasks.last_mut() {
            fill_task(task, place, clause);
        }
    }

    /// Uses a learnt clause for what it was looked for.
    pub(crate) fn use_clause(
        &mut self,
        alloc: Global,
        formula: &Formula,
        origin: Origin,
        purpose: Purpose,
    ) -> Result<(), AllocError> {
        let Some(clause) = self.clause_at(alloc, formula, origin)? else {
            return Ok(());
        };
        match purpose {
            Purpose::State(key) => self.close(alloc, key, clause),
            Purpose::Literal(place) => {
                self.fill_branch(place, clause);
                Ok(())
            }
            Purpose::Formula => Ok(()),
        }
    }
}
