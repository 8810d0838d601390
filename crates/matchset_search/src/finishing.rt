//! The lines of a state below whose literals all states are closed.

use crate::engine::{Conflict, Written};
use crate::explorer::Explorer;
use crate::tasks::{Branch, Branching, Purpose, Task};
use matchsets::Key;
use propagation::{ClauseRef, LitIndex};
use refutations::Batch;
use std::alloc::{AllocError, Global};

/// What comes of a literal.
#[derive(Clone, Copy)]
enum Excluding {
    /// It is false by now, or was.
    Going,
    /// No clause against it follows.
    Gap(usize),
    /// The state is closed by this clause.
    Closed(ClauseRef),
    /// All literals are false or can't be, so that this clause is false.
    Conflict(ClauseRef),
}

/// The clause against a literal.
#[derive(Clone, Copy)]
enum Against {
    /// This one.
    Clause(ClauseRef),
    /// This one, which closes the state without it.
    Closed(ClauseRef),
    /// None that follows.
    Nothing,
}

impl<'e> Explorer<'e> {
    /// The clause of the state below the literal.
    fn clause_below(&self, branch: &Branch) -> Option<ClauseRef> {
        self.clause_of(branch.key?)
    }

    /// Makes the literal true, and answers which clause is false then.
    fn falsified_below(
        &mut self,
        alloc: Global,
        branch: &Branch,
    ) -> Result<Option<ClauseRef>, AllocError> {
        let conflict = self.engine.decide(alloc, branch.literal)?;
        if conflict.is_some() {
            return Ok(conflict);
        }
        match self.clause_below(branch) {
            Some(clause) => self.engine.apply(alloc, clause),
            None => Ok(None),
        }
    }

    /// Writes the line against a literal, and answers too whether that takes the literal.
    fn write_against(
        &mut self,
        alloc: Global,
        branch: &Branch,
        batch: &mut Batch,
    ) -> Result<Option<(Written, bool)>, AllocError> {
        let level = self.engine.known.level();
        let falsified = self.falsified_below(alloc, branch)?;
        let written = match falsified {
            Some(clause) => self.engine.write(alloc, Conflict::Clause(clause), batch)?,
            None => None,
        };
        let takes_it = match &written {
            Some(written) => self.engine.is_above(level, &written.literals),
            None => false,
        };
        self.engine.known.back(level);
        match written {
            Some(written) => Ok(Some((written, takes_it))),
            None => Ok(None),
        }
    }

    /// The clause against a literal.
    fn against(
        &mut self,
        alloc: Global,
        branch: &Branch,
        batch: &mut Batch,
    ) -> Result<Against, AllocError> {
        if let Some(clause) = branch.clause {
            return Ok(Against::Clause(clause));
        }
        let Some((written, takes_it)) = self.write_against(alloc, branch, batch)? else {
            return Ok(Against::Nothing);
        };
        self.engine.watch_later(&written)?;
        if takes_it {
            return Ok(Against::Clause(written.clause));
        }
        Ok(Against::Closed(written.clause))
    }

    /// Makes a literal false that has no value yet, and answers the end that this comes to. Where
    /// that takes nothing but the assumptions, its clause closes the state, too, with no line.
    fn exclude(
        &mut self,
        alloc: Global,
        place: usize,
        is_first: bool,
        branch: &mut Branch,
        batch: &mut Batch,
    ) -> Result<Excluding, AllocError> {
        let clause = match self.against(alloc, branch, batch)? {
            Against::Clause(clause) => clause,
            Against::Closed(clause) => return Ok(Excluding::Closed(clause)),
            Against::Nothing => return Ok(Excluding::Gap(place)),
        };
        branch.clause = Some(clause);
        match self.engine.apply(alloc, clause)? {
            Some(_) if is_first && !self.engine.is_short(clause) => Ok(Excluding::Closed(clause)),
            Some(conflict) => Ok(Excluding::Conflict(conflict)),
            None => Ok(Excluding::Going),
        }
    }

    /// Propagates with the clause of the state below the literal, and answers the end that this
    /// comes to. Where that takes nothing but the assumptions, that clause closes the state, too,
    /// with no line.
    fn propagate_below(
        &mut self,
        alloc: Global,
        is_first: bool,
        branch: &Branch,
    ) -> Result<Excluding, AllocError> {
        let Some(clause) = self.clause_below(branch) else {
            return Ok(Excluding::Going);
        };
        match self.engine.apply(alloc, clause)? {
            Some(_) if is_first && !self.engine.is_short(clause) => Ok(Excluding::Closed(clause)),
            Some(conflict) => Ok(Excluding::Conflict(conflict)),
            None => Ok(Excluding::Going),
        }
    }

    /// Makes a literal false: by the clause of the state below it, or else by a line of its own.
    fn take_branch(
        &mut self,
        alloc: Global,
        place: usize,
        assumed: usize,
        branch: &mut Branch,
        batch: &mut Batch,
    ) -> Result<Excluding, AllocError> {
        if self.engine.known.trail().is_false(branch.literal) {
            return Ok(Excluding::Going);
        }
        let is_first = self.engine.known.len() == assumed;
        match self.propagate_below(alloc, is_first, branch)? {
            Excluding::Going if self.engine.known.trail().is_unset(branch.literal) => {
                let is_first = self.engine.known.len() == assumed;
                self.exclude(alloc, place, is_first, branch, batch)
            }
            end => Ok(end),
        }
    }

    /// Makes the literals false, one after the other, to an end.
    fn take_branches(
        &mut self,
        alloc: Global,
        branches: &mut [Branch],
        batch: &mut Batch,
    ) -> Result<Excluding, AllocError> {
        let assumed = self.engine.known.len();
        for (place, branch) in branches.iter_mut().enumerate() {
            match self.take_branch(alloc, place, assumed, branch, batch)? {
                Excluding::Going => {}
                end => return Ok(end),
            }
        }
        Ok(Excluding::Going)
    }

    /// Closes the state, below whose literals all states are closed.
    pub(crate) fn finish(
        &mut self,
        alloc: Global,
        branching: Branching,
        batch: &mut Batch,
    ) -> Result<(), AllocError> {
        let Branching {
            key,
            assumptions,
            mut branches,
        } = branching;
        if !self.stand_on(alloc, &assumptions)? {
            return Ok(());
        }
        match self.take_branches(alloc, branches.as_mut_slice(), batch)? {
            Excluding::Going => self.push(Task::Learn(assumptions, Purpose::State(key))),
            Excluding::Closed(clause) => self.close(alloc, key, clause),
            Excluding::Conflict(clause) => self.close_by(alloc, key, assumptions, clause, batch),
            Excluding::Gap(place) => {
                let mut literals = assumptions.as_slice().to_vec(alloc)?;
                if let Some(branch) = branches.get(place) {
                    literals.push(branch.literal)?;
                }
                self.push(Task::Finish(Branching {
                    key,
                    assumptions,
                    branches,
                }))?;
                self.push(Task::Learn(literals, Purpose::Literal(place)))
            }
        }
    }

    /// Writes the line of a state under which this clause is false.
    fn close_by(
        &mut self,
        alloc: Global,
        key: Key,
        assumptions: Vec<LitIndex>,
        falsified: ClauseRef,
        batch: &mut Batch,
    ) -> Result<(), AllocError> {
        let conflict = Conflict::Clause(falsified);
        let Some(written) = self.engine.write(alloc, conflict, batch)? else {
            return self.push(Task::Learn(assumptions, Purpose::State(key)));
        };
        self.engine.watch_later(&written)?;
        self.close(alloc, key, written.clause)
    }
}
