//! The search itself: one task after the other.

ghost use Rattle.std.specs.Prelude.{◌≤◌, []};
ghost use Rattle.cdcl.specs.parts.Searches.{IfEnded, IsBudgetSpent, IsNotBudget, IsRight};

use crate::engine::Conflict;
use crate::explorer::Explorer;
use crate::learning::Learning;
use crate::models::checked;
use crate::tasks::{Purpose, Task};
use cdcl::{Counted, Ending, SearchStep};
use clauses::Formula;
use encode::Encoded;
use matchsets::MatchState;
use propagation::{ClauseRef, LitIndex, Origin};
use refutations::{Batch, Hint};
use std::alloc::{AllocError, Global};

/// How many steps there are for each line that may be written, and how many at first.
const STEPS: u64 = 16;

const FIRST_STEPS: u64 = 1_000;

/// The sum of both, or the most there may be.
fn sum_within(one: u64, other: u64, most: u64) -> u64
    ensures { result ≤ most }
{
    let sum = one.saturating_add(other);
    if sum < most { sum } else { most }
}

/// How many lines a batch has.
fn line_count(batch: &Batch) -> u64 {
    u64::try_from(batch.lines.len()).unwrap_or(u64::MAX)
}

/// How many steps a search with this budget has.
fn step_count(budget: u64) -> u64 {
    budget.saturating_mul(STEPS).saturating_add(FIRST_STEPS)
}

impl<'e> Explorer<'e> {
    /// Goes on behind a learnt clause.
    fn go_on_by(
        &mut self,
        alloc: Global,
        formula: &Formula,
        origin: Origin,
        purpose: Purpose,
    ) -> SearchStep
        ensures budget { IfEnded IsNotBudget result }
        ensures right { IfEnded (IsRight formula.now []) result }
    {
        if let Purpose::Formula = &purpose {
            return SearchStep::Ended(Ending::Closed(origin.hint()));
        }
        match self.use_clause(alloc, formula, origin, purpose) {
            Ok(()) => SearchStep::Going,
            Err(_) => SearchStep::Ended(Ending::Memory),
        }
    }

    /// Looks for a clause by learning.
    fn take_learn(
        &mut self,
        alloc: Global,
        formula: &'e Formula,
        literals: Vec<LitIndex>,
        purpose: Purpose,
        budget: u64,
        batch: &mut Batch,
    ) -> SearchStep
        ensures budget { IfEnded IsNotBudget result }
        ensures right { IfEnded (IsRight formula.now []) result }
    {
        match self.learn(alloc, formula, &literals, budget, batch) {
            Err(_) => SearchStep::Ended(Ending::Memory),
            Ok(Learning::Clause(origin)) => self.go_on_by(alloc, formula, origin, purpose),
            Ok(Learning::Model(assignment)) => match checked(formula, assignment) {
                Some(assignment) => SearchStep::Ended(Ending::Model(assignment)),
                None => SearchStep::Ended(Ending::Memory),
            },
            Ok(Learning::Budget) => match self.push(Task::Learn(literals, purpose)) {
                Ok(()) => SearchStep::Spent,
                Err(_) => SearchStep::Ended(Ending::Memory),
            },
        }
    }

    /// The empty clause, where a clause is false at level 0.
    fn close_root(
        &mut self,
        alloc: Global,
        conflict: ClauseRef,
        batch: &mut Batch,
    ) -> Result<Option<Hint>, AllocError> {
        self.engine.known.back(0);
        let conflict = Conflict::Clause(conflict);
        let Some(written) = self.engine.write(alloc, conflict, batch)? else {
            return Ok(None);
        };
        Ok(Some(self.engine.known.origin(written.clause).hint()))
    }

    /// Closes the search by a clause that is false at level 0.
    fn take_refuted(
        &mut self,
        alloc: Global,
        formula: &Formula,
        conflict: ClauseRef,
        batch: &mut Batch,
    ) -> SearchStep
        ensures budget { IfEnded IsNotBudget result }
        ensures right { IfEnded (IsRight formula.now []) result }
    {
        match self.close_root(alloc, conflict, batch) {
            Ok(Some(last)) => SearchStep::Ended(Ending::Closed(last)),
            Ok(None) => SearchStep::Spent,
            Err(_) => SearchStep::Ended(Ending::Memory),
        }
    }

    /// The clause by which the first state is closed, where it is empty under what holds at level
    /// 0.
    fn close_first(
        &mut self,
        alloc: Global,
        state: &MatchState,
        batch: &mut Batch,
    ) -> Result<Option<Hint>, AllocError> {
        let assumptions = state.assumptions(alloc, &self.shape)?;
        let key = state.key();
        if !self.stand_on(alloc, &assumptions)? {
            return Ok(None);
        }
        let Some(clause) = self.clause_of(key) else {
            return Ok(None);
        };
        if self.engine.known.level() > 0 {
            return Ok(None);
        }
        let Some(conflict) = self.engine.apply(alloc, clause)? else {
            return Ok(None);
        };
        self.close_root(alloc, conflict, batch)
    }

    /// Closes the search, or has the learner do so.
    fn take_end(
        &mut self,
        alloc: Global,
        formula: &Formula,
        state: &MatchState,
        batch: &mut Batch,
    ) -> SearchStep
        ensures budget { IfEnded IsNotBudget result }
        ensures right { IfEnded (IsRight formula.now []) result }
    {
        match self.close_first(alloc, state, batch) {
            Ok(Some(last)) => SearchStep::Ended(Ending::Closed(last)),
            Ok(None) => match self.push(Task::Learn(Vec::new(alloc), Purpose::Formula)) {
                Ok(()) => SearchStep::Going,
                Err(_) => SearchStep::Ended(Ending::Memory),
            },
            Err(_) => SearchStep::Ended(Ending::Memory),
        }
    }

    /// A task that neither learns nor ends the search.
    fn take_other(
        &mut self,
        alloc: Global,
        task: Option<Task>,
        batch: &mut Batch,
    ) -> Result<(), AllocError> {
        match task {
            Some(Task::Visit(state)) => self.visit(alloc, state, false, batch),
            Some(Task::VisitLast(state)) => self.visit(alloc, state, true, batch),
            Some(Task::Alias(key, other)) => self.alias(key, other),
            Some(Task::Finish(branching)) => self.finish(alloc, branching, batch),
            _ => self.start(alloc, batch),
        }
    }

    /// One task.
    fn take_task(
        &mut self,
        alloc: Global,
        formula: &'e Formula,
        budget: u64,
        batch: &mut Batch,
    ) -> SearchStep
        ensures budget { IfEnded IsNotBudget result }
        ensures right { IfEnded (IsRight formula.now []) result }
    {
        match self.tasks.pop() {
            Some(Task::Learn(literals, purpose)) => {
                self.take_learn(alloc, formula, literals, purpose, budget, batch)
            }
            Some(Task::End(state)) => self.take_end(alloc, formula, &state, batch),
            task => match self.take_other(alloc, task, batch) {
                Ok(()) => SearchStep::Going,
                Err(_) => SearchStep::Ended(Ending::Memory),
            },
        }
    }

    /// One step.
    fn step(
        &mut self,
        alloc: Global,
        formula: &'e Formula,
        budget: u64,
        batch: &mut Batch,
    ) -> SearchStep
        ensures budget { IfEnded IsNotBudget result }
        ensures right { IfEnded (IsRight formula.now []) result }
    {
        match self.engine.known.refuted() {
            Some(conflict) => self.take_refuted(alloc, formula, conflict, batch),
            None => self.take_task(alloc, formula, budget, batch),
        }
    }

    /// Takes steps until an end is met or so many lines and conflicts were counted.
    fn go_on_within(
        &mut self,
        alloc: Global,
        formula: &'e Formula,
        budget: u64,
        batch: &mut Batch,
    ) -> Counted
        ensures most { result.conflicts ≤ budget }
        ensures exact { IsBudgetSpent budget result.conflicts result.ending }
        ensures right { IsRight formula.now [] result.ending }
    {
        let mut counted = 0u64;
        for _ in 0..step_count(budget) {
            let before = line_count(batch);
            let left = budget.saturating_sub(counted);
            let step = self.step(alloc, formula, left, batch);
            let lines = line_count(batch).saturating_sub(before);
            counted = counted.saturating_add(lines);
            match step {
                SearchStep::Going if counted < budget => {}
                SearchStep::Ended(ending) => {
                    let conflicts = sum_within(counted, 0, budget);
                    return Counted { ending, conflicts };
                }
                SearchStep::Last(ending) => {
                    let conflicts = sum_within(counted, 1, budget);
                    return Counted { ending, conflicts };
                }
                _ => break,
            }
        }
        Counted {
            ending: Ending::Budget,
            conflicts: budget,
        }
    }

    /// Searches until an end is met or so many lines and conflicts were counted.
    pub(crate) fn run(
        &mut self,
        alloc: Global,
        encoded: &'e Encoded,
        budget: u64,
        batch: &mut Batch,
    ) -> Counted
        ensures most { result.conflicts ≤ budget }
        ensures exact { IsBudgetSpent budget result.conflicts result.ending }
        ensures right { IsRight encoded.now.formula [] result.ending }
    {
        self.portion.lines = usize::try_from(budget).unwrap_or(usize::MAX);
        match self.begin(alloc, encoded) {
            Ok(()) => self.go_on_within(alloc, encoded.formula(), budget, batch),
            Err(_) => Counted {
                ending: Ending::Memory,
                conflicts: 0,
            },
        }
    }
}
