//! The search itself.

ghost use Rattle.std.specs.Prelude.{◌≤◌};
ghost use Rattle.cdcl.specs.parts.Searches.{IfEnded, IsBudgetSpent, IsNotBudget, IsRight};

use crate::analysis::{Learnt, analyse, analyse_cube, analyse_root};
use crate::engine::Engine;
use crate::models::checked;
use clauses::{Assignment, Formula, Lit};
use propagation::{ClauseRef, LitIndex, Origin, Truth, add_line};
use refutations::{Batch, Hint};
use std::alloc::{AllocError, Global};
use std::mem;

/// Where propagation and decisions stop.
#[derive(Clone, Copy)]
enum Stop {
    /// This clause is false.
    Conflict(ClauseRef),
    /// This literal of the cube is false.
    Falsified(LitIndex),
    /// Each variable has a value.
    Complete,
}

/// How a search ends.
#[derive(Drop)]
pub enum Ending {
    /// Nothing satisfies the formula and the cube, by this clause.
    Closed(Hint),
    /// This assignment satisfies the formula and the cube.
    Model(Assignment),
    /// The budget is used up.
    Budget,
    /// Memory ran out.
    Memory,
}

/// What comes of one step of a search.
#[derive(Drop)]
pub enum SearchStep {
    /// The search goes on. A solver has counted a conflict then. What would end its search counts
    /// as one, too, where that can't be told: a line that no number is left for, or an assignment
    /// that isn't a model.
    Going,
    /// The search goes on, but all that was left of the budget is used up.
    Spent,
    /// A conflict ended the search, and counts.
    Last(Ending),
    /// The search ended otherwise.
    Ended(Ending),
}

/// How a search ended, and how many conflicts it counted, or lines and conflicts.
#[derive(Drop)]
pub struct Counted {
    /// How it ended.
    pub ending: Ending,
    /// How much was counted.
    pub conflicts: u64,
}

/// The clause that closes the cube: the one that is named alone, or one more line of these
/// literals, which are sorted for it.
fn close(
    alloc: Global,
    literals: &mut [LitIndex],
    origins: &[Origin],
    batch: &mut Batch,
) -> Result<Option<Hint>, AllocError> {
    if let [origin] = origins {
        return Ok(Some(origin.hint()));
    }
    literals.sort_unstable();
    let Some(origin) = add_line(alloc, batch, literals, origins)? else {
        return Ok(None);
    };
    Ok(Some(origin.hint()))
}

impl Engine {
    /// The literal to decide next.
    fn choose(&mut self) -> Option<LitIndex> {
        for _ in 0..=self.known.most() {
            let variable = self.order.take()?;
            let positive = LitIndex::positive(variable);
            if self.known.value(positive) == Truth::Open {
                return Some(self.known.with_phase(positive));
            }
        }
        None
    }

    /// Decides the cube's next literal, or one of a variable without value.
    fn decide_next(&mut self, cube: &[LitIndex]) -> Result<Option<Stop>, AllocError> {
        if let Some(literal) = cube.get(self.known.level()) {
            if self.known.value(*literal) == Truth::False {
                return Ok(Some(Stop::Falsified(*literal)));
            }
            self.known.decide(*literal)?;
            return Ok(None);
        }
        let Some(literal) = self.choose() else {
            return Ok(Some(Stop::Complete));
        };
        self.known.decide(literal)?;
        Ok(None)
    }

    /// Propagates and decides, below what is decided so far.
    fn descend(&mut self, alloc: Global, cube: &[LitIndex]) -> Result<Stop, AllocError> {
        let most = self.known.most().saturating_add(cube.len());
        for _ in 0..=most {
            if let Some(clause) = self.known.propagate(alloc)? {
                return Ok(Stop::Conflict(clause));
            }
            if let Some(stop) = self.decide_next(cube)? {
                return Ok(stop);
            }
        }
        Ok(Stop::Complete)
    }

    /// Propagates, probes what is left to probe, and decides until a stop.
    fn advance(&mut self, alloc: Global, cube: &[LitIndex]) -> Result<Stop, AllocError> {
        if let Some(clause) = self.known.propagate(alloc)? {
            return Ok(Stop::Conflict(clause));
        }
        if let Some(clause) = self.probe(alloc)? {
            return Ok(Stop::Conflict(clause));
        }
        self.descend(alloc, cube)
    }

    /// Has a learnt clause watched, and what follows from it at its level become true.
    fn take_learnt(&mut self, glue: u32, clause: ClauseRef) -> Result<(), AllocError> {
        if glue > 1 {
            self.learnt = self.learnt.saturating_add(1);
        }
        self.known.attach_learnt(clause)?;
        self.order.decay();
        Ok(())
    }

    /// Learns from the clause that is false, in these lists.
    fn learn_in(
        &mut self,
        alloc: Global,
        conflict: ClauseRef,
        batch: &mut Batch,
        learnt: &mut Learnt,
    ) -> Result<(), AllocError> {
        analyse(
            &self.known,
            &mut self.marks,
            &mut self.order,
            &mut self.stamps,
            learnt,
            conflict,
        )?;
        let roots = &learnt.resolved.roots;
        self.known
            .derive_units(alloc, &mut self.marks, roots, batch)?;
        let places = &learnt.resolved.places;
        let origins = self.known.origins(alloc, places, Some(conflict))?;
        let literals = learnt.literals.as_slice();
        let glue = learnt.glue;
        let line = self
            .known
            .add_line(alloc, literals, &learnt.rising, &origins, glue, batch)?;
        self.back(learnt.level);
        match line {
            Some(clause) => self.take_learnt(glue, clause),
            None => Ok(()),
        }
    }

    /// Learns from the clause that is false.
    fn learn(
        &mut self,
        alloc: Global,
        conflict: ClauseRef,
        batch: &mut Batch,
    ) -> Result<(), AllocError> {
        let mut learnt = mem::replace(&mut self.scratch, Learnt::new(alloc));
        let result = self.learn_in(alloc, conflict, batch, &mut learnt);
        self.scratch = learnt;
        result
    }

    fn close_root(
        &mut self,
        alloc: Global,
        conflict: ClauseRef,
        batch: &mut Batch,
    ) -> Result<Option<Hint>, AllocError> {
        let mut closing = analyse_root(alloc, &self.known, &mut self.marks, conflict)?;
        let places = &closing.places;
        let origins = self.known.origins(alloc, places, Some(conflict))?;
        close(alloc, closing.literals.as_mut_slice(), &origins, batch)
    }

    fn close_cube(
        &mut self,
        alloc: Global,
        falsified: LitIndex,
        batch: &mut Batch,
    ) -> Result<Option<Hint>, AllocError> {
        let mut closing = analyse_cube(alloc, &self.known, &mut self.marks, falsified)?;
        let roots = &closing.roots;
        self.known
            .derive_units(alloc, &mut self.marks, roots, batch)?;
        let origins = self.known.origins(alloc, &closing.places, None)?;
        close(alloc, closing.literals.as_mut_slice(), &origins, batch)
    }

    /// What a clause that is false brings: the end at level 0, and else a learnt clause.
    fn take_conflict(
        &mut self,
        alloc: Global,
        formula: &Formula,
        cube: &[Lit],
        conflict: ClauseRef,
        batch: &mut Batch,
    ) -> SearchStep
        ensures budget { IfEnded IsNotBudget result }
        ensures right { IfEnded (IsRight formula.now cube.now) result }
    {
        if self.known.level() == 0 {
            return match self.close_root(alloc, conflict, batch) {
                Ok(Some(last)) => SearchStep::Last(Ending::Closed(last)),
                Ok(None) => SearchStep::Going,
                Err(_) => SearchStep::Last(Ending::Memory),
            };
        }
        match self.learn(alloc, conflict, batch) {
            Ok(()) => SearchStep::Going,
            Err(_) => SearchStep::Last(Ending::Memory),
        }
    }

    /// The end by a false literal of the cube.
    fn take_falsified(
        &mut self,
        alloc: Global,
        formula: &Formula,
        cube: &[Lit],
        falsified: LitIndex,
        batch: &mut Batch,
    ) -> SearchStep
        ensures budget { IfEnded IsNotBudget result }
        ensures right { IfEnded (IsRight formula.now cube.now) result }
    {
        match self.close_cube(alloc, falsified, batch) {
            Ok(Some(last)) => SearchStep::Ended(Ending::Closed(last)),
            Ok(None) => SearchStep::Going,
            Err(_) => SearchStep::Ended(Ending::Memory),
        }
    }

    /// The end by a value for each variable.
    fn take_complete(&self, alloc: Global, formula: &Formula, cube: &[Lit]) -> SearchStep
        ensures budget { IfEnded IsNotBudget result }
        ensures right { IfEnded (IsRight formula.now cube.now) result }
    {
        let Ok(values) = self.known.values(alloc) else {
            return SearchStep::Ended(Ending::Memory);
        };
        match checked(formula, cube, values) {
            Some(assignment) => SearchStep::Ended(Ending::Model(assignment)),
            None => SearchStep::Going,
        }
    }

    /// Goes on to the next stop.
    fn go_on(
        &mut self,
        alloc: Global,
        formula: &Formula,
        cube: &[Lit],
        literals: &[LitIndex],
        batch: &mut Batch,
    ) -> SearchStep
        ensures budget { IfEnded IsNotBudget result }
        ensures right { IfEnded (IsRight formula.now cube.now) result }
    {
        match self.advance(alloc, literals) {
            Err(_) => SearchStep::Ended(Ending::Memory),
            Ok(Stop::Conflict(conflict)) => {
                self.take_conflict(alloc, formula, cube, conflict, batch)
            }
            Ok(Stop::Falsified(falsified)) => {
                self.take_falsified(alloc, formula, cube, falsified, batch)
            },
            Ok(Stop::Complete) => self.take_complete(alloc, formula, cube),
        }
    }

    /// The cube's literals, where the search can begin.
    fn begin_with(&mut self, alloc: Global, cube: &[Lit]) -> Result<Vec<LitIndex>, AllocError> {
        self.begin(alloc)?;
        self.cube_literals(alloc, cube)
    }

    /// Goes on until an end is met or as many conflicts as the budget were counted.
    fn go_on_within(
        &mut self,
        alloc: Global,
        formula: &Formula,
        cube: &[Lit],
        literals: &[LitIndex],
        budget: u64,
        batch: &mut Batch,
    ) -> Counted
        ensures most { result.conflicts ≤ budget }
        ensures exact { IsBudgetSpent budget result.conflicts result.ending }
        ensures right { IsRight formula.now cube.now result.ending }
    {
        for before in 0..budget {
            match self.go_on(alloc, formula, cube, literals, batch) {
                SearchStep::Going => {}
                SearchStep::Spent => break,
                SearchStep::Last(ending) => {
                    return Counted {
                        ending,
                        conflicts: before + 1,
                    };
                }
                SearchStep::Ended(ending) => {
                    return Counted {
                        ending,
                        conflicts: before,
                    };
                }
            }
        }
        Counted {
            ending: Ending::Budget,
            conflicts: budget,
        }
    }

    /// Searches from level 0 on until an end is met or as many conflicts as the budget were
    /// counted.
    pub(crate) fn run(
        &mut self,
        alloc: Global,
        formula: &Formula,
        cube: &[Lit],
        budget: u64,
        batch: &mut Batch,
    ) -> Counted
        ensures most { result.conflicts ≤ budget }
        ensures exact { IsBudgetSpent budget result.conflicts result.ending }
        ensures right { IsRight formula.now cube.now result.ending }
    {
        match self.begin_with(alloc, cube) {
            Ok(literals) => self.go_on_within(alloc, formula, cube, &literals, budget, batch),
            Err(_) => Counted {
                ending: Ending::Memory,
                conflicts: 0,
            },
        }
    }
}
