//! The solver.

ghost use Rattle.std.specs.Prelude.{◌≡◌, IfOk};
ghost use Rattle.std.specs.List.{list_any};
ghost use Rattle.clauses.specs.Clauses.{is_within};
ghost use Rattle.cdcl.specs.Answers.{are_opposite_in_order, has_both, is_foreign, Searched, Imported, Started};

use crate::engine::Engine;
use crate::search::{Counted, Ending};
use clauses::{Assignment, Clause, Formula, Lit};
use propagation::no_lines;
use refutations::{Batch, Hint};
use std::alloc::{AllocError, Global};
use std::marker::Model;
use thiserror::Error;

/// Why nothing was imported or found.
#[derive(Clone, Copy, Debug, PartialEq, Eq, Error)]
pub enum SolveFault {
    /// Memory ran out. The solver is spent.
    #[error("memory")]
    Memory,
    /// Memory ran out before. The solver is unchanged.
    #[error("spent")]
    Spent,
    /// A variable isn't one of the formula's, or the cube holds a variable with both signs. The
    /// solver is unchanged.
    #[error("foreign")]
    Foreign,
}

/// What a search found, and the lines that it learnt on the way.
#[derive(Drop)]
pub enum Found {
    /// Nothing satisfies the formula and the cube, as this clause says after these lines: each of
    /// its literals is the negation of one of the cube.
    Closed(Batch, Hint),
    /// This assignment satisfies the formula and the cube.
    Model(Assignment),
    /// As many conflicts as the budget were counted, and these lines were learnt.
    Budget(Batch),
}

/// A search over one formula that keeps what it learnt for the next search.
#[derive(Drop)]
pub struct Solver<'f> {
    formula: &'f Formula,
    engine: Engine,
    is_spent: bool,
    counted: u64,
}

impl<'f> Model for Solver<'f> {
    ghost use Rattle.cdcl.specs.States.{SolverState};

    ghost Value = { SolverState };

    ghost view = { λ s. record { formula = s.formula.now; spent = s.is_spent; conflicts = s.counted; learnt = s.engine } };
}

/// Whether the second is the negation of the first, which is positive.
fn are_opposite(one: &Lit, other: &Lit) -> bool
    ensures { result ≡ are_opposite_in_order one.now other.now }
{
    one.is_positive() && !other.is_positive() && one.variable() == other.variable()
}

/// Whether some literal of the cube is the negation of this one, which is positive.
fn has_negation(cube: &[Lit], literal: &Lit) -> bool
    ensures { result ≡ list_any (are_opposite_in_order literal.now) cube.now }
{
    cube.iter().any(|other| are_opposite(literal, other))
}

/// Whether the cube holds a variable with both signs.
fn has_both(cube: &[Lit]) -> bool
    ensures { result ≡ has_both cube.now }
{
    cube.iter().any(|literal| has_negation(cube, literal))
}

fn is_within(variables: u32, literals: &[Lit]) -> bool
    ensures { result ≡ is_within variables literals.now }
{
    literals
        .iter()
        .all(|literal| literal.variable() <= variables)
}

/// Whether the cube can't be searched over this many variables.
fn is_foreign(variables: u32, cube: &[Lit]) -> bool
    ensures { result ≡ is_foreign variables cube.now }
{
    !is_within(variables, cube) || has_both(cube)
}

impl<'f> Solver<'f> {
    /// A solver of this formula. The variables of the numbers `probed` are probed at the start of
    /// the first search, in this order and again from the first on, until 512 in a row, or all,
    /// were probed in vain: each that can't be true alone gets its value without a decision.
    /// Numbers that are no variable of the formula are left out. Clauses from number 2^31 on are
    /// left out, too, since no line could name them, and so are clauses past 2^32 words of all
    /// clauses, of which each takes three more than it has literals.
    pub fn new(
        alloc: Global,
        formula: &'f Formula,
        probed: &[u32],
    ) -> Result<Solver<'f>, AllocError>
        ensures { IfOk result (Started formula.now) }
    {
        let engine = Engine::new(alloc, formula, probed)?;
        Ok(Solver {
            formula,
            engine,
            is_spent: false,
            counted: 0,
        })
    }

    /// Takes in a clause that was derived from the formula, under this number. Where clauses come
    /// back as they stand in the last batch, in its order, their lines get these numbers; a line
    /// that didn't come back before the next search is forgotten. A clause whose number is 0 or
    /// from 2^31 on is left out, since no line could name it.
    ///
    /// Refused with [`SolveFault::Spent`] exactly where memory ran out before, and else with
    /// [`SolveFault::Foreign`] exactly where the clause has a variable that isn't one of the
    /// formula's.
    pub fn import(&mut self, alloc: Global, number: u32, clause: &Clause) -> Result<(), SolveFault>
        ensures { Imported self.old self.new clause.now result }
    {
        if self.is_spent {
            return Err(SolveFault::Spent);
        }
        if !is_within(self.formula.variables(), clause.literals()) {
            return Err(SolveFault::Foreign);
        }
        match self.engine.import(alloc, number, clause) {
            Ok(()) => Ok(()),
            Err(_) => {
                self.is_spent = true;
                Err(SolveFault::Memory)
            }
        }
    }

    /// Searches for an assignment that satisfies the formula and the cube, which is a list of
    /// literals in any order, until one is found, or none is left, or as many conflicts as the
    /// budget were counted. A conflict is a clause with all literals false that propagation met, in
    /// probing too; a model that fails its test, or a line for which no number is left, would count
    /// as one. With budget 0 it answers at once, with no line, and what was learnt stays as it is.
    /// A batch has less than 2^31 lines: a search that needs more goes on to its budget without
    /// them. Whether the cube is foreign takes time by the square of its length.
    ///
    /// Refused with [`SolveFault::Spent`] exactly where memory ran out before, and else with
    /// [`SolveFault::Foreign`] exactly where the cube has a variable that isn't one of the
    /// formula's, or one with both signs.
    pub fn search(&mut self, alloc: Global, cube: &[Lit], budget: u64) -> Result<Found, SolveFault>
        ensures { Searched self.old self.new cube.now budget result }
    {
        if self.is_spent {
            return Err(SolveFault::Spent);
        }
        if is_foreign(self.formula.variables(), cube) {
            return Err(SolveFault::Foreign);
        }
        self.counted = 0;
        let mut batch = no_lines(alloc);
        if budget == 0 {
            return Ok(Found::Budget(batch));
        }
        let Counted { ending, conflicts } = self
            .engine
            .run(alloc, self.formula, cube, budget, &mut batch);
        self.counted = conflicts;
        match ending {
            Ending::Closed(last) => Ok(Found::Closed(batch, last)),
            Ending::Budget => Ok(Found::Budget(batch)),
            Ending::Model(assignment) => Ok(Found::Model(assignment)),
            Ending::Memory => {
                self.is_spent = true;
                Err(SolveFault::Memory)
            }
        }
    }

    /// How often the variable of this number took part in conflicts, later ones counting more. None
    /// for a number that is no variable, and where the first so many literals of the last search's
    /// cube gave the variable a value, as far as was known when the search ended. Nothing is
    /// promised of the answer: it helps to find a variable that a cube is worth splitting on.
    pub fn weight(&self, variable: u32, literals: usize) -> Option<u64> {
        self.engine.weight(variable, literals)
    }

    /// How many conflicts were counted in the last search that was neither refused as foreign nor
    /// as spent; 0 before the first.
    pub fn conflicts(&self) -> u64
        ensures { result ≡ self.now.conflicts }
    {
        self.counted
    }
}
