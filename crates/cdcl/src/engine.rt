//! What the search knows, and how clauses come in.

use crate::analysis::Learnt;
use crate::order::Scores;
use crate::probing::most_in_vain;
use crate::stamps::Stamps;
use clauses::{Clause, Formula, Lit};
use propagation::{LitIndex, Marks, Origin, Propagator, Refuting, Truth, indices_of};
use std::alloc::{AllocError, Global};

/// All that the search knows.
#[derive(Drop)]
pub(crate) struct Engine {
    pub(crate) known: Propagator,
    pub(crate) marks: Marks,
    pub(crate) order: Scores,
    /// The lists of the clause that was learnt last, and which levels it has.
    pub(crate) scratch: Learnt,
    pub(crate) stamps: Stamps,
    /// How many clauses of more than one level there are beside the formula's, and how many are too
    /// many.
    pub(crate) learnt: usize,
    pub(crate) limit: usize,
    /// The literals to probe, which of them is probed next, and how many are still probed where
    /// none fails.
    pub(crate) probes: Vec<LitIndex>,
    pub(crate) probe_place: usize,
    pub(crate) probes_left: usize,
}

/// How many learnt clauses are kept at first.
const FIRST_LIMIT: usize = 8_000;

/// The positive literals of those of these variables that are among the first `variables`.
fn positive_literals(
    alloc: Global,
    variables: u32,
    numbers: &[u32],
) -> Result<Vec<LitIndex>, AllocError> {
    let mut literals = Vec::with_capacity(alloc, numbers.len())?;
    for number in numbers {
        if *number <= variables
            && let Some(literal) = Lit::make(*number, true)
        {
            literals.push(LitIndex::of(&literal))?;
        }
    }
    Ok(literals)
}

impl Engine {
    /// What is known of the formula's clauses. The variables of these numbers are probed.
    pub(crate) fn new(
        alloc: Global,
        formula: &Formula,
        probed: &[u32],
    ) -> Result<Engine, AllocError> {
        let variables = formula.variables();
        let probes = positive_literals(alloc, variables, probed)?;
        Ok(Engine {
            known: Propagator::new(alloc, formula, Refuting::Last)?,
            marks: Marks::new(alloc, variables)?,
            order: Scores::new(alloc, variables)?,
            scratch: Learnt::new(alloc),
            stamps: Stamps::new(alloc, variables)?,
            learnt: 0,
            limit: FIRST_LIMIT,
            probe_place: 0,
            probes_left: most_in_vain(probes.len()),
            probes,
        })
    }

    /// Takes in a clause that was derived, and its number. One whose number no hint can have is
    /// left out.
    pub(crate) fn import(
        &mut self,
        alloc: Global,
        number: u32,
        clause: &Clause,
    ) -> Result<(), AllocError> {
        let Some(origin) = Origin::of_number(number) else {
            return Ok(());
        };
        self.back(0);
        let literals = indices_of(alloc, clause.literals())?;
        if self.known.take_back(&literals, origin) {
            return Ok(());
        }
        let glue = u32::try_from(literals.len()).unwrap_or(u32::MAX);
        let added = self.known.take_in(&literals, origin, glue)?;
        if added.is_some() && glue > 1 {
            self.learnt = self.learnt.saturating_add(1);
        }
        Ok(())
    }

    /// The variables of the literals from this place of the trail on may be decided again.
    pub(crate) fn free_from(&mut self, length: usize) {
        for place in length..self.known.len() {
            self.order.insert(self.known.literal(place).number() / 2);
        }
    }

    /// Takes back all levels above this one. The variables that lose their value may be decided
    /// again.
    pub(crate) fn back(&mut self, level: usize) {
        if let Some(length) = self.known.length_at(level) {
            self.free_from(length);
            self.known.back(level);
        }
    }

    /// The cube's literals, each once.
    pub(crate) fn cube_literals(
        &mut self,
        alloc: Global,
        cube: &[Lit],
    ) -> Result<Vec<LitIndex>, AllocError> {
        let mut literals = Vec::new(alloc);
        for known in cube {
            let literal = LitIndex::of(known);
            if !self.marks.has(literal.variable()) {
                self.marks.mark(literal.variable())?;
                literals.push(literal)?;
            }
        }
        self.marks.clear();
        Ok(literals)
    }

    /// How often the variable of this number took part in conflicts, later ones counting more; none
    /// where it has a value at one of the first so many levels.
    pub(crate) fn weight(&self, variable: u32, levels: usize) -> Option<u64> {
        let place = variable.checked_sub(1)?;
        if self.known.value(LitIndex::positive(place)) != Truth::Open
            && self.known.level_of(place as usize) as usize <= levels
        {
            return None;
        }
        Some(self.order.activity(place))
    }
}
