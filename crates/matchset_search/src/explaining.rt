//! Why a conflict can't be, as a line.

use crate::engine::{Conflict, Engine, Written};
use propagation::{ClauseRef, LitIndex, Marks, Propagator};
use refutations::Batch;
use std::alloc::{AllocError, Global};

/// For how many places there is room at first.
const FIRST_PLACES: usize = 64;

/// The negations of what a conflict rests on, with the places of what stands on the way, rising;
/// `roots` are those of them at level 0, where the way ends.
#[derive(Drop)]
struct Explained {
    literals: Vec<LitIndex>,
    places: Vec<usize>,
    roots: Vec<usize>,
}

/// Something true from which a conflict follows, and the decision from which it follows by clauses
/// of two literals alone.
#[derive(Clone, Copy, PartialEq, Eq, PartialOrd, Ord)]
struct Cause {
    decision: usize,
    place: usize,
}

/// A way from a conflict back to its causes, as far as it is known.
#[derive(Drop)]
struct Way {
    causes: Vec<Cause>,
    places: Vec<usize>,
    roots: Vec<usize>,
}

/// What a conflict follows from, by the clauses that gave values.
#[derive(Clone, Copy)]
struct Values<'v> {
    known: &'v Propagator,
}

impl Values<'_> {
    /// The variable from whose value alone this one's follows, by a clause of two literals; none
    /// where that one has its value at level 0.
    fn single_cause(&self, variable: usize) -> Option<usize> {
        let &[one, other] = self.known.literals(self.known.reason_of(variable)) else {
            return None;
        };
        let cause = if one.variable() == variable {
            other.variable()
        } else {
            one.variable()
        };
        if self.known.level_of(cause) == 0 {
            return None;
        }
        Some(cause)
    }

    /// The place of the decision from which the variable's value follows by such clauses alone.
    fn decision_of(&self, variable: usize) -> Option<usize> {
        let mut cause = variable;
        for _ in 0..self.known.len() {
            if self.known.reason_of(cause).is_none() {
                return Some(self.known.place_of(cause));
            }
            cause = self.single_cause(cause)?;
        }
        None
    }

    /// Follows the reason of the value at this place, or takes it for a cause, where it follows
    /// from one decision alone and isn't that of `falsified`.
    fn follow(
        &self,
        marks: &mut Marks,
        way: &mut Way,
        place: usize,
        falsified: Option<usize>,
    ) -> Result<(), AllocError> {
        let variable = self.known.literal(place).variable();
        if falsified != Some(variable)
            && let Some(decision) = self.decision_of(variable)
        {
            way.causes.push(Cause { decision, place })?;
            return Ok(());
        }
        way.places.push(place)?;
        if self.known.level_of(variable) == 0 {
            way.roots.push(place)?;
            return Ok(());
        }
        self.known.mark_all(marks, self.known.reason_of(variable))
    }

    /// Follows the reasons of the marked variables downwards, to what follows from one decision
    /// alone, and to level 0.
    fn trace(
        &self,
        alloc: Global,
        marks: &mut Marks,
        falsified: Option<usize>,
    ) -> Result<Way, AllocError> {
        let mut way = Way {
            causes: Vec::with_capacity(alloc, FIRST_PLACES)?,
            places: Vec::with_capacity(alloc, FIRST_PLACES)?,
            roots: Vec::new(alloc),
        };
        for place in (0..self.known.len()).rev() {
            if marks.has(self.known.literal(place).variable()) {
                self.follow(marks, &mut way, place, falsified)?;
            }
        }
        marks.clear();
        Ok(way)
    }

    /// Puts the cause of this one in, unless it is there.
    fn go_back(&self, causes: &mut Vec<Cause>, cause: Cause) -> Result<(), AllocError> {
        let variable = self.known.literal(cause.place).variable();
        let Some(single) = self.single_cause(variable) else {
            return Ok(());
        };
        let before = Cause {
            decision: cause.decision,
            place: self.known.place_of(single),
        };
        if let Err(at) = causes.binary_search(&before) {
            causes.insert(at, before)?;
        }
        Ok(())
    }

    /// Goes back, of the causes that follow from the same decision, to the last one from which all
    /// of them do.
    fn narrowed(&self, alloc: Global, way: Way) -> Result<Explained, AllocError> {
        let Way {
            mut causes,
            mut places,
            roots,
        } = way;
        let mut literals = Vec::with_capacity(alloc, causes.len() + 1)?;
        causes.sort_unstable();
        for _ in 0..self.known.len() {
            let Some(cause) = causes.pop() else {
                break;
            };
            match causes.last().copied() {
                Some(other) if other.decision == cause.decision => {
                    places.push(cause.place)?;
                    self.go_back(&mut causes, cause)?;
                }
                _ => literals.push(self.known.literal(cause.place).negated())?,
            }
        }
        places.sort_unstable();
        Ok(Explained {
            literals,
            places,
            roots,
        })
    }

    fn explain_clause(
        &self,
        alloc: Global,
        marks: &mut Marks,
        clause: ClauseRef,
    ) -> Result<Explained, AllocError> {
        self.known.mark_all(marks, clause)?;
        let way = self.trace(alloc, marks, None)?;
        self.narrowed(alloc, way)
    }

    fn explain_falsified(
        &self,
        alloc: Global,
        marks: &mut Marks,
        falsified: LitIndex,
    ) -> Result<Explained, AllocError> {
        let variable = falsified.variable();
        marks.mark(variable)?;
        let way = self.trace(alloc, marks, Some(variable))?;
        let mut explained = self.narrowed(alloc, way)?;
        explained.literals.push(falsified.negated())?;
        Ok(explained)
    }
}

/// The clause that is named alone: the one that is false, or the reason against the assumption.
fn named_alone(known: &Propagator, conflict: Conflict, places: &[usize]) -> Option<ClauseRef> {
    match conflict {
        Conflict::Clause(clause) if places.is_empty() => Some(clause),
        Conflict::Falsified(_) if places.len() == 1 => Some(known.reason_at(places[0])),
        _ => None,
    }
}

impl Engine {
    fn explain(&mut self, alloc: Global, conflict: Conflict) -> Result<Explained, AllocError> {
        let values = Values { known: &self.known };
        match conflict {
            Conflict::Clause(clause) => values.explain_clause(alloc, &mut self.marks, clause),
            Conflict::Falsified(literal) => {
                values.explain_falsified(alloc, &mut self.marks, literal)
            },
        }
    }

    /// The clause by which there is no such conflict: the one that is named alone, or one more
    /// line. Of each decision that the conflict rests on it has the last of its consequences from
    /// which the conflict follows as well, by clauses of two literals: that holds in more states.
    /// None where no number is left for it.
    pub(crate) fn write(
        &mut self,
        alloc: Global,
        conflict: Conflict,
        batch: &mut Batch,
    ) -> Result<Option<Written>, AllocError> {
        let Explained {
            literals,
            places,
            roots,
        } = self.explain(alloc, conflict)?;
        self.known
            .derive_units(alloc, &mut self.marks, &roots, batch)?;
        if let Some(clause) = named_alone(&self.known, conflict, &places) {
            let is_new = false;
            return Ok(Some(Written {
                clause,
                literals,
                is_new,
            }));
        }
        let last = match conflict {
            Conflict::Clause(clause) => Some(clause),
            Conflict::Falsified(_) => None,
        };
        let origins = self.known.origins(alloc, &places, last)?;
        let Some(clause) = self.add_line(alloc, &literals, &origins, batch)? else {
            return Ok(None);
        };
        let is_new = true;
        Ok(Some(Written {
            clause,
            literals,
            is_new,
        }))
    }
}
