//! What values rest on, and lines of one literal for variables that have theirs at level 0.

use crate::literal::LitIndex;
use crate::marks::Marks;
use crate::propagator::Propagator;
use crate::reference::{ClauseRef, Origin};
use refutations::Batch;
use std::alloc::{AllocError, Global};

impl Propagator {
    /// Marks the variables of the clause.
    pub fn mark_all(&self, marks: &mut Marks, clause: ClauseRef) -> Result<(), AllocError> {
        for literal in self.literals(clause) {
            let variable = literal.variable();
            if !marks.has(variable) {
                marks.mark(variable)?;
            }
        }
        Ok(())
    }

    fn mark_places(&self, marks: &mut Marks, places: &[usize]) -> Result<(), AllocError> {
        for place in places {
            marks.mark(self.literal(*place).variable())?;
        }
        Ok(())
    }

    /// Adds the places of the variables of a reason that aren't marked, and marks them.
    fn add_reason(
        &self,
        marks: &mut Marks,
        places: &mut Vec<usize>,
        clause: ClauseRef,
    ) -> Result<(), AllocError> {
        for literal in self.literals(clause) {
            let variable = literal.variable();
            if !marks.has(variable) {
                marks.mark(variable)?;
                places.push(self.place_of(variable))?;
            }
        }
        Ok(())
    }

    /// These places of level 0 and those of all that stand on the way to them, rising.
    fn with_reasons(
        &self,
        alloc: Global,
        marks: &mut Marks,
        roots: &[usize],
    ) -> Result<Vec<usize>, AllocError> {
        let mut places = roots.to_vec(alloc)?;
        self.mark_places(marks, roots)?;
        for turn in 0..self.most() {
            let Some(place) = places.get(turn) else {
                break;
            };
            let clause = self.reason_at(*place);
            self.add_reason(marks, &mut places, clause)?;
        }
        marks.clear();
        places.sort_unstable();
        Ok(places)
    }

    /// The origins of the reasons of the other variables of this reason, and then its own.
    fn unit_origins(
        &self,
        alloc: Global,
        clause: ClauseRef,
        literal: LitIndex,
    ) -> Result<Vec<Origin>, AllocError> {
        let literals = self.literals(clause);
        let mut origins = Vec::with_capacity(alloc, literals.len())?;
        for other in literals {
            if *other != literal {
                origins.push(self.origin(self.reason_of(other.variable())))?;
            }
        }
        origins.push(self.origin(clause))?;
        Ok(origins)
    }

    /// The origins of the reasons of what stands at these places of the trail, and behind them that
    /// of this clause, where there is one.
    pub fn origins(
        &self,
        alloc: Global,
        places: &[usize],
        last: Option<ClauseRef>,
    ) -> Result<Vec<Origin>, AllocError> {
        let mut origins = Vec::with_capacity(alloc, places.len() + 1)?;
        for place in places {
            origins.push(self.origin(self.reason_at(*place)))?;
        }
        if let Some(clause) = last {
            origins.push(self.origin(clause))?;
        }
        Ok(origins)
    }

    /// Derives the literal at this place of level 0 as a clause of its own, where it isn't one yet.
    /// The other variables of its reason have theirs.
    fn derive_unit(
        &mut self,
        alloc: Global,
        place: usize,
        batch: &mut Batch,
    ) -> Result<(), AllocError> {
        let literal = self.literal(place);
        let clause = self.reason_at(place);
        if self.literals(clause).len() <= 1 {
            return Ok(());
        }
        let origins = self.unit_origins(alloc, clause, literal)?;
        let unit = [literal];
        let Some(unit) = self.add_line(alloc, &unit, &unit, &origins, 1, batch)? else {
            return Ok(());
        };
        self.trail.set_reason(literal.variable(), unit);
        Ok(())
    }

    /// Derives the literals at these places of level 0, and all that they rest on, as clauses of
    /// their own. No variable is marked before and after.
    pub fn derive_units(
        &mut self,
        alloc: Global,
        marks: &mut Marks,
        roots: &[usize],
        batch: &mut Batch,
    ) -> Result<(), AllocError> {
        let places = self.with_reasons(alloc, marks, roots)?;
        for place in &places {
            self.derive_unit(alloc, *place, batch)?;
        }
        Ok(())
    }
}
