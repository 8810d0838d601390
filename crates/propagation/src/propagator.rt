//! Clauses, and what follows from them.

ghost use Rattle.std.specs.Prelude.{◌≤◌};

use crate::lines::Lines;
use crate::literal::{LitIndex, fill};
use crate::reference::{ClauseRef, Origin};
use crate::store::ClauseArena;
use crate::trail::{Trail, Truth};
use crate::visiting::propagate;
use crate::watches::Watches;
use clauses::Formula;
use std::alloc::{AllocError, Global};

/// Which of several clauses that are false at level 0 is told.
#[derive(Clone, Copy, PartialEq, Eq)]
pub enum Refuting {
    /// The first one.
    First,
    /// The last one.
    Last,
}

/// Clauses, the values that follow from decisions by them, and the lines of a batch, which come
/// back with their numbers.
#[derive(Drop)]
pub struct Propagator {
    pub(crate) store: ClauseArena,
    pub(crate) trail: Trail,
    pub(crate) watches: Watches,
    /// A clause that is false at level 0.
    pub(crate) refuted: Option<ClauseRef>,
    refuting: Refuting,
    pub(crate) lines: Lines,
}

impl Propagator {
    /// What is known of no clause, over this many variables.
    fn empty(alloc: Global, variables: u32, refuting: Refuting) -> Result<Propagator, AllocError> {
        Ok(Propagator {
            store: ClauseArena::new(alloc),
            trail: Trail::new(alloc, variables)?,
            watches: Watches::new(alloc, variables)?,
            refuted: None,
            refuting,
            lines: Lines::new(alloc),
        })
    }

    /// What is known of the formula's clauses, which stay for good. Those whose numbers no hint can
    /// have, from 2^31 on, are left out.
    pub fn new(
        alloc: Global,
        formula: &Formula,
        refuting: Refuting,
    ) -> Result<Propagator, AllocError> {
        let mut made = Propagator::empty(alloc, formula.variables(), refuting)?;
        let mut literals = Vec::new(alloc);
        for (number, clause) in (1..=u32::MAX).zip(formula.clauses()) {
            let Some(origin) = Origin::of_number(number) else {
                break;
            };
            fill(&mut literals, clause.literals())?;
            made.take_in(&literals, origin, 0)?;
        }
        made.store.fix();
        Ok(made)
    }

    /// Adds a clause, which isn't watched yet, with the number of levels that its literals stand
    /// in. None where there is no place left for it.
    pub fn add(
        &mut self,
        literals: &[LitIndex],
        origin: Origin,
        glue: u32,
    ) -> Result<Option<ClauseRef>, AllocError> {
        self.store.add(literals, origin, glue)
    }

    /// The same at level 0, where the clause is watched from then on.
    pub fn take_in(
        &mut self,
        literals: &[LitIndex],
        origin: Origin,
        glue: u32,
    ) -> Result<Option<ClauseRef>, AllocError> {
        let added = self.store.add(literals, origin, glue)?;
        if let Some(clause) = added {
            self.attach(clause)?;
        }
        Ok(added)
    }

    /// Has a clause watched, at level 0.
    pub fn attach(&mut self, clause: ClauseRef) -> Result<(), AllocError> {
        let unset = self.store.bring_unset(clause, &self.trail);
        let literals = self.store.literals(clause);
        self.watches.add_clause(literals, clause)?;
        if unset == 0 && (self.refuted.is_none() || self.refuting == Refuting::Last) {
            self.refuted = Some(clause);
        }
        if unset == 1
            && let Some(first) = literals.first()
            && self.trail.is_unset(*first)
        {
            self.trail.assign(*first, clause);
        }
        Ok(())
    }

    /// Has a clause watched all of whose literals but the first are false, the second one of them
    /// at the level that stands. The first becomes true.
    pub fn attach_learnt(&mut self, clause: ClauseRef) -> Result<(), AllocError> {
        let literals = self.store.literals(clause);
        self.watches.add_clause(literals, clause)?;
        if let Some(first) = literals.first() {
            self.trail.assign(*first, clause);
        }
        Ok(())
    }

    /// The clause's literals.
    pub fn literals(&self, clause: ClauseRef) -> &[LitIndex] {
        self.store.literals(clause)
    }

    /// Where the clause comes from.
    pub fn origin(&self, clause: ClauseRef) -> Origin {
        self.store.origin(clause)
    }

    /// The clause that is false at level 0, where one was met.
    pub fn refuted(&self) -> Option<ClauseRef> {
        self.refuted
    }

    /// Propagates until nothing follows any more. Where a clause is false, it is answered.
    pub fn propagate(&mut self, alloc: Global) -> Result<Option<ClauseRef>, AllocError> {
        if self.refuted.is_some() {
            return Ok(self.refuted);
        }
        let conflict = propagate(alloc, &mut self.store, &mut self.trail, &mut self.watches)?;
        if self.trail.level() == 0 {
            self.refuted = conflict;
        }
        Ok(conflict)
    }

    /// Begins a level, with this literal where it has no value yet.
    pub fn decide(&mut self, literal: LitIndex) -> Result<(), AllocError> {
        self.trail.open_level()?;
        self.imply(literal, ClauseRef::none());
        Ok(())
    }

    /// Begins a level, with those of these literals that have no value yet, and lets nothing
    /// follow.
    pub fn decide_all(&mut self, literals: &[LitIndex]) -> Result<(), AllocError> {
        self.trail.open_level()?;
        for literal in literals {
            self.imply(*literal, ClauseRef::none());
        }
        Ok(())
    }

    /// Makes the literal true by this clause, where it has no value yet.
    pub fn imply(&mut self, literal: LitIndex, clause: ClauseRef) {
        if self.trail.is_unset(literal) {
            self.trail.assign(literal, clause);
        }
    }

    /// Takes back all levels above this one. Of what stays, what wasn't propagated yet still is to
    /// be.
    pub fn back(&mut self, level: usize)
        ensures { self.new.trail.head ≤ self.old.trail.head }
    {
        self.trail.back(level);
    }

    /// How many literals stay true where all levels above this one are taken back. None where there
    /// is no level above it.
    pub fn length_at(&self, level: usize) -> Option<usize> {
        self.trail.length_at(level)
    }

    /// Whether values that come from now on count as the last ones of their variables.
    pub fn set_keeps_phases(&mut self, keeps_phases: bool) {
        self.trail.set_keeps_phases(keeps_phases);
    }

    /// The literal of this variable with the value that the variable had last.
    pub fn with_phase(&self, positive: LitIndex) -> LitIndex {
        self.trail.with_phase(positive)
    }

    /// The variables' values: false where there is none.
    pub fn values(&self, alloc: Global) -> Result<Vec<bool>, AllocError> {
        self.trail.values(alloc)
    }

    /// The literals that are true, in order.
    pub fn trail(&self) -> &Trail {
        &self.trail
    }

    /// The literal's value.
    pub fn value(&self, literal: LitIndex) -> Truth {
        self.trail.value(literal)
    }

    /// Whether each of these literals is false.
    pub fn are_false(&self, literals: &[LitIndex]) -> bool {
        literals.iter().all(|literal| self.trail.is_false(*literal))
    }

    /// The level at which the variable got its value.
    pub fn level_of(&self, variable: usize) -> u32 {
        self.trail.level_of(variable)
    }

    /// The clause that gave the variable its value; none for a decision.
    pub fn reason_of(&self, variable: usize) -> ClauseRef {
        self.trail.reason_of(variable)
    }

    /// The variable's place on the trail.
    pub fn place_of(&self, variable: usize) -> usize {
        self.trail.place_of(variable)
    }

    /// The literal at this place of the trail.
    pub fn literal(&self, place: usize) -> LitIndex {
        self.trail.literal(place)
    }

    /// The clause that gave the literal at this place of the trail its value.
    pub fn reason_at(&self, place: usize) -> ClauseRef {
        self.trail.reason_of(self.trail.literal(place).variable())
    }

    /// How many literals are true.
    pub fn len(&self) -> usize {
        self.trail.len()
    }

    /// How many literals can be true.
    pub fn most(&self) -> usize {
        self.trail.most()
    }

    /// How many decisions there are.
    pub fn level(&self) -> usize {
        self.trail.level()
    }
}
