//! Dropping clauses that were learnt.

use crate::literal::LitIndex;
use crate::propagator::Propagator;
use crate::reference::ClauseRef;
use crate::store::ClauseArena;
use std::alloc::{AllocError, Global};
use std::mem;

impl Propagator {
    /// The clauses that the formula doesn't have.
    pub fn learnt(&self, alloc: Global) -> Result<Vec<ClauseRef>, AllocError> {
        self.store.learnt(alloc)
    }

    /// In how many levels the clause's literals stood as it was learnt; 0 for one of the formula.
    pub fn glue(&self, clause: ClauseRef) -> u32 {
        self.store.glue(clause)
    }

    /// How soon the clause is dropped: those of more levels first, and of these the older ones.
    /// None where it is never.
    pub fn rank(&self, clause: ClauseRef) -> Option<u64> {
        self.store.rank(clause)
    }

    /// Whether the clause gave its first literal the value.
    pub fn is_reason(&self, clause: ClauseRef) -> bool {
        match self.literals(clause).first() {
            Some(literal) => {
                self.trail.is_true(*literal) && self.reason_of(literal.variable()) == clause
            }
            None => false,
        }
    }

    /// Whether a literal of the clause is true.
    pub fn is_settled(&self, clause: ClauseRef) -> bool {
        self.literals(clause)
            .iter()
            .any(|literal| self.trail.is_true(*literal))
    }

    /// Drops all clauses but the formula's and these, whose places rise, at level 0. Those that
    /// level 0 settles are no longer watched either.
    pub fn keep(&mut self, alloc: Global, clauses: &[ClauseRef]) -> Result<(), AllocError> {
        let moves = self.store.keep(alloc, clauses)?;
        self.watches.keep(&moves, &self.trail);
        self.trail.move_reasons(&moves);
        Ok(())
    }

    /// Those of these clauses that have a number: a line of the last batch that never came back has
    /// none.
    fn numbered(&self, alloc: Global, clauses: &[ClauseRef]) -> Result<Vec<ClauseRef>, AllocError> {
        let mut numbered = Vec::new(alloc);
        for clause in clauses {
            if self.origin(*clause).line().is_none() {
                numbered.push(*clause)?;
            }
        }
        Ok(numbered)
    }

    fn take_over(
        &mut self,
        alloc: Global,
        old: &ClauseArena,
        clauses: &[ClauseRef],
    ) -> Result<(), AllocError> {
        let mut literals: Vec<LitIndex> = Vec::new(alloc);
        for clause in clauses {
            literals.clear();
            literals.extend_from_slice(old.literals(*clause))?;
            self.take_in(&literals, old.origin(*clause), old.glue(*clause))?;
        }
        Ok(())
    }

    /// Drops lines that have no number. What they gave a value has none any more, so all begins
    /// anew, without any value.
    pub fn drop_lost(&mut self, alloc: Global) -> Result<(), AllocError> {
        let learnt = self.store.learnt(alloc)?;
        let learnt = self.numbered(alloc, &learnt)?;
        let all = self.store.all(alloc)?;
        let formula = all.partition_point(|clause| self.store.is_fixed(*clause));
        self.trail.reset();
        self.watches.clear();
        self.refuted = None;
        let old = mem::replace(&mut self.store, ClauseArena::new(alloc));
        self.take_over(alloc, &old, &all[..formula])?;
        self.store.fix();
        self.take_over(alloc, &old, &learnt)
    }
}
