//! What propagation knows, and how clauses come in.

use crate::others::SharedClosed;
use clauses::Formula;
use matchsets::mixed;
use propagation::{ClauseRef, LitIndex, Marks, Origin, Propagator, Refuting, indices_of};
use refutations::Batch;
use std::alloc::{AllocError, Global};
use std::mem;

/// The longest line that is watched.
pub(crate) const MOST_WATCHED: usize = 30;

/// Whoever has a search take in what others made imports all lines of others with so many literals
/// at most.
pub const SHORT: usize = 2;

/// The longest clause that a state which it closes shortens by a line of its own.
const MOST_SHORTENED: usize = 12;

/// With what each literal of a lemma is mixed, so that lemmas have other hashes than states.
const LEMMA: u64 = 0xD1B5_4A32_D192_ED03;

/// What can't be.
#[derive(Clone, Copy)]
pub(crate) enum Conflict {
    /// This clause is false.
    Clause(ClauseRef),
    /// This assumption is false.
    Falsified(LitIndex),
}

/// What the literals of a clause are.
#[derive(Clone, Copy)]
enum Standing {
    /// All are false.
    False,
    /// All but this one, which is open, are false.
    Unit(LitIndex),
    /// One is true, or several are open.
    Open,
}

/// A clause that says why a conflict can't be.
#[derive(Drop)]
pub(crate) struct Written {
    /// The clause.
    pub(crate) clause: ClauseRef,
    /// Its literals: of each decision the negation of one of its consequences.
    pub(crate) literals: Vec<LitIndex>,
    /// Whether it is a line of its own.
    pub(crate) is_new: bool,
}

/// All that propagation knows.
#[derive(Drop)]
pub(crate) struct Engine {
    pub(crate) known: Propagator,
    pub(crate) marks: Marks,
    /// The literal that stays true for the next pair, and the level at which it does.
    kept: Option<LitIndex>,
    kept_level: usize,
    /// Clauses that are watched from the next return to level 0 on.
    waiting: Vec<ClauseRef>,
}

/// The literals' negations.
fn negations(alloc: Global, literals: &[LitIndex]) -> Result<Vec<LitIndex>, AllocError> {
    let mut negations = Vec::with_capacity(alloc, literals.len())?;
    for literal in literals {
        negations.push(literal.negated())?;
    }
    Ok(negations)
}

/// What tells the lemma with these literals, in whatever order, from nearly all others.
fn lemma_of(literals: &[LitIndex]) -> u64 {
    let mut sum = 0u64;
    for literal in literals {
        sum = sum.wrapping_add(mixed(LEMMA, u64::from(literal.number())));
    }
    sum
}

impl Engine {
    /// What is known of the formula's clauses. Those whose numbers no hint can have are left out.
    pub(crate) fn new(alloc: Global, formula: &Formula) -> Result<Engine, AllocError> {
        Ok(Engine {
            known: Propagator::new(alloc, formula, Refuting::First)?,
            marks: Marks::new(alloc, formula.variables())?,
            kept: None,
            kept_level: 0,
            waiting: Vec::new(alloc),
        })
    }

    /// Begins a level, with this literal where it has no value yet, and propagates.
    pub(crate) fn decide(
        &mut self,
        alloc: Global,
        literal: LitIndex,
    ) -> Result<Option<ClauseRef>, AllocError> {
        self.known.decide(literal)?;
        self.known.propagate(alloc)
    }

    /// Makes the literal false, as the clause says, and propagates.
    pub(crate) fn exclude(
        &mut self,
        alloc: Global,
        literal: LitIndex,
        clause: ClauseRef,
    ) -> Result<Option<ClauseRef>, AllocError> {
        self.known.imply(literal.negated(), clause);
        self.known.propagate(alloc)
    }

    /// What the clause's literals are.
    fn standing(&self, clause: ClauseRef) -> Standing {
        let mut open = None;
        let trail = self.known.trail();
        for literal in self.known.literals(clause) {
            if trail.is_false(*literal) {
                continue;
            }
            if open.is_some() || trail.is_true(*literal) {
                return Standing::Open;
            }
            open = Some(*literal);
        }
        match open {
            Some(literal) => Standing::Unit(literal),
            None => Standing::False,
        }
    }

    /// Propagates with a clause that needn't be watched, too, and answers which clause is false
    /// then.
    pub(crate) fn apply(
        &mut self,
        alloc: Global,
        clause: ClauseRef,
    ) -> Result<Option<ClauseRef>, AllocError> {
        match self.standing(clause) {
            Standing::False => Ok(Some(clause)),
            Standing::Unit(literal) => self.exclude(alloc, literal.negated(), clause),
            Standing::Open => Ok(None),
        }
    }

    /// Has the clauses that wait for level 0 watched.
    fn attach_waiting(&mut self, alloc: Global) -> Result<(), AllocError> {
        let waiting = mem::replace(&mut self.waiting, Vec::new(alloc));
        for clause in &waiting {
            self.known.attach(*clause)?;
        }
        Ok(())
    }

    /// Goes back to level 0, where the clauses that wait for that are watched. Answers whether no
    /// clause is false there.
    pub(crate) fn to_root(&mut self, alloc: Global) -> Result<bool, AllocError> {
        self.known.back(0);
        self.kept = None;
        self.attach_waiting(alloc)?;
        let conflict = self.known.propagate(alloc)?;
        Ok(conflict.is_none())
    }

    /// Makes those of these literals true that have no value at level 0, and lets nothing follow.
    pub(crate) fn suppose(&mut self, literals: &[LitIndex]) -> Result<(), AllocError> {
        self.known.back(0);
        self.kept = None;
        self.known.decide_all(literals)
    }

    /// Makes the literal true.
    fn assume_one(
        &mut self,
        alloc: Global,
        literal: LitIndex,
    ) -> Result<Option<Conflict>, AllocError> {
        if self.known.trail().is_true(literal) {
            return Ok(None);
        }
        if self.known.trail().is_false(literal) {
            return Ok(Some(Conflict::Falsified(literal)));
        }
        match self.decide(alloc, literal)? {
            Some(clause) => Ok(Some(Conflict::Clause(clause))),
            None => Ok(None),
        }
    }

    /// Makes these literals true, each that isn't so at a level of its own.
    pub(crate) fn assume(
        &mut self,
        alloc: Global,
        literals: &[LitIndex],
    ) -> Result<Option<Conflict>, AllocError> {
        for literal in literals {
            let conflict = self.assume_one(alloc, *literal)?;
            if conflict.is_some() {
                return Ok(conflict);
            }
        }
        Ok(None)
    }

    /// Whether the literal is false at level 0.
    pub(crate) fn is_excluded(&self, literal: LitIndex) -> bool {
        self.known.trail().is_false(literal) && self.known.level_of(literal.variable()) == 0
    }

    /// Whether each literal of the clause is false.
    pub(crate) fn is_false(&self, clause: ClauseRef) -> bool {
        self.known.are_false(self.known.literals(clause))
    }

    /// Whether one of these literals got its value above this level.
    pub(crate) fn is_above(&self, level: usize, literals: &[LitIndex]) -> bool {
        literals.iter().any(|literal| self.known.level_of(literal.variable()) as usize > level)
    }

    /// One more line of these literals, in whatever order, and its clause; none where there is no
    /// number left for it.
    pub(crate) fn add_line(
        &mut self,
        alloc: Global,
        literals: &[LitIndex],
        origins: &[Origin],
        batch: &mut Batch,
    ) -> Result<Option<ClauseRef>, AllocError> {
        let mut rising = literals.to_vec(alloc)?;
        rising.sort_unstable();
        self.known
            .add_line(alloc, literals, &rising, origins, 0, batch)
    }

    /// Whether a line that lacks one of the clause's literals is worth its place, as short clauses
    /// let much follow.
    pub(crate) fn is_short(&self, clause: ClauseRef) -> bool {
        self.known.literals(clause).len() <= MOST_SHORTENED
    }

    /// Has the clause of a line watched from the next return to level 0 on, unless it is long.
    pub(crate) fn watch_later(&mut self, written: &Written) -> Result<(), AllocError> {
        if written.is_new && self.known.literals(written.clause).len() <= MOST_WATCHED {
            self.waiting.push(written.clause)?;
        }
        Ok(())
    }

    /// Writes the line of a lemma by this conflict, which is watched from the next return to level
    /// 0 on, and tells others of it.
    fn write_lemma(
        &mut self,
        alloc: Global,
        others: &mut SharedClosed,
        lemma: u64,
        conflict: Conflict,
        batch: &mut Batch,
    ) -> Result<(), AllocError> {
        if let Some(written) = self.write(alloc, conflict, batch)?
            && written.is_new
        {
            self.waiting.push(written.clause)?;
            others.tell(lemma, written.clause)?;
        }
        Ok(())
    }

    /// A line of these literals, which is watched, where propagation derives it; answers whether it
    /// does. Ends at level 0.
    pub(crate) fn make_lemma(
        &mut self,
        alloc: Global,
        others: &mut SharedClosed,
        literals: &[LitIndex],
        batch: &mut Batch,
    ) -> Result<bool, AllocError> {
        if !self.to_root(alloc)? {
            return Ok(true);
        }
        let lemma = lemma_of(literals);
        if self.takes_lemma(alloc, others, lemma)? {
            return Ok(true);
        }
        let negations = negations(alloc, literals)?;
        let conflict = self.assume(alloc, &negations)?;
        if let Some(conflict) = conflict {
            self.write_lemma(alloc, others, lemma, conflict, batch)?;
        }
        self.to_root(alloc)?;
        Ok(conflict.is_some())
    }

    /// Makes two literals true, of which the first one stays so until the next return to level 0,
    /// for the next pair.
    fn assume_pair(
        &mut self,
        alloc: Global,
        first: LitIndex,
        second: LitIndex,
    ) -> Result<Option<Conflict>, AllocError> {
        if self.kept != Some(first) {
            self.to_root(alloc)?;
            let conflict = self.assume_one(alloc, first)?;
            if conflict.is_some() {
                return Ok(conflict);
            }
            self.kept = Some(first);
            self.kept_level = self.known.level();
        }
        self.known.back(self.kept_level);
        self.assume_one(alloc, second)
    }

    /// A line that these two literals aren't both true, which is watched from the next return to
    /// level 0 on, where propagation derives it.
    pub(crate) fn make_pair(
        &mut self,
        alloc: Global,
        others: &mut SharedClosed,
        first: LitIndex,
        second: LitIndex,
        batch: &mut Batch,
    ) -> Result<(), AllocError> {
        let lemma = lemma_of(&[first.negated(), second.negated()]);
        if self.takes_lemma(alloc, others, lemma)? {
            return Ok(());
        }
        match self.assume_pair(alloc, first, second)? {
            Some(conflict) => self.write_lemma(alloc, others, lemma, conflict, batch),
            None => Ok(()),
        }
    }

    /// Takes in the line of others that has this lemma, which is watched from the next return to
    /// level 0 on, and answers whether there is one. A short one was imported.
    fn takes_lemma(
        &mut self,
        alloc: Global,
        others: &mut SharedClosed,
        lemma: u64,
    ) -> Result<bool, AllocError> {
        let Some((origin, clause)) = others.take_lemma(lemma) else {
            return Ok(false);
        };
        if clause.literals().len() <= SHORT {
            return Ok(true);
        }
        let literals = indices_of(alloc, clause.literals())?;
        if let Some(clause) = self.known.add(&literals, origin, 0)? {
            self.waiting.push(clause)?;
        }
        Ok(true)
    }
}
