//! Clauses in one list.

use crate::literal::{LitIndex, literal_at};
use crate::moves::Moves;
use crate::reference::{ClauseRef, Origin};
use crate::trail::{Trail, Truth};
use std::alloc::{AllocError, Global};

/// How many words stand before a clause's literals.
const HEAD: usize = 3;

/// A clause of so few levels is never dropped.
const BEST_GLUE: u32 = 2;

/// Clauses, each as its length, its origin, its glue and its literals, all in one list; what is no
/// literal is kept as the literal of that number. Where two literals are watched, they are the
/// first two. The first clauses may be made to stay for good.
#[derive(Drop)]
pub(crate) struct ClauseArena {
    words: Vec<LitIndex>,
    fixed: usize,
}

/// What becomes of a clause one of whose watched literals is false now.
#[derive(Clone, Copy)]
pub(crate) enum Watching {
    /// It is watched as before, by this literal among others.
    Kept(LitIndex),
    /// The first literal is watched in the other's place, beside the second.
    Moved(LitIndex, LitIndex),
    /// All its literals but this one are false.
    Unit(LitIndex),
    /// All its literals are false.
    Conflict,
}

/// Brings up to two literals that aren't false to the front, and answers how many there are.
fn bring_unset(literals: &mut [LitIndex], trail: &Trail) -> usize {
    let mut found = 0;
    for place in 0..literals.len() {
        if found < 2 && trail.value(literals[place]) != Truth::False {
            literals.swap(found, place);
            found += 1;
        }
    }
    found
}

fn watch_another(literals: &mut [LitIndex], falsified: LitIndex, trail: &Trail) -> Watching {
    if literals.len() < 2 {
        return Watching::Kept(falsified);
    }
    if literals[0] == falsified {
        literals.swap(0, 1);
    }
    let first = literals[0];
    let value = trail.value(first);
    if value == Truth::True {
        return Watching::Kept(first);
    }
    for place in 2..literals.len() {
        let other = literals[place];
        if trail.value(other) != Truth::False {
            literals[1] = other;
            literals[place] = falsified;
            return Watching::Moved(other, first);
        }
    }
    if value == Truth::False {
        return Watching::Conflict;
    }
    Watching::Unit(first)
}

/// The number at this place, 0 past the end.
fn number_at(words: &[LitIndex], place: usize) -> u32 {
    literal_at(words, place).number()
}

impl ClauseArena {
    /// No clause.
    pub(crate) fn new(alloc: Global) -> ClauseArena {
        ClauseArena {
            words: Vec::new(alloc),
            fixed: 0,
        }
    }

    /// All clauses so far stay for good.
    pub(crate) fn fix(&mut self) {
        self.fixed = self.words.len();
    }

    /// Whether the clause stays for good.
    pub(crate) fn is_fixed(&self, clause: ClauseRef) -> bool {
        clause.place() < self.fixed
    }

    /// The clauses that don't stay for good.
    pub(crate) fn learnt(&self, alloc: Global) -> Result<Vec<ClauseRef>, AllocError> {
        match ClauseRef::at(self.fixed) {
            Some(first) => self.from(alloc, first),
            None => Ok(Vec::new(alloc)),
        }
    }

    /// All clauses.
    pub(crate) fn all(&self, alloc: Global) -> Result<Vec<ClauseRef>, AllocError> {
        match ClauseRef::at(0) {
            Some(first) => self.from(alloc, first),
            None => Ok(Vec::new(alloc)),
        }
    }

    /// The clauses from this one on.
    fn from(&self, alloc: Global, first: ClauseRef) -> Result<Vec<ClauseRef>, AllocError> {
        let mut clauses = Vec::new(alloc);
        let mut clause = first;
        for _ in first.place()..self.words.len() {
            let Some(after) = self.after(clause) else {
                break;
            };
            clauses.push(clause)?;
            clause = after;
        }
        Ok(clauses)
    }

    /// The clause after this one, which may be none yet.
    fn after(&self, clause: ClauseRef) -> Option<ClauseRef> {
        let length = self.words.get(clause.place())?;
        ClauseRef::at(clause.place() + HEAD + length.number() as usize)
    }

    /// Drops all clauses but those that stay for good and these, whose places rise, and tells where
    /// each is then.
    pub(crate) fn keep(
        &mut self,
        alloc: Global,
        clauses: &[ClauseRef],
    ) -> Result<Moves, AllocError> {
        let old = self.words.split_off(self.fixed.min(self.words.len()))?;
        let mut moves = Moves::new(alloc, self.fixed, old.len())?;
        for clause in clauses {
            let start = clause.place().saturating_sub(self.fixed);
            let length = number_at(&old, start) as usize;
            if let Some(words) = old.as_slice().get(start..start + HEAD + length)
                && let Some(now) = ClauseRef::at(self.words.len())
            {
                self.words.extend_from_slice(words)?;
                moves.set(*clause, now);
            }
        }
        Ok(moves)
    }

    /// One more clause; none where there is no number left for its place.
    pub(crate) fn add(
        &mut self,
        literals: &[LitIndex],
        origin: Origin,
        glue: u32,
    ) -> Result<Option<ClauseRef>, AllocError> {
        let Some(clause) = ClauseRef::at(self.words.len()) else {
            return Ok(None);
        };
        let Ok(length) = u32::try_from(literals.len()) else {
            return Ok(None);
        };
        self.words.push(LitIndex::of_number(length))?;
        self.words.push(LitIndex::of_number(origin.packed()))?;
        self.words.push(LitIndex::of_number(glue))?;
        self.words.extend_from_slice(literals)?;
        Ok(Some(clause))
    }

    /// Where the clause comes from.
    pub(crate) fn origin(&self, clause: ClauseRef) -> Origin {
        Origin::of_packed(number_at(&self.words, clause.place() + 1))
    }

    /// From now on the clause comes from there.
    pub(crate) fn set_origin(&mut self, clause: ClauseRef, origin: Origin) {
        if let Some(entry) = self.words.get_mut(clause.place() + 1) {
            *entry = LitIndex::of_number(origin.packed());
        }
    }

    /// In how many levels the clause's literals stood as it was learnt; 0 for one of the formula.
    pub(crate) fn glue(&self, clause: ClauseRef) -> u32 {
        number_at(&self.words, clause.place() + 2)
    }

    /// How soon the clause is dropped: those of more levels first, and of these the older ones.
    pub(crate) fn rank(&self, clause: ClauseRef) -> Option<u64> {
        let glue = self.glue(clause);
        if glue <= BEST_GLUE {
            return None;
        }
        Some(u64::from(glue) * 4_294_967_296 + u64::from(clause.behind()))
    }

    /// The clause's literals.
    pub(crate) fn literals(&self, clause: ClauseRef) -> &[LitIndex] {
        let length = number_at(&self.words, clause.place()) as usize;
        let start = clause.place() + HEAD;
        match self.words.as_slice().get(start..start + length) {
            Some(literals) => literals,
            None => &[],
        }
    }

    /// Looks for a literal to watch in the place of the one that has become false.
    pub(crate) fn rewatch(
        &mut self,
        clause: ClauseRef,
        falsified: LitIndex,
        trail: &Trail,
    ) -> Watching {
        let length = number_at(&self.words, clause.place()) as usize;
        let start = clause.place() + HEAD;
        match self.words.as_mut_slice().get_mut(start..start + length) {
            Some(literals) => watch_another(literals, falsified, trail),
            None => Watching::Kept(falsified),
        }
    }

    /// Brings up to two of the clause's literals that aren't false to the front, and answers how
    /// many there are.
    pub(crate) fn bring_unset(&mut self, clause: ClauseRef, trail: &Trail) -> usize {
        let length = number_at(&self.words, clause.place()) as usize;
        let start = clause.place() + HEAD;
        match self.words.as_mut_slice().get_mut(start..start + length) {
            Some(literals) => bring_unset(literals, trail),
            None => 0,
        }
    }
}
