//! Values of variables, in the order in which they came.

ghost use Rattle.std.specs.Prelude.{◌≤◌};

use crate::literal::{LitIndex, literal_at};
use crate::moves::Moves;
use crate::reference::ClauseRef;
use std::alloc::{AllocError, Global};

/// The value of a literal.
#[derive(Clone, Copy, PartialEq, Eq)]
pub enum Truth {
    /// None yet.
    Open,
    /// True.
    True,
    /// False.
    False,
}

/// What is kept of a variable: the level at which it got its value, the clause that gave it, the
/// place on the trail, and the value that it had last.
#[derive(Clone, Copy)]
struct Note {
    level: u32,
    reason: ClauseRef,
    place: u32,
    phase: bool,
}

fn no_note() -> Note {
    Note {
        level: 0,
        reason: ClauseRef::none(),
        place: 0,
        phase: false,
    }
}

/// The literals that are true, in order, with their levels and reasons.
#[derive(Drop)]
pub struct Trail {
    values: Vec<Truth>,
    notes: Vec<Note>,
    literals: Vec<LitIndex>,
    top: usize,
    pub(crate) head: usize,
    limits: Vec<usize>,
    keeps_phases: bool,
    ghost propagated: { head ≤ top },
}

fn put(values: &mut [Truth], literal: LitIndex, value: Truth) {
    if let Some(entry) = values.get_mut(literal.place()) {
        *entry = value;
    }
}

impl Trail {
    /// The empty trail over this many variables.
    pub(crate) fn new(alloc: Global, variables: u32) -> Result<Trail, AllocError> {
        let count = variables as usize;
        Ok(Trail {
            values: vec![in alloc; Truth::Open; 2 * count]?,
            notes: vec![in alloc; no_note(); count]?,
            literals: vec![in alloc; LitIndex::first(); count]?,
            top: 0,
            head: 0,
            limits: Vec::new(alloc),
            keeps_phases: true,
        })
    }

    /// The literal's value.
    pub fn value(&self, literal: LitIndex) -> Truth {
        match self.values.get(literal.place()) {
            Some(value) => *value,
            None => Truth::True,
        }
    }

    /// Whether the literal is true.
    pub fn is_true(&self, literal: LitIndex) -> bool {
        self.value(literal) == Truth::True
    }

    /// Whether the literal is false.
    pub fn is_false(&self, literal: LitIndex) -> bool {
        self.value(literal) == Truth::False
    }

    /// Whether the literal has no value yet.
    pub fn is_unset(&self, literal: LitIndex) -> bool {
        self.value(literal) == Truth::Open
    }

    fn note(&self, variable: usize) -> Note {
        match self.notes.get(variable) {
            Some(note) => *note,
            None => no_note(),
        }
    }

    /// The level at which the variable got its value.
    pub fn level_of(&self, variable: usize) -> u32 {
        self.note(variable).level
    }

    /// The clause that gave the variable its value.
    pub(crate) fn reason_of(&self, variable: usize) -> ClauseRef {
        self.note(variable).reason
    }

    /// Whether the literal is true by a decision.
    pub fn is_decided(&self, literal: LitIndex) -> bool {
        let variable = literal.variable();
        self.is_true(literal) && self.level_of(variable) > 0 && self.reason_of(variable).is_none()
    }

    /// Puts another clause that gives the variable its value in the place of the one so far.
    pub(crate) fn set_reason(&mut self, variable: usize, reason: ClauseRef) {
        if let Some(note) = self.notes.get_mut(variable) {
            note.reason = reason;
        }
    }

    /// Follows the clauses that gave values to where they are now.
    pub(crate) fn move_reasons(&mut self, moves: &Moves) {
        for note in self.notes.iter_mut() {
            note.reason = moves.place(note.reason).unwrap_or(ClauseRef::none());
        }
    }

    /// The variable's place on the trail.
    pub(crate) fn place_of(&self, variable: usize) -> usize {
        self.note(variable).place as usize
    }

    /// The literal at this place.
    pub fn literal(&self, place: usize) -> LitIndex {
        literal_at(&self.literals, place)
    }

    /// How many literals are true.
    pub fn len(&self) -> usize {
        self.top
    }

    /// How many literals can be true.
    pub(crate) fn most(&self) -> usize {
        self.literals.len()
    }

    /// How many decisions there are.
    pub fn level(&self) -> usize {
        self.limits.len()
    }

    /// Begins a level.
    pub(crate) fn open_level(&mut self) -> Result<(), AllocError> {
        self.limits.push(self.top)?;
        Ok(())
    }

    /// Makes the literal true.
    pub(crate) fn assign(&mut self, literal: LitIndex, reason: ClauseRef) {
        if self.top >= self.literals.len() {
            return;
        }
        put(self.values.as_mut_slice(), literal, Truth::True);
        put(self.values.as_mut_slice(), literal.negated(), Truth::False);
        let level = u32::try_from(self.limits.len()).unwrap_or(u32::MAX);
        let place = u32::try_from(self.top).unwrap_or(u32::MAX);
        let keeps_phases = self.keeps_phases;
        if let Some(note) = self.notes.get_mut(literal.variable()) {
            note.level = level;
            note.reason = reason;
            note.place = place;
            if keeps_phases {
                note.phase = literal.is_positive();
            }
        }
        self.literals[self.top] = literal;
        self.top += 1;
    }

    /// Whether values that come from now on count as the last ones of their variables.
    pub(crate) fn set_keeps_phases(&mut self, keeps_phases: bool) {
        self.keeps_phases = keeps_phases;
    }

    /// The next literal that wasn't propagated yet.
    pub(crate) fn take_next(&mut self) -> Option<LitIndex> {
        if self.head >= self.top {
            return None;
        }
        let literal = literal_at(&self.literals, self.head);
        self.head += 1;
        Some(literal)
    }

    fn unassign(&mut self, literal: LitIndex) {
        put(self.values.as_mut_slice(), literal, Truth::Open);
        put(self.values.as_mut_slice(), literal.negated(), Truth::Open);
    }

    /// Takes back all from this place on. Of what stays, what wasn't propagated yet still is to be.
    fn shorten(&mut self, length: usize)
        ensures { self.new.head ≤ self.old.head }
    {
        let head = self.head.min(length);
        for place in length..self.top {
            let literal = literal_at(&self.literals, place);
            self.unassign(literal);
        }
        self.top = length;
        self.head = head;
    }

    /// How many literals were true when the level above this one began, which is how many stay
    /// where all above this one are taken back. None where there is no level above it.
    pub(crate) fn length_at(&self, level: usize) -> Option<usize> {
        self.limits.get(level).copied()
    }

    /// Takes back all levels above this one. Of what stays, what wasn't propagated yet still is to
    /// be.
    pub(crate) fn back(&mut self, level: usize)
        ensures { self.new.head ≤ self.old.head }
    {
        if let Some(length) = self.length_at(level) {
            self.limits.truncate(level);
            self.shorten(length);
        }
    }

    /// Takes back all, level 0 too.
    pub(crate) fn reset(&mut self) {
        self.limits.clear();
        self.shorten(0);
    }

    /// The literal of this variable with the value that the variable had last.
    pub(crate) fn with_phase(&self, positive: LitIndex) -> LitIndex {
        if self.note(positive.variable()).phase {
            positive
        } else {
            positive.negated()
        }
    }

    /// The variables' values: false where there is none.
    pub(crate) fn values(&self, alloc: Global) -> Result<Vec<bool>, AllocError> {
        let mut values = Vec::with_capacity(alloc, self.notes.len())?;
        for variable in 0..self.notes.len() {
            values.push(self.values.get(2 * variable).copied() == Some(Truth::True))?;
        }
        Ok(values)
    }
}
