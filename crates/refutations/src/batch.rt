//! Lines that a search hands out, before anybody has checked them.

use clauses::Clause;

/// A clause that a line rests on.
#[derive(Clone, Copy, PartialEq, Eq)]
pub enum Hint {
    /// The clause of this number: one of the formula, numbered from 1, or one that was handed to
    /// the search with it.
    Known(u32),
    /// The line at this place of the batch, from 0.
    Own(u32),
}

/// A clause, and what it rests on.
#[derive(Drop)]
pub struct BatchLine {
    /// The clause.
    pub clause: Clause,
    /// The clauses that it rests on, in the order of unit propagation from its negation; the last
    /// one is the conflict.
    pub hints: Vec<Hint>,
}

/// Lines, each of which may rest on earlier ones. Nothing is promised of them: whoever takes them
/// checks them.
#[derive(Drop)]
pub struct Batch {
    /// The lines, in the order in which they were learnt.
    pub lines: Vec<BatchLine>,
}
