//! Literals as indices of lists.

use clauses::Lit;
use std::alloc::{AllocError, Global};

/// A literal by its number: twice the place of its variable, from 0, and one more where the literal
/// is negative.
#[derive(Clone, Copy, Default, PartialEq, Eq, PartialOrd, Ord)]
pub struct LitIndex {
    number: u32,
}

impl LitIndex {
    /// The literal.
    pub fn of(literal: &Lit) -> LitIndex {
        let place = literal.variable() - 1;
        if literal.is_positive() {
            LitIndex { number: 2 * place }
        } else {
            LitIndex {
                number: 2 * place + 1,
            }
        }
    }

    /// The literal of this number.
    pub(crate) fn of_number(number: u32) -> LitIndex {
        LitIndex { number }
    }

    /// The positive literal of the first variable, which look-ups past the end of a list answer.
    pub fn first() -> LitIndex {
        LitIndex { number: 0 }
    }

    /// A literal of no variable, so of none that has a level or a reason.
    pub fn of_no_variable() -> LitIndex {
        LitIndex { number: u32::MAX }
    }

    /// The positive literal of the variable at this place, from 0.
    pub fn positive(variable: u32) -> LitIndex {
        LitIndex {
            number: variable.saturating_mul(2),
        }
    }

    /// The literal itself. There is none for the two largest numbers.
    pub fn literal(self) -> Option<Lit> {
        Lit::make(self.number / 2 + 1, self.is_positive())
    }

    /// Its number.
    pub fn number(self) -> u32 {
        self.number
    }

    /// The place of its variable, from 0.
    pub fn variable(self) -> usize {
        (self.number / 2) as usize
    }

    /// Whether it is positive.
    pub fn is_positive(self) -> bool {
        self.number % 2 == 0
    }

    /// Its negation.
    pub fn negated(self) -> LitIndex {
        LitIndex {
            number: self.number ^ 1,
        }
    }

    /// Its place in a list of one entry for each literal.
    pub(crate) fn place(self) -> usize {
        self.number as usize
    }
}

/// The literal at this place; the first one past the end.
pub(crate) fn literal_at(list: &[LitIndex], place: usize) -> LitIndex {
    match list.get(place) {
        Some(literal) => *literal,
        None => LitIndex::first(),
    }
}

/// Puts these literals in place of those in the list.
pub fn fill(indices: &mut Vec<LitIndex>, literals: &[Lit]) -> Result<(), AllocError> {
    indices.clear();
    indices.reserve(literals.len())?;
    for literal in literals {
        indices.push(LitIndex::of(literal))?;
    }
    Ok(())
}

/// These literals.
pub fn indices_of(alloc: Global, literals: &[Lit]) -> Result<Vec<LitIndex>, AllocError> {
    let mut indices = Vec::new(alloc);
    fill(&mut indices, literals)?;
    Ok(indices)
}
