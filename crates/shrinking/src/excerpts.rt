//! Texts of which each line comes from one of a given text.

ghost use Rattle.std.specs.Prelude.{◌≡◌, IfOk};

use crate::lines::count_lines;
use std::alloc::{AllocError, Global};

/// A text, and for each of its lines the number, from 1, of the line of a given text that it comes
/// from.
#[derive(Drop)]
pub struct Excerpt {
    pub text: Vec<u8>,
    pub numbers: Vec<usize>,
}

impl Excerpt {
    /// The whole of the given text.
    pub fn whole(alloc: Global, given: &[u8]) -> Result<Excerpt, AllocError>
        ensures { IfOk result (λ excerpt. excerpt.text.items ≡ given.now) }
    {
        let text = Vec::from_slice(alloc, given)?;
        let count = count_lines(given);
        let mut numbers = Vec::with_capacity(alloc, count)?;
        for place in 0..count {
            numbers.push(place.saturating_add(1))?;
        }
        Ok(Excerpt { text, numbers })
    }

    /// One without lines, with room for those of this one.
    pub fn emptied(&self, alloc: Global) -> Result<Excerpt, AllocError> {
        let text = Vec::with_capacity(alloc, self.text.len())?;
        let numbers = Vec::with_capacity(alloc, self.numbers.len())?;
        Ok(Excerpt { text, numbers })
    }

    /// The same text and numbers.
    pub fn copied(&self, alloc: Global) -> Result<Excerpt, AllocError> {
        let text = Vec::from_slice(alloc, &self.text)?;
        let numbers = Vec::from_slice(alloc, &self.numbers)?;
        Ok(Excerpt { text, numbers })
    }

    /// The number of the line at this place, from 0; 0 where there is none.
    pub fn number_at(&self, place: usize) -> usize {
        self.numbers.get(place).copied().unwrap_or(0)
    }
}
