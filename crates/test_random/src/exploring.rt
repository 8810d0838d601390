//! All runs of a program, explored plainly.

use crate::position::Position;
use crate::rules::Rules;
use callorder::Program;
use std::alloc::{AllocError, Global};
use std::collections::HashSet;

/// Whether some run of a program gets stuck.
#[derive(Clone, Copy, PartialEq, Eq)]
pub enum Fate {
    Stuck,
    NeverStuck,
}

/// The positions that were reached, and those of them from which no step was taken yet, the last
/// one first.
#[derive(Drop)]
struct Reached {
    known: HashSet<Position>,
    waiting: Vec<Position>,
}

impl Reached {
    fn add(&mut self, position: Position) -> Result<(), AllocError> {
        if self.known.insert(position)? {
            self.waiting.push(position)?;
        }
        Ok(())
    }

    fn add_all(&mut self, positions: &[Position]) -> Result<(), AllocError> {
        for position in positions {
            self.add(*position)?;
        }
        Ok(())
    }
}

/// Whether some run of the program gets stuck, by a search through all positions that its runs
/// reach, or none if the program is too large or has more positions than so many.
pub fn explore(alloc: Global, program: &Program, most: usize) -> Result<Option<Fate>, AllocError> {
    let rules = Rules::of(alloc, program)?;
    let Some(rules) = rules else {
        return Ok(None);
    };
    let mut reached = Reached {
        known: HashSet::new(alloc),
        waiting: Vec::new(alloc),
    };
    reached.add(Position::opening())?;
    for _ in 0..most {
        let Some(position) = reached.waiting.pop() else {
            return Ok(Some(Fate::NeverStuck));
        };
        let next = rules.next(alloc, &position)?;
        if next.is_empty() && !rules.is_over(&position) {
            return Ok(Some(Fate::Stuck));
        }
        reached.add_all(&next)?;
    }
    Ok(None)
}
