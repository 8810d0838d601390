//! Where workers may be held back, and where they tell how far they are.

use cdcl::Found;

/// What a worker did in one search.
#[derive(Clone, Copy, PartialEq, Eq)]
pub struct Searched {
    /// How many cubes are open in the pool afterwards.
    pub open: u32,
    /// How many literals the path of its cube has; none where it searched the whole formula.
    pub depth: usize,
    /// Whether the search refuted its cube, or the formula.
    pub is_closed: bool,
    /// How many lines it learnt.
    pub lines: usize,
    /// How many conflicts it counted, and lines, where it went over sets of matched calls.
    pub conflicts: u64,
    /// How much of the budget its worker has used by now.
    pub used: u64,
    /// Whether it went over sets of matched calls.
    pub over_sets: bool,
}

impl Searched {
    /// What a search did below a path of so many literals that found this and counted so many
    /// conflicts, where so many cubes are open now and so much of the budget is used.
    pub(crate) fn of(
        found: &Found,
        depth: usize,
        open: u32,
        conflicts: u64,
        used: u64,
        over_sets: bool,
    ) -> Searched {
        let (is_closed, lines) = match found {
            Found::Closed(batch, _last) => (true, batch.lines.len()),
            Found::Model(_assignment) => (false, 0),
            Found::Budget(batch) => (false, batch.lines.len()),
        };
        Searched {
            open,
            depth,
            is_closed,
            lines,
            conflicts,
            used,
            over_sets,
        }
    }
}

/// Is called before each cube of the search, so that a test can hold workers back, and once the
/// formula is made and after each search, so that it can be told how far they are.
pub trait Gate {
    /// Called once the formula is made, with how many clauses it has, before the workers begin. A
    /// gate that leaves it out only holds back.
    fn formed(&self, _clauses: usize) {}

    /// Called by a worker, from 0, before it searches below a cube, by the number of its leaf, from
    /// 0.
    fn before(&self, worker: u32, cube: u32);

    /// Called by a worker, from 0, after each search, once what it found was handed to the pool. A
    /// gate that leaves it out only holds back.
    fn after(&self, _worker: u32, _searched: Searched) {}
}
