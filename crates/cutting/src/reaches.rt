//! How far ranks are known to be, in lists.

use std::alloc::{AllocError, Global};

/// Up to where a column's rank is known to have returned from its calls. In a list of these columns
/// rise, and of one that isn't there nothing is known.
#[derive(Clone, Copy)]
pub struct Reach {
    pub column: usize,
    pub place: usize,
}

/// The place up to which the column's rank is known to have returned.
pub fn place_of(known: &[Reach], column: usize) -> usize {
    let first = known.partition_point(|reach| reach.column < column);
    match known.get(first).copied() {
        None => 0,
        Some(reach) => {
            if reach.column == column {
                reach.place
            } else {
                0
            }
        }
    }
}

/// Adds those of the list, from a place on, whose columns are below this one, and gives the place
/// behind them.
fn add_below(
    known: &mut Vec<Reach>,
    list: &[Reach],
    from: usize,
    column: usize,
) -> Result<usize, AllocError> {
    for place in from..list.len() {
        if let Some(reach) = list.get(place).copied() {
            if reach.column >= column {
                return Ok(place);
            }
            known.push(reach)?;
        }
    }
    Ok(list.len())
}

/// What is known by the one list or the other.
pub fn merge(alloc: Global, one: &[Reach], other: &[Reach]) -> Result<Vec<Reach>, AllocError> {
    let mut known: Vec<Reach> = Vec::new(alloc);
    let mut next = 0;
    for reach in one {
        let column = reach.column;
        next = add_below(&mut known, other, next, column)?;
        let mut place = reach.place;
        if let Some(same) = other.get(next).copied() {
            if same.column == column {
                place = place.max(same.place);
                next = next.saturating_add(1);
            }
        }
        known.push(Reach { column, place })?;
    }
    add_below(&mut known, other, next, usize::MAX)?;
    Ok(known)
}
