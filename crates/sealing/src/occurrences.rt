//! Which one of its side each call is.

ghost use Rattle.std.specs.Prelude.{◌≡◌, ◌<◌, ◌≤◌, IfOk, length};
ghost use Rattle.std.specs.HashMap.{get};
ghost use Rattle.std.specs.Option.{unwrap_or};
ghost use Rattle.sealing.specs.declared.sides.Side.{Side};
ghost use Rattle.sealing.specs.parts.Sides.{same_side, same_occurrence, CountsOneMore, IsCounted, AreOccurrences, ArePlaces};

use crate::sides::{Side, side_of};
use callorder::Call;
use std::alloc::{AllocError, Global};
use std::collections::HashMap;

/// A call by its side, and by how many of that side stand before it.
#[derive(Clone, Copy, PartialEq, Eq, Hash)]
pub struct Occurrence {
    pub side: Side,
    pub index: usize,
}

/// How many of the side were counted before this one, which is counted too.
fn count(counts: &mut HashMap<Side, usize>, side: Side) -> Result<usize, AllocError>
    requires { unwrap_or (get same_side counts.old side) 0 < 9223372036854775807 }
    ensures before { IfOk result (λ index. index ≡ unwrap_or (get same_side counts.old side) 0) }
    ensures counted { IfOk result (λ index. CountsOneMore side index (get same_side counts.old) (get same_side counts.new)) }
{
    let index = counts.get(&side).copied().unwrap_or(0);
    counts.insert(side, index + 1)?;
    Ok(index)
}

/// Which one of its side the call is, which is counted.
fn occurrence_of(
    counts: &mut HashMap<Side, usize>,
    call: &Call,
) -> Result<Option<Occurrence>, AllocError>
    requires { (side : Side) → unwrap_or (get same_side counts.old side) 0 < 9223372036854775807 }
    ensures { IfOk result (λ one. IsCounted call.now one (get same_side counts.old) (get same_side counts.new)) }
{
    match side_of(call) {
        None => Ok(None),
        Some(side) => {
            let index = count(counts, side)?;
            Ok(Some(Occurrence { side, index }))
        }
    }
}

/// Which one of its side each call is. The only error is want of memory.
pub fn occurrences_of(alloc: Global, calls: &[Call]) -> Result<Vec<Option<Occurrence>>, AllocError>
    requires { length calls.now ≤ 9223372036854775807 }
    ensures { IfOk result (λ occurrences. AreOccurrences calls.now (length calls.now) occurrences.items) }
{
    let mut counts = HashMap::new(alloc);
    let mut occurrences = Vec::new(alloc);
    for call in calls {
        let occurrence = occurrence_of(&mut counts, call)?;
        occurrences.push(occurrence)?;
    }
    Ok(occurrences)
}

/// Where each of these stands. The only error is want of memory.
pub fn places_of(
    alloc: Global,
    occurrences: &[Option<Occurrence>],
) -> Result<HashMap<Occurrence, usize>, AllocError>
    ensures { IfOk result (λ places. ArePlaces occurrences.now (length occurrences.now) (get same_occurrence places)) }
{
    let mut places = HashMap::new(alloc);
    for (place, occurrence) in occurrences.iter().enumerate() {
        if let Some(one) = occurrence {
            places.insert(*one, place)?;
        }
    }
    Ok(places)
}
