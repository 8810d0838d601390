//! Where numbers stood before.

ghost use Rattle.std.specs.Prelude.{IfOk, length};
ghost use Rattle.interning.specs.LastPlaces.{last_below};
ghost use Rattle.interning.specs.Places.{AreBelow, IsTable, holds_at, previous_of};

use std::alloc::{AllocError, Global};

/// For each place the last place before it that holds the same number, if there is one. Each number
/// is below how many places there are. The only error is want of memory.
pub fn previous_places(
    alloc: Global,
    numbers: &[Option<usize>],
) -> Result<Vec<Option<usize>>, AllocError>
    requires { AreBelow (length numbers.now) numbers.now }
    ensures { IfOk result (λ previous. IsTable (length numbers.now) (previous_of numbers.now) previous.items) }
{
    let mut last: Vec<Option<usize>> = vec![in alloc; None; numbers.len()]?;
    let mut previous = Vec::new(alloc);
    for (place, number) in numbers.iter().enumerate() {
        previous.push(match number {
            None => None,
            Some(number) => std::mem::replace(&mut last[*number], Some(place)),
        })?;
    }
    Ok(previous)
}

/// For each number below the bound the last place that holds it, if there is one. Each number is
/// below the bound. The only error is want of memory.
pub fn last_places(
    alloc: Global,
    numbers: &[Option<usize>],
    bound: usize,
) -> Result<Vec<Option<usize>>, AllocError>
    requires { AreBelow bound numbers.now }
    ensures { IfOk result (λ last. IsTable bound (λ number. last_below (holds_at numbers.now number) (length numbers.now)) last.items) }
{
    let mut last: Vec<Option<usize>> = vec![in alloc; None; bound]?;
    for (place, number) in numbers.iter().enumerate() {
        if let Some(number) = number {
            last[*number] = Some(place);
        }
    }
    Ok(last)
}
