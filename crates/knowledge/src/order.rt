//! The order in which a run issues the calls.

use callorder::LongProgram;
use semantics::Step;
use std::alloc::{AllocError, Global};

/// For each rank its first call. The only error is want of memory.
fn first_calls(alloc: Global, program: &LongProgram) -> Result<Vec<usize>, AllocError> {
    let mut next = vec![in alloc; 0; program.ranks() as usize]?;
    for place in (0..program.calls().len()).rev() {
        if let Some(call) = program.call(place) {
            if let Some(first) = next.get_mut(call.rank as usize) {
                *first = place;
            }
        }
    }
    Ok(next)
}

/// The call that the rank issues next, which is past then.
fn issue_next(next: &mut Vec<usize>, rank: u32) -> usize {
    match next.get_mut(rank as usize) {
        None => 0,
        Some(place) => {
            let call = *place;
            *place = call.saturating_add(1);
            call
        }
    }
}

/// The calls in the order in which the run issues them, by their places in the program's list,
/// which count from 0 like the ranks in the steps. The first issue of a rank is that of its first
/// call, and each later one that of the next. Nothing is promised of the places, so whoever reads
/// them has to look. The only error is want of memory.
pub fn issue_order(
    alloc: Global,
    program: &LongProgram,
    run: &[Step],
) -> Result<Vec<usize>, AllocError> {
    let mut next = first_calls(alloc, program)?;
    let mut order = Vec::new(alloc);
    for step in run {
        if let Step::Issue { rank, .. } = step {
            let call = issue_next(&mut next, *rank);
            order.push(call)?;
        }
    }
    Ok(order)
}
