//! The text of a cycle of ranks alone, each of which waits for the next one.

use crate::excerpts::Excerpt;
use crate::leaving::without_others;
use crate::lines::count_lines;
use crate::running::Hanging;
use callorder::LongProgram;
use leastrun::least_buffered_run;
use semantics::State;
use std::alloc::{AllocError, Global};
use waits::{Standing, cycle, edges, operation_of, standing_of};

/// Of fewer ranks times lines than this one thing after another is left out all the same.
const FEW: u64 = 200_000;

/// How many ranks are not finished.
fn count_unfinished(program: &LongProgram, end: &State) -> usize {
    let mut count: usize = 0;
    for rank in 0..program.ranks() {
        if standing_of(program, end, rank) != Standing::Finished {
            count = count.saturating_add(1);
        }
    }
    count
}

/// Ranks that wait for one another in a cycle, each for one other only, where no other rank is
/// unfinished; else none.
fn cycle_at(alloc: Global, program: &LongProgram, end: &State) -> Result<Vec<u32>, AllocError> {
    let awaited = edges(alloc, program, end)?;
    let found = cycle(alloc, &awaited)?;
    let Some(ranks) = found else {
        return Ok(Vec::new(alloc));
    };
    for rank in ranks.iter() {
        if awaited.get(*rank as usize).map(|others| others.len()) != Some(1) {
            return Ok(Vec::new(alloc));
        }
    }
    if ranks.len() != count_unfinished(program, end) {
        return Ok(Vec::new(alloc));
    }
    Ok(ranks)
}

/// Marks the unit of the operation that the rank waits for.
fn mark_awaited(best: &Hanging, end: &State, rank: u32, marks: &mut [bool]) {
    if let Standing::Waits { call } = standing_of(&best.program, end, rank) {
        let operation = operation_of(&best.program, call);
        if let Some(unit) = best.units.of_calls.get(operation).copied()
            && let Some(mark) = marks.get_mut(unit)
        {
            *mark = true;
        }
    }
}

/// The text without all calls but those that the ranks of a cycle wait for, with what goes with
/// these. None where the unfinished ranks aren't a cycle each of which waits for one other only, or
/// where they are few. It takes time near linear in the text.
pub fn cycle_alone(alloc: Global, best: &Hanging) -> Result<Option<Excerpt>, AllocError> {
    let (_steps, end) = least_buffered_run(alloc, &best.program)?;
    let ranks = cycle_at(alloc, &best.program, &end)?;
    let lines = count_lines(&best.excerpt.text) as u64;
    if (ranks.len() as u64).saturating_mul(lines) < FEW {
        return Ok(None);
    }
    let mut kept = vec![in alloc; false; best.units.are_over.len()]?;
    for rank in ranks.iter() {
        mark_awaited(best, &end, *rank, &mut kept);
    }
    Ok(Some(without_others(alloc, best, &kept)?))
}
