//! Walks of several manners, before any formula is made.

ghost use Rattle.std.specs.Prelude.{◌↔◌, IfNone, IfOk, IfSome, IsTrue};
ghost use Rattle.semantics.specs.RunEnds.{IsFinishedRun};
ghost use Rattle.semantics.specs.Machine.{IsStuckRun};
ghost use Rattle.prover.specs.parts.Searches.{HasRunThatFinishes};

use crate::manner::{CHANCES, CHANCES_BEHIND, by_chance, manner_at, manners, unbuffered};
use crate::walk::{walk, walk_along};
use callorder::LongProgram;
use semantics::{End, ReplayFault, Step, replay};
use std::alloc::{AllocError, Global};

/// Whether the steps are a run that ends stuck.
pub fn is_stuck(alloc: Global, program: &LongProgram, steps: &[Step]) -> Result<bool, AllocError>
    ensures { IfOk result (λ stuck. IsTrue stuck ↔ IsStuckRun program.now steps.now) }
{
    match replay(alloc, program, steps) {
        Ok(End::Stuck) => Ok(true),
        Ok(_) => Ok(false),
        Err(ReplayFault::Memory) => Err(AllocError),
        Err(ReplayFault::NotEnabled { at: _ }) => Ok(false),
    }
}

/// Walks in one manner after another, until a walk ends stuck: that walk, or none where all end
/// finished.
pub fn stuck_walk(alloc: Global, program: &LongProgram) -> Result<Option<Vec<Step>>, AllocError>
    ensures stuck { IfOk result (λ found. IfSome found (λ steps. IsStuckRun program.now steps.items)) }
    ensures none { IfOk result (λ found. IfNone found (HasRunThatFinishes program.now)) }
{
    for turn in 0..manners(program.ranks()) {
        let steps = walk(alloc, program, manner_at(turn))?;
        if is_stuck(alloc, program, &steps)? {
            return Ok(Some(steps));
        }
    }
    Ok(None)
}

/// Whether the steps are a run that ends with all ranks finished.
fn is_finished(alloc: Global, program: &LongProgram, steps: &[Step]) -> Result<bool, AllocError>
    ensures { IfOk result (λ finished. IsTrue finished → IsFinishedRun program.now steps.now) }
{
    match replay(alloc, program, steps) {
        Ok(End::Finished) => Ok(true),
        Ok(_) => Ok(false),
        Err(ReplayFault::Memory) => Err(AllocError),
        Err(ReplayFault::NotEnabled { at: _ }) => Ok(false),
    }
}

/// A run that ends with all ranks finished, where one of 48 walks does that choose by chance which
/// message a receive or probe finds; none where none of them does, which tells nothing. Each walk
/// takes time near that of the square of the calls. The only error is want of memory.
pub fn finished_walk(alloc: Global, program: &LongProgram) -> Result<Option<Vec<Step>>, AllocError>
    ensures { IfOk result (λ found. IfSome found (λ steps. IsFinishedRun program.now steps.items)) }
{
    for number in 1..=CHANCES {
        let steps = walk(alloc, program, by_chance(number))?;
        if is_finished(alloc, program, &steps)? {
            return Ok(Some(steps));
        }
    }
    Ok(None)
}

/// A run that takes these steps, then goes on without a buffered send that needn't be, and ends
/// with all ranks finished, where one of some walks does.
fn finished_behind(
    alloc: Global,
    program: &LongProgram,
    along: &[Step],
) -> Result<Option<Vec<Step>>, AllocError>
    ensures { IfOk result (λ found. IfSome found (λ steps. IsFinishedRun program.now steps.items)) }
{
    for number in 0..CHANCES_BEHIND {
        let steps = walk_along(alloc, program, along, unbuffered(number))?;
        if is_finished(alloc, program, &steps)? {
            return Ok(Some(steps));
        }
    }
    Ok(None)
}

/// A run that ends with all ranks finished, buffers no send that it needn't but where these steps
/// do, and goes along with them for as long as one that is tried does: behind that none is known to
/// end so. None where no such run is found from the beginning, which tells nothing. The number of
/// walks is near the logarithm of that of the steps. The only error is want of memory.
pub fn run_that_parts_last(
    alloc: Global,
    program: &LongProgram,
    steps: &[Step],
) -> Result<Option<Vec<Step>>, AllocError>
    ensures { IfOk result (λ found. IfSome found (λ run. IsFinishedRun program.now run.items)) }
{
    let mut best = finished_behind(alloc, program, &[])?;
    if best.is_none() {
        return Ok(best);
    }
    let mut low: usize = 0;
    let mut high = steps.len();
    for _halving in 0..64 {
        if low >= high {
            return Ok(best);
        }
        let middle = high - (high - low) / 2;
        let found = finished_behind(alloc, program, front_of(steps, middle))?;
        if found.is_some() {
            best = found;
            low = middle;
        } else {
            high = middle - 1;
        }
    }
    Ok(best)
}

/// The first steps, so many of them, or all.
fn front_of(steps: &[Step], count: usize) -> &[Step] {
    if count <= steps.len() {
        &steps[..count]
    } else {
        steps
    }
}
