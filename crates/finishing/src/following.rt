//! The run that an assignment tells.

ghost use Rattle.std.specs.Prelude.{IfOk, IfSome};
ghost use Rattle.semantics.specs.RunEnds.{IsFinishedRun};

use clauses::Assignment;
use encode::Encoded;
use extract::told_steps;
use semantics::{End, ReplayFault, Step, replay};
use std::alloc::{AllocError, Global};

/// The steps that the assignment tells, where they are a run in which all ranks finish. The
/// assignment may come from anywhere: the steps are taken one by one. The only error is want of
/// memory.
pub fn finished_run(
    alloc: Global,
    encoded: &Encoded,
    assignment: &Assignment,
) -> Result<Option<Vec<Step>>, AllocError>
    ensures { IfOk result (λ found. IfSome found (λ steps. IsFinishedRun encoded.now.program steps.items)) }
{
    let steps = told_steps(alloc, encoded, assignment)?;
    match replay(alloc, encoded.program(), &steps) {
        Ok(End::Finished) => Ok(Some(steps)),
        Ok(End::Stuck) => Ok(None),
        Ok(End::Live) => Ok(None),
        Err(ReplayFault::NotEnabled { .. }) => Ok(None),
        Err(ReplayFault::Memory) => Err(AllocError),
    }
}
