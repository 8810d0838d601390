//! The last call of each rank.

ghost use Rattle.std.specs.Prelude.{◌≡◌, IfOk, Some, map};
ghost use Rattle.sealing.specs.parts.Ends.{AreLasts};

use callorder::LongProgram;
use interning::last_places;
use std::alloc::{AllocError, Global};

/// The rank of each call.
fn ranks_of(alloc: Global, program: &LongProgram) -> Result<Vec<Option<usize>>, AllocError>
    ensures { IfOk result (λ ranks. ranks.items ≡ map (λ call. Some call.rank) program.now.calls) }
{
    program
        .calls()
        .iter()
        .map(|call| Some(call.rank as usize))
        .collect(alloc)
}

/// The last call of each rank that has one. The only error is want of memory.
pub fn last_calls(alloc: Global, program: &LongProgram) -> Result<Vec<Option<usize>>, AllocError>
    ensures { IfOk result (λ lasts. AreLasts program.now lasts.items) }
{
    let ranks = ranks_of(alloc, program)?;
    last_places(alloc, &ranks, program.ranks() as usize)
}
