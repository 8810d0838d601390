//! Who waits whatever is buffered.

ghost use Rattle.std.specs.Prelude.{ℕ, Contains, IfOk};
ghost use Rattle.waits.specs.Cycles.{HasEdge};

use callorder::{Kind, LongProgram};
use calltext::{Mode, Policy};
use std::alloc::{AllocError, Global};
use waits::{Standing, operation_of};

/// Whether the call is a send that the policy lets buffer, so that its rank needn't have waited.
fn may_be_buffered(program: &LongProgram, call: usize) -> bool {
    match program.call(call) {
        None => false,
        Some(call) => {
            program.policy() == Policy::Any
                && matches!(
                    call.kind,
                    Kind::Send {
                        mode: Mode::Standard,
                        ..
                    }
                )
        }
    }
}

/// Whether a rank waits whatever is buffered.
fn lasts(program: &LongProgram, standing: Option<&Standing>) -> bool {
    match standing {
        Some(Standing::Waits { call }) => {
            !may_be_buffered(program, operation_of(program, *call))
        }
        _ => false,
    }
}

/// These ranks, where the one that waits for them waits whatever is buffered, and else none.
fn lasting_of(
    alloc: Global,
    program: &LongProgram,
    standing: Option<&Standing>,
    ranks: &Vec<u32>,
) -> Result<Vec<u32>, AllocError>
    ensures { IfOk result (λ lasting. (to : ℕ) → Contains lasting.items to → Contains ranks.now.items to) }
{
    if lasts(program, standing) {
        Vec::from_slice(alloc, ranks)
    } else {
        Ok(Vec::new(alloc))
    }
}

/// For each rank the ranks that it waits for, where it waits whatever is buffered, and else none.
/// The only error is want of memory.
pub fn lasting_edges(
    alloc: Global,
    program: &LongProgram,
    standings: &[Standing],
    awaited: &[Vec<u32>],
) -> Result<Vec<Vec<u32>>, AllocError>
    ensures { IfOk result (λ lasting. (from to : ℕ) → HasEdge lasting.items from to → HasEdge awaited.now from to) }
{
    let mut lasting = Vec::new(alloc);
    for (rank, ranks) in awaited.iter().enumerate() {
        lasting.push(lasting_of(alloc, program, standings.get(rank), ranks)?)?;
    }
    Ok(lasting)
}
