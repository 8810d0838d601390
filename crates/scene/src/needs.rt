//! What a rank that waits needs of the one that it waits for.

ghost use Rattle.std.specs.Prelude.{◌≡◌, IsTrue, IfSome};
ghost use Rattle.scene.specs.Ends.{is_missing, IsNeeded};

use callorder::LongProgram;
use semantics::State;
use waits::{Need, fits_with, need_of};

/// Whether the call is one of this rank that the operation looks for, and its rank has not come to
/// it.
fn is_missing(
    program: &LongProgram,
    state: &State,
    operation: usize,
    rank: u32,
    call: usize,
) -> bool
    ensures { result ≡ is_missing program.now state.now operation rank call }
{
    program.is_of_rank(call, rank)
        && fits_with(program, operation, call)
        && !state.is_issued(program, call)
}

/// The first call of a rank that an operation looks for, and that its rank has not come to, if
/// there is one.
fn first_missing(program: &LongProgram, state: &State, operation: usize, rank: u32) -> Option<usize>
    ensures { IfSome result (λ call. IsTrue (is_missing program.now state.now operation rank call)) }
{
    let next = state.next_of(rank).unwrap_or(0);
    for call in next..program.calls().len() {
        if is_missing(program, state, operation, rank, call) {
            return Some(call);
        }
    }
    None
}

/// The call of a rank that an operation needs, the first of them, if there is one.
pub fn needed(program: &LongProgram, state: &State, operation: usize, rank: u32) -> Option<usize>
    ensures { IfSome result (λ call. IsNeeded program.now state.now operation rank call) }
{
    match need_of(program, state, operation) {
        None => None,
        Some(Need::Match) => first_missing(program, state, operation, rank),
        Some(Need::Fetch { receive }) => Some(receive),
    }
}
