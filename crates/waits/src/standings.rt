//! Where a rank stands.

ghost use Rattle.std.specs.Prelude.{◌≡◌, ◌↔◌, ℕ, IfSome, IfNone};
ghost use Rattle.waits.specs.declared.standings.Standing.{Standing};
ghost use Rattle.waits.specs.Waiting.{Stands, WaitsIn};

use callorder::LongProgram;
use semantics::State;

/// Where a rank stands.
#[derive(Clone, Copy, PartialEq, Eq)]
pub enum Standing {
    /// All its calls are issued, and the last has returned.
    Finished,
    /// The last call that it issued has not returned.
    Waits { call: usize },
    /// It could issue its next call.
    Ready,
}

/// The place of the call that a rank waits in, if it waits.
fn pending(program: &LongProgram, state: &State, rank: u32) -> Option<usize>
    ensures some { IfSome result (λ call. WaitsIn program.now state.now rank call) }
    ensures none { IfNone result ((call : ℕ) → WaitsIn program.now state.now rank call → ⊥) }
{
    let next = state.next_of(rank).unwrap_or(0);
    if next == 0 {
        return None;
    }
    let call = next - 1;
    if program.is_of_rank(call, rank) && !state.returned(program, call) {
        return Some(call);
    }
    None
}

/// Where a rank, from 0, stands. A rank that the program lacks is told as finished.
pub fn standing_of(program: &LongProgram, state: &State, rank: u32) -> Standing
    ensures { (standing : Standing) → (result ≡ standing) ↔ Stands program.now state.now rank standing }
{
    if let Some(call) = pending(program, state, rank) {
        return Standing::Waits { call };
    }
    if state.is_rank_finished(program, rank) {
        return Standing::Finished;
    }
    Standing::Ready
}
