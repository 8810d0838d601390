//! What a call waits for.

ghost use Rattle.std.specs.Prelude.{◌≡◌};
ghost use Rattle.waits.specs.Waiting.{operation_of_call, handled_receive, need_of_operation};

use callorder::{Kind, LongProgram};
use semantics::State;

/// What an operation that is not done waits for.
#[derive(Clone, Copy, PartialEq, Eq)]
pub enum Need {
    /// A send that is not matched waits for a receive or matched probe that it fits; a receive or
    /// matched probe that is not matched, and a probe that has seen nothing, wait for a send that
    /// fits.
    Match,
    /// A send that a matched probe found waits for the receive, at this place, on the probe's
    /// handle.
    Fetch { receive: usize },
}

/// The place of the operation whose end the call at a place waits for: that of a wait, else the
/// call itself.
pub fn operation_of(program: &LongProgram, call: usize) -> usize
    ensures { result ≡ operation_of_call program.now call }
{
    match program.call(call) {
        None => call,
        Some(known) => match known.kind {
            Kind::Wait { operation } => operation,
            _ => call,
        },
    }
}

/// The place of the receive on the handle of the call at a place, where that is a matched probe.
fn handled_receive(program: &LongProgram, call: usize) -> Option<usize>
    ensures { result ≡ handled_receive program.now call }
{
    match program.call(call) {
        None => None,
        Some(known) => match known.kind {
            Kind::MatchedProbe { receive, .. } => Some(receive),
            _ => None,
        },
    }
}

/// What the operation of the call at a place waits for; none where it is done, or where there is no
/// such call.
pub fn need_of(program: &LongProgram, state: &State, operation: usize) -> Option<Need>
    ensures { result ≡ need_of_operation program.now state.now operation }
{
    if program.call(operation).is_none() || state.is_done(program, operation) {
        return None;
    }
    match state.partner(operation) {
        None => Some(Need::Match),
        Some(probe) => match handled_receive(program, probe) {
            None => None,
            Some(receive) => Some(Need::Fetch { receive }),
        },
    }
}
