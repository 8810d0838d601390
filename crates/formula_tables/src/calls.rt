//! What the clauses of a program ask of its calls.

ghost use Rattle.std.specs.Prelude.{◌≡◌, ◌+◌, not};
ghost use Rattle.callorder.specs.Programs.{are_of_one_rank};
ghost use Rattle.formula.specs.Families.{finds_message, is_standard, receive_on_handle, previous_of_rank, rank_of, fetch_of, when_done, when_returned};

use callorder::{Call, Kind, Program};
use calltext::Mode;
use formula::{Condition, RunEvent};

/// Whether the call is a receive, a matched probe or a probe.
pub fn is_finder(program: &Program, call: usize) -> bool
    ensures { result ≡ finds_message program.now call }
{
    match program.call(call) {
        None => false,
        Some(call) => call.kind.pattern().is_some(),
    }
}

/// Whether the call is a send in standard mode.
pub fn is_standard(program: &Program, call: usize) -> bool
    ensures { result ≡ is_standard program.now call }
{
    match program.call(call) {
        None => false,
        Some(call) => match call.kind {
            Kind::Send { mode, .. } => mode == Mode::Standard,
            _ => false,
        },
    }
}

/// The receive on the handle of a matched probe, where the call is one; calls count from 0.
pub fn receive_on_handle(program: &Program, call: usize) -> Option<usize>
    ensures { result ≡ receive_on_handle program.now call }
{
    match program.call(call) {
        None => None,
        Some(call) => match call.kind {
            Kind::MatchedProbe { receive, .. } => Some(receive),
            _ => None,
        },
    }
}

/// The call directly before this one, if there is one of the same rank; calls count from 0.
pub fn previous(program: &Program, call: usize) -> Option<usize>
    ensures { result ≡ previous_of_rank program.now call }
{
    if call == 0 {
        return None;
    }
    if program.are_of_one_rank(call - 1, call) {
        return Some(call - 1);
    }
    None
}

/// Whether no call of the call's rank stands directly after it.
pub fn is_last(program: &Program, call: usize) -> bool
    ensures { result ≡ not (are_of_one_rank program.now call (call + 1)) }
{
    if call < program.calls().len() {
        return !program.are_of_one_rank(call, call + 1);
    }
    true
}

/// The rank of the call, or 0 where there is none.
pub fn rank_of(program: &Program, call: usize) -> usize
    ensures { result ≡ rank_of program.now call }
{
    match program.call(call) {
        None => 0,
        Some(call) => call.rank as usize,
    }
}

/// The event by which a taker fetches its message.
pub fn fetch_of(program: &Program, taker: usize) -> RunEvent
    ensures { result ≡ fetch_of program.now taker }
{
    match receive_on_handle(program, taker) {
        None => RunEvent::Match(taker),
        Some(receive) => RunEvent::Issue(receive),
    }
}

/// When the operation of a call is done.
fn when_done(program: &Program, operation: usize) -> Condition
    ensures { result ≡ when_done program.now operation }
{
    let Some(call) = program.call(operation) else {
        return Condition::AtOnce;
    };
    match call.kind {
        Kind::Send { mode, .. } => match mode {
            Mode::Standard => Condition::IfBufferedOrFetched(operation),
            Mode::Synchronous => Condition::IfFetched(operation),
            Mode::Buffered => Condition::AtOnce,
        },
        Kind::Receive { .. } | Kind::MatchedProbe { .. } | Kind::Probe { .. } => {
            Condition::IfMatched(operation)
        }
        Kind::MatchedReceive { .. } | Kind::Wait { .. } => Condition::AtOnce,
    }
}

/// When an issued call has returned.
pub fn when_returned(program: &Program, call: usize) -> Condition
    ensures { result ≡ when_returned program.now call }
{
    let Some(Call { kind, .. }) = program.call(call) else {
        return Condition::AtOnce;
    };
    match kind {
        Kind::Send { blocking, .. } | Kind::Receive { blocking, .. } => {
            if blocking {
                when_done(program, call)
            } else {
                Condition::AtOnce
            }
        }
        Kind::MatchedProbe { .. } | Kind::Probe { .. } => when_done(program, call),
        Kind::MatchedReceive { .. } => Condition::AtOnce,
        Kind::Wait { operation } => when_done(program, operation),
    }
}
