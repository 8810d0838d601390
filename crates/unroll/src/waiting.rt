//! Waits, and receives on handles: the ends of what was started.

ghost use Rattle.std.specs.Prelude.{◌≡◌, IfOk};
ghost use Rattle.unroll.specs.parts.Runs.{HasOutcome, seen_run};
ghost use Rattle.unroll.specs.Runs.{call_put, matched, waited, wait_part, still_first};

use crate::call::{Label, UnrolledCall};
use crate::machine::{
    Machine, Scope, Stop, forget, is_left_out, leave_request, put, started_handle, started_request,
};

/// Receives on a handle. Where its matched probe was left out the receive is left out too, and its
/// request is remembered.
pub(crate) fn perform_matched(
    machine: &mut Machine,
    scope: Scope,
    line: u32,
    request: Option<Label>,
    handle: Label,
) -> Result<(), Stop>
    ensures { HasOutcome result (matched scope line request handle (seen_run machine.old)) (seen_run machine.new) }
{
    if is_left_out(&machine.left_out, started_handle(handle)) {
        forget(&mut machine.left_out, started_handle(handle));
        return leave_request(machine, scope, line, request);
    }
    put(
        machine,
        scope,
        line,
        UnrolledCall::MatchedReceive { request, handle },
    )
}

/// Waits for a request, unless its start was left out.
pub(crate) fn perform_wait(
    machine: &mut Machine,
    scope: Scope,
    line: u32,
    request: Label,
) -> Result<(), Stop>
    ensures { HasOutcome result (waited scope line request (seen_run machine.old)) (seen_run machine.new) }
{
    if is_left_out(&machine.left_out, started_request(request)) {
        forget(&mut machine.left_out, started_request(request));
        return Ok(());
    }
    put(machine, scope, line, UnrolledCall::Wait { request })
}

/// Waits for one request of several, unless its start was left out; then answers whether the next
/// one is the first.
pub(crate) fn wait_part(
    machine: &mut Machine,
    scope: Scope,
    line: u32,
    first: bool,
    request: Label,
) -> Result<bool, Stop>
    ensures run { HasOutcome result (wait_part scope line first request (seen_run machine.old)) (seen_run machine.new) }
    ensures first { IfOk result (λ next. next ≡ still_first first request (seen_run machine.old)) }
{
    if is_left_out(&machine.left_out, started_request(request)) {
        forget(&mut machine.left_out, started_request(request));
        return Ok(first);
    }
    if first {
        put(machine, scope, line, UnrolledCall::WaitAll { request })?;
    } else {
        put(machine, scope, line, UnrolledCall::WaitAlso { request })?;
    }
    Ok(false)
}
