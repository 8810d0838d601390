//! What one call does: it is made, or left out.

ghost use Rattle.std.specs.Prelude.{◌≡◌};
ghost use Rattle.unroll.specs.parts.Runs.{HasOutcome, seen_run};
ghost use Rattle.unroll.specs.Runs.{call_put, matched, sent, received, matched_probed, probed, joined_call, put_optional, perform};

use crate::arguments::Prepared;
use crate::call::{Label, UnrolledCall};
use crate::collecting::perform_collective;
use crate::machine::{
    Machine, Scope, Stop, guard, guard_request, leave, leave_request, put, started_handle,
};
use crate::members::root_in;
use crate::waiting::{perform_matched, perform_wait};
use spmd_tree::SendMode;

/// Makes a send, or leaves it out where its destination is `null`.
fn perform_send(
    machine: &mut Machine,
    scope: Scope,
    line: u32,
    mode: SendMode,
    request: Option<Label>,
    destination: Option<u32>,
    tag: u32,
    communicator: u32,
) -> Result<(), Stop>
    ensures { HasOutcome result (sent scope line mode request destination tag communicator (seen_run machine.old)) (seen_run machine.new) }
{
    guard_request(machine, scope, line, request)?;
    let Some(destination) = destination else {
        return leave_request(machine, scope, line, request);
    };
    let call = UnrolledCall::Send {
        mode,
        request,
        destination,
        tag,
        communicator,
    };
    put(machine, scope, line, call)
}

/// Makes a receive, or leaves it out where its source is `null`.
fn perform_receive(
    machine: &mut Machine,
    scope: Scope,
    line: u32,
    request: Option<Label>,
    source: Option<Option<u32>>,
    tag: Option<u32>,
    communicator: u32,
) -> Result<(), Stop>
    ensures { HasOutcome result (received scope line request source tag communicator (seen_run machine.old)) (seen_run machine.new) }
{
    guard_request(machine, scope, line, request)?;
    let Some(source) = source else {
        return leave_request(machine, scope, line, request);
    };
    let call = UnrolledCall::Receive {
        request,
        source,
        tag,
        communicator,
    };
    put(machine, scope, line, call)
}

/// Makes a matched probe, or leaves it out where its source is `null`.
fn perform_matched_probe(
    machine: &mut Machine,
    scope: Scope,
    line: u32,
    handle: Label,
    source: Option<Option<u32>>,
    tag: Option<u32>,
    communicator: u32,
) -> Result<(), Stop>
    ensures { HasOutcome result (matched_probed scope line handle source tag communicator (seen_run machine.old)) (seen_run machine.new) }
{
    guard(machine, scope, line, started_handle(handle))?;
    let Some(source) = source else {
        return leave(machine, scope, line, started_handle(handle));
    };
    let call = UnrolledCall::MatchedProbe {
        handle,
        source,
        tag,
        communicator,
    };
    put(machine, scope, line, call)
}

/// Makes a probe, or leaves it out where its source is `null`.
fn perform_probe(
    machine: &mut Machine,
    scope: Scope,
    line: u32,
    source: Option<Option<u32>>,
    tag: Option<u32>,
    communicator: u32,
) -> Result<(), Stop>
    ensures { HasOutcome result (probed scope line source tag communicator (seen_run machine.old)) (seen_run machine.new) }
{
    let Some(source) = source else {
        return Ok(());
    };
    let call = UnrolledCall::Probe {
        source,
        tag,
        communicator,
    };
    put(machine, scope, line, call)
}

/// The call of a joined send and receive (MPI 4.1, section 3.10): where one side has `null`, it is
/// the other side alone, and with `null` on both there is none.
fn joined(
    destination: Option<u32>,
    send_tag: u32,
    source: Option<Option<u32>>,
    receive_tag: Option<u32>,
    communicator: u32,
) -> Option<UnrolledCall>
    ensures { result ≡ joined_call destination send_tag source receive_tag communicator }
{
    match destination {
        None => match source {
            None => None,
            Some(source) => Some(UnrolledCall::Receive {
                request: None,
                source,
                tag: receive_tag,
                communicator,
            }),
        },
        Some(destination) => match source {
            None => Some(UnrolledCall::Send {
                mode: SendMode::Standard,
                request: None,
                destination,
                tag: send_tag,
                communicator,
            }),
            Some(source) => Some(UnrolledCall::SendReceive {
                destination,
                send_tag,
                source,
                receive_tag,
                communicator,
            }),
        },
    }
}

/// Makes a call, where there is one.
fn put_optional(
    machine: &mut Machine,
    scope: Scope,
    line: u32,
    call: Option<UnrolledCall>,
) -> Result<(), Stop>
    ensures { HasOutcome result (put_optional scope line call (seen_run machine.old)) (seen_run machine.new) }
{
    match call {
        None => Ok(()),
        Some(call) => put(machine, scope, line, call),
    }
}

/// Makes the call, or leaves it out.
pub(crate) fn perform(
    machine: &mut Machine,
    scope: Scope,
    line: u32,
    call: Prepared,
) -> Result<(), Stop>
    ensures { HasOutcome result (perform scope line call (seen_run machine.old)) (seen_run machine.new) }
{
    match call {
        Prepared::Send {
            mode,
            request,
            destination,
            tag,
            communicator,
        } => {
            perform_send(
                machine,
                scope,
                line,
                mode,
                request,
                destination,
                tag,
                communicator,
            )
        }
        Prepared::Receive {
            request,
            source,
            tag,
            communicator,
        } => { perform_receive(machine, scope, line, request, source, tag, communicator) }
        Prepared::MatchedProbe {
            handle,
            source,
            tag,
            communicator,
        } => { perform_matched_probe(machine, scope, line, handle, source, tag, communicator) }
        Prepared::Probe {
            source,
            tag,
            communicator,
        } => { perform_probe(machine, scope, line, source, tag, communicator) }
        Prepared::MatchedReceive { request, handle } => {
            guard_request(machine, scope, line, request)?;
            perform_matched(machine, scope, line, request, handle)
        }
        Prepared::Wait { request } => perform_wait(machine, scope, line, request),
        Prepared::Collective {
            kind,
            root,
            group,
            communicator,
        } => {
            perform_collective(
                machine,
                scope,
                line,
                kind,
                root_in(group, root),
                group,
                communicator,
            )
        }
        Prepared::SendReceive {
            destination,
            send_tag,
            source,
            receive_tag,
            communicator,
        } => {
            let call = joined(destination, send_tag, source, receive_tag, communicator);
            put_optional(machine, scope, line, call)
        }
    }
}
