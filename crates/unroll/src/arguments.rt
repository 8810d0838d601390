//! The arguments of a call, evaluated from left to right.

ghost use Rattle.std.specs.Prelude.{◌≡◌};
ghost use Rattle.unroll.specs.Arguments.{collected, exchanged, matched, matched_received, scoped_message, scoped_pattern, prepared, probed, received, sent, waited};

use crate::call::{Group, Label};
use crate::parts::{
    communicator, group, label, optional_label, optional_tag, peer, root, source, tag,
};
use crate::value::{FaultReason, Value};
use spmd_tree::{Arguments, CollectiveKind, Expression, GroupForm, LabelForm, SendMode};

/// The arguments of a call. A destination or source that is `None` is `null`. A source that is
/// `Some(None)` is a wildcard, and so is a tag that is `None`.
#[derive(Clone, Copy)]
pub(crate) enum Prepared {
    Send {
        mode: SendMode,
        request: Option<Label>,
        destination: Option<u32>,
        tag: u32,
        communicator: u32,
    },
    Receive {
        request: Option<Label>,
        source: Option<Option<u32>>,
        tag: Option<u32>,
        communicator: u32,
    },
    MatchedProbe {
        handle: Label,
        source: Option<Option<u32>>,
        tag: Option<u32>,
        communicator: u32,
    },
    Probe {
        source: Option<Option<u32>>,
        tag: Option<u32>,
        communicator: u32,
    },
    MatchedReceive {
        request: Option<Label>,
        handle: Label,
    },
    Wait {
        request: Label,
    },
    SendReceive {
        destination: Option<u32>,
        send_tag: u32,
        source: Option<Option<u32>>,
        receive_tag: Option<u32>,
        communicator: u32,
    },
    /// No root means the first rank of the group.
    Collective {
        kind: CollectiveKind,
        root: Option<u32>,
        group: Group,
        communicator: u32,
    },
}

/// A source, a tag and a communicator, as in `Prepared`.
#[derive(Clone, Copy)]
pub(crate) struct Pattern {
    pub(crate) source: Option<Option<u32>>,
    pub(crate) tag: Option<u32>,
    pub(crate) communicator: u32,
}

/// A destination and a tag, as in `Prepared`.
#[derive(Clone, Copy)]
pub(crate) struct Message {
    pub(crate) destination: Option<u32>,
    pub(crate) tag: u32,
}

/// The source, the tag and the communicator of a call.
fn matching(
    from: &Option<Expression>,
    wanted: &Option<Expression>,
    on: &Option<Expression>,
    rank: u32,
    size: u32,
    values: &[Option<Value>],
) -> Result<Pattern, FaultReason>
    ensures { result ≡ scoped_pattern from.now wanted.now on.now rank size values.now }
{
    let source = source(from, rank, size, values)?;
    let tag = optional_tag(wanted, rank, size, values)?;
    let communicator = communicator(on, rank, size, values)?;
    Ok(Pattern {
        source,
        tag,
        communicator,
    })
}

/// The destination and the tag of a call.
fn outgoing(
    to: &Expression,
    given: &Expression,
    rank: u32,
    size: u32,
    values: &[Option<Value>],
) -> Result<Message, FaultReason>
    ensures { result ≡ scoped_message to.now given.now rank size values.now }
{
    let destination = peer(to, rank, size, values)?;
    let tag = tag(given, rank, size, values)?;
    Ok(Message { destination, tag })
}

fn sent(
    mode: SendMode,
    request: &Option<LabelForm>,
    to: &Expression,
    given: &Expression,
    on: &Option<Expression>,
    rank: u32,
    size: u32,
    values: &[Option<Value>],
) -> Result<Prepared, FaultReason>
    ensures { result ≡ sent mode request.now to.now given.now on.now rank size values.now }
{
    let request = optional_label(request, rank, size, values)?;
    let message = outgoing(to, given, rank, size, values)?;
    let communicator = communicator(on, rank, size, values)?;
    Ok(Prepared::Send {
        mode,
        request,
        destination: message.destination,
        tag: message.tag,
        communicator,
    })
}

fn received(
    request: &Option<LabelForm>,
    from: &Option<Expression>,
    wanted: &Option<Expression>,
    on: &Option<Expression>,
    rank: u32,
    size: u32,
    values: &[Option<Value>],
) -> Result<Prepared, FaultReason>
    ensures { result ≡ received request.now from.now wanted.now on.now rank size values.now }
{
    let request = optional_label(request, rank, size, values)?;
    let pattern = matching(from, wanted, on, rank, size, values)?;
    Ok(Prepared::Receive {
        request,
        source: pattern.source,
        tag: pattern.tag,
        communicator: pattern.communicator,
    })
}

fn matched(
    handle: &LabelForm,
    from: &Option<Expression>,
    wanted: &Option<Expression>,
    on: &Option<Expression>,
    rank: u32,
    size: u32,
    values: &[Option<Value>],
) -> Result<Prepared, FaultReason>
    ensures { result ≡ matched handle.now from.now wanted.now on.now rank size values.now }
{
    let handle = label(handle, rank, size, values)?;
    let pattern = matching(from, wanted, on, rank, size, values)?;
    Ok(Prepared::MatchedProbe {
        handle,
        source: pattern.source,
        tag: pattern.tag,
        communicator: pattern.communicator,
    })
}

fn probed(
    from: &Option<Expression>,
    wanted: &Option<Expression>,
    on: &Option<Expression>,
    rank: u32,
    size: u32,
    values: &[Option<Value>],
) -> Result<Prepared, FaultReason>
    ensures { result ≡ probed from.now wanted.now on.now rank size values.now }
{
    let pattern = matching(from, wanted, on, rank, size, values)?;
    Ok(Prepared::Probe {
        source: pattern.source,
        tag: pattern.tag,
        communicator: pattern.communicator,
    })
}

fn matched_received(
    request: &Option<LabelForm>,
    handle: &LabelForm,
    rank: u32,
    size: u32,
    values: &[Option<Value>],
) -> Result<Prepared, FaultReason>
    ensures { result ≡ matched_received request.now handle.now rank size values.now }
{
    let request = optional_label(request, rank, size, values)?;
    let handle = label(handle, rank, size, values)?;
    Ok(Prepared::MatchedReceive { request, handle })
}

fn waited(
    request: &LabelForm,
    rank: u32,
    size: u32,
    values: &[Option<Value>],
) -> Result<Prepared, FaultReason>
    ensures { result ≡ waited request.now rank size values.now }
{
    let request = label(request, rank, size, values)?;
    Ok(Prepared::Wait { request })
}

fn exchanged(
    to: &Expression,
    given: &Expression,
    from: &Option<Expression>,
    wanted: &Option<Expression>,
    on: &Option<Expression>,
    rank: u32,
    size: u32,
    values: &[Option<Value>],
) -> Result<Prepared, FaultReason>
    ensures { result ≡ exchanged to.now given.now from.now wanted.now on.now rank size values.now }
{
    let message = outgoing(to, given, rank, size, values)?;
    let pattern = matching(from, wanted, on, rank, size, values)?;
    Ok(Prepared::SendReceive {
        destination: message.destination,
        send_tag: message.tag,
        source: pattern.source,
        receive_tag: pattern.tag,
        communicator: pattern.communicator,
    })
}

fn collected(
    kind: CollectiveKind,
    by: &Option<Expression>,
    among: &Option<GroupForm>,
    on: &Option<Expression>,
    rank: u32,
    size: u32,
    values: &[Option<Value>],
) -> Result<Prepared, FaultReason>
    ensures { result ≡ collected kind by.now among.now on.now rank size values.now }
{
    let root = root(by, rank, size, values)?;
    let group = group(among, rank, size, values)?;
    let communicator = communicator(on, rank, size, values)?;
    Ok(Prepared::Collective {
        kind,
        root,
        group,
        communicator,
    })
}

/// The arguments of the call. They are evaluated from left to right, and the first thing that is
/// wrong is told, also where the call will be left out.
pub(crate) fn prepare(
    arguments: &Arguments,
    rank: u32,
    size: u32,
    values: &[Option<Value>],
) -> Result<Prepared, FaultReason>
    ensures { result ≡ prepared arguments.now rank size values.now }
{
    match arguments {
        Arguments::Send {
            mode,
            request,
            destination,
            tag,
            communicator,
        } => sent(
            *mode,
            request,
            destination,
            tag,
            communicator,
            rank,
            size,
            values,
        ),
        Arguments::Receive {
            request,
            source,
            tag,
            communicator,
        } => received(request, source, tag, communicator, rank, size, values),
        Arguments::MatchedProbe {
            handle,
            source,
            tag,
            communicator,
        } => matched(handle, source, tag, communicator, rank, size, values),
        Arguments::Probe {
            source,
            tag,
            communicator,
        } => probed(source, tag, communicator, rank, size, values),
        Arguments::MatchedReceive { request, handle } => {
            matched_received(request, handle, rank, size, values)
        }
        Arguments::Wait { request } => waited(request, rank, size, values),
        Arguments::SendReceive {
            destination,
            send_tag,
            source,
            receive_tag,
            communicator: on,
        } => exchanged(
            destination,
            send_tag,
            source,
            receive_tag,
            on,
            rank,
            size,
            values,
        ),
        Arguments::Collective {
            kind,
            root,
            group,
            communicator,
        } => collected(*kind, root, group, communicator, rank, size, values),
    }
}
