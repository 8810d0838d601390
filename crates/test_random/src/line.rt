//! Call lines, and how they are written.

use callorder::{Message, Mode, Pattern};
use std::alloc::{AllocError, Global};

/// A call line. Requests and handles are numbers from 1, and with a request a call is nonblocking.
#[derive(Clone, Copy)]
pub enum Line {
    Send {
        mode: Mode,
        request: Option<u32>,
        message: Message,
    },
    Receive {
        request: Option<u32>,
        pattern: Pattern,
    },
    MatchedProbe {
        handle: u32,
        pattern: Pattern,
    },
    Probe {
        pattern: Pattern,
    },
    MatchedReceive {
        request: Option<u32>,
        handle: u32,
    },
    Wait {
        request: u32,
    },
    WaitAll {
        first: u32,
        second: u32,
    },
    /// The communicator is the message's.
    SendReceive {
        message: Message,
        source: Option<u32>,
        tag: Option<u32>,
    },
}

impl Line {
    /// Whether it is a blocking receive.
    pub fn is_blocking_receive(&self) -> bool {
        match self {
            Line::Receive { request, .. } => request.is_none(),
            _ => false,
        }
    }

    /// The requests and handles that it names, which no request and handle share.
    fn names(&self) -> [Option<u32>; 2] {
        match self {
            Line::Send { request, .. } => [*request, None],
            Line::Receive { request, .. } => [*request, None],
            Line::MatchedProbe { handle, .. } => [Some(*handle), None],
            Line::Probe { .. } => [None, None],
            Line::MatchedReceive { request, handle } => [*request, Some(*handle)],
            Line::Wait { request } => [Some(*request), None],
            Line::WaitAll { first, second } => [Some(*first), Some(*second)],
            Line::SendReceive { .. } => [None, None],
        }
    }

    /// Whether both name one request or handle.
    pub fn shares_name(&self, other: &Line) -> bool {
        let [one, two] = self.names();
        other.has_name(one) || other.has_name(two)
    }

    fn has_name(&self, name: Option<u32>) -> bool {
        let [one, two] = self.names();
        name.is_some() && (one == name || two == name)
    }

    /// The line as it is written, without its end.
    pub fn text(&self, alloc: Global) -> Result<String, AllocError> {
        match self {
            Line::Send {
                mode,
                request,
                message,
            } => send_text(alloc, *mode, *request, *message),
            Line::Receive { request, pattern } => receive_text(alloc, *request, *pattern),
            Line::MatchedProbe { handle, pattern } => matched_probe_text(alloc, *handle, *pattern),
            Line::Probe { pattern } => probe_text(alloc, *pattern),
            Line::MatchedReceive { request, handle } => {
                matched_receive_text(alloc, *request, *handle)
            }
            Line::Wait { request } => wait_text(alloc, *request),
            Line::WaitAll { first, second } => wait_all_text(alloc, *first, *second),
            Line::SendReceive {
                message,
                source,
                tag,
            } => send_receive_text(alloc, *message, *source, *tag),
        }
    }
}

fn send_text(
    alloc: Global,
    mode: Mode,
    request: Option<u32>,
    message: Message,
) -> Result<String, AllocError> {
    let verb = match mode {
        Mode::Standard => "send",
        Mode::Synchronous => "ssend",
        Mode::Buffered => "bsend",
    };
    let message = message_text(alloc, message)?;
    match request {
        None => format!(in alloc; "{verb} {message}"),
        Some(request) => format!(in alloc; "i{verb} q{request} {message}"),
    }
}

fn receive_text(
    alloc: Global,
    request: Option<u32>,
    pattern: Pattern,
) -> Result<String, AllocError> {
    let pattern = pattern_text(alloc, pattern)?;
    match request {
        None => format!(in alloc; "recv {pattern}"),
        Some(request) => format!(in alloc; "irecv q{request} {pattern}"),
    }
}

fn matched_probe_text(alloc: Global, handle: u32, pattern: Pattern) -> Result<String, AllocError> {
    let pattern = pattern_text(alloc, pattern)?;
    format!(in alloc; "mprobe h{handle} {pattern}")
}

fn probe_text(alloc: Global, pattern: Pattern) -> Result<String, AllocError> {
    let pattern = pattern_text(alloc, pattern)?;
    format!(in alloc; "probe {pattern}")
}

fn matched_receive_text(
    alloc: Global,
    request: Option<u32>,
    handle: u32,
) -> Result<String, AllocError> {
    match request {
        None => format!(in alloc; "mrecv h{handle}"),
        Some(request) => format!(in alloc; "imrecv q{request} h{handle}"),
    }
}

fn wait_text(alloc: Global, request: u32) -> Result<String, AllocError> {
    format!(in alloc; "wait q{request}")
}

fn wait_all_text(alloc: Global, first: u32, second: u32) -> Result<String, AllocError> {
    format!(in alloc; "waitall q{first} q{second}")
}

fn send_receive_text(
    alloc: Global,
    message: Message,
    source: Option<u32>,
    tag: Option<u32>,
) -> Result<String, AllocError> {
    let Message {
        destination,
        tag: sent,
        communicator,
    } = message;
    let pattern = Pattern {
        source,
        tag,
        communicator,
    };
    let pattern = pattern_text(alloc, pattern)?;
    format!(in alloc; "sendrecv {destination} {sent} {pattern}")
}

fn message_text(alloc: Global, message: Message) -> Result<String, AllocError> {
    let Message {
        destination,
        tag,
        communicator,
    } = message;
    let end = communicator_text(alloc, communicator)?;
    format!(in alloc; "{destination} {tag}{end}")
}

fn pattern_text(alloc: Global, pattern: Pattern) -> Result<String, AllocError> {
    let source = number_text(alloc, pattern.source)?;
    let tag = number_text(alloc, pattern.tag)?;
    let end = communicator_text(alloc, pattern.communicator)?;
    format!(in alloc; "{source} {tag}{end}")
}

/// A number, or `*` for any.
fn number_text(alloc: Global, number: Option<u32>) -> Result<String, AllocError> {
    match number {
        None => String::from_str(alloc, "*"),
        Some(number) => format!(in alloc; "{number}"),
    }
}

/// The end of a line with this communicator; 0 isn't written.
fn communicator_text(alloc: Global, communicator: u32) -> Result<String, AllocError> {
    if communicator == 0 {
        return Ok(String::new(alloc));
    }
    format!(in alloc; " comm {communicator}")
}
