//! Policies and call lines.

use crate::name::{Name, Names};

/// Whether a standard send is buffered, which MPI leaves open (MPI 4.1, section 3.4).
#[derive(Clone, Copy, PartialEq, Eq)]
pub enum Policy {
    /// Each standard send is buffered or not, freely; written `any`.
    Any,
    /// No standard send is buffered; written `none`.
    Never,
    /// Each standard send is buffered; written `all`.
    Always,
}

/// When a send completes (MPI 4.1, section 3.4).
#[derive(Clone, Copy, PartialEq, Eq)]
pub enum Mode {
    /// When the message is buffered or has been received; MPI chooses.
    Standard,
    /// When a matching receive has started to receive the message.
    Synchronous,
    /// At once. Buffer space is taken to be ample.
    Buffered,
}

/// A call line as it is written. A communicator that isn't written is none here, and means 0. A
/// call with a request is nonblocking. No source or no tag is a wildcard. Ranks count from 0.
#[derive(Drop)]
pub enum CallLine {
    /// `send`, `ssend` or `bsend` (MPI 4.1, section 3.4); with a request `isend`, `issend` or
    /// `ibsend` (section 3.7.2).
    Send {
        mode: Mode,
        request: Option<Name>,
        destination: u32,
        tag: u32,
        communicator: Option<u32>,
    },
    /// `recv` (section 3.2.4); with a request `irecv` (section 3.7.2).
    Receive {
        request: Option<Name>,
        source: Option<u32>,
        tag: Option<u32>,
        communicator: Option<u32>,
    },
    /// `mprobe` (section 3.8.2).
    MatchedProbe {
        handle: Name,
        source: Option<u32>,
        tag: Option<u32>,
        communicator: Option<u32>,
    },
    /// `probe` (section 3.8.1), which takes no message out.
    Probe {
        source: Option<u32>,
        tag: Option<u32>,
        communicator: Option<u32>,
    },
    /// `mrecv` (section 3.8.3); with a request `imrecv`.
    MatchedReceive {
        request: Option<Name>,
        handle: Name,
    },
    /// `wait` (section 3.7.3).
    Wait {
        request: Name,
    },
    /// `waitall` (section 3.7.5), with one request or more.
    WaitAll {
        requests: Names,
    },
    /// `sendrecv` (section 3.10). The communicator is that of both parts.
    SendReceive {
        destination: u32,
        send_tag: u32,
        source: Option<u32>,
        receive_tag: Option<u32>,
        communicator: Option<u32>,
    },
}
