//! What an unrolled text is made of: calls with their places, turns of loops, and faults.

use crate::value::FaultReason;
use spmd_tree::SendMode;

/// A request or a handle: a name, by its place from 0 in the list of the text's names, and maybe an
/// index, 0 to 99,999. Two labels are the same where both are.
#[derive(Clone, Copy, PartialEq, Eq, Hash)]
pub struct Label {
    pub name: u32,
    pub index: Option<u32>,
}

/// A call of one rank. A source or tag that is `None` is a wildcard (MPI 4.1, section 3.2.4). Ranks
/// count from 0. The calls that the text has are in communicators 0 to 127, with tags 0 to 32,767;
/// those that a collective call stands for are in communicators of 128 to 2^31 - 1, with tags below
/// 2^31. A line of several waits is several calls here.
#[derive(Clone, Copy)]
pub enum UnrolledCall {
    /// A send, which is started where it has a request (MPI 4.1, sections 3.2.1 and 3.7.2).
    Send {
        mode: SendMode,
        request: Option<Label>,
        destination: u32,
        tag: u32,
        communicator: u32,
    },
    /// A receive, which is started where it has a request (MPI 4.1, sections 3.2.4 and 3.7.2).
    Receive {
        request: Option<Label>,
        source: Option<u32>,
        tag: Option<u32>,
        communicator: u32,
    },
    /// A matched probe (MPI 4.1, section 3.8.2).
    MatchedProbe {
        handle: Label,
        source: Option<u32>,
        tag: Option<u32>,
        communicator: u32,
    },
    /// A probe (MPI 4.1, section 3.8.1).
    Probe {
        source: Option<u32>,
        tag: Option<u32>,
        communicator: u32,
    },
    /// The receive on a handle (MPI 4.1, section 3.8.3).
    MatchedReceive {
        request: Option<Label>,
        handle: Label,
    },
    /// The wait for a request (MPI 4.1, section 3.7.3).
    Wait {
        request: Label,
    },
    /// The first request of a `waitall` line.
    WaitAll {
        request: Label,
    },
    /// A further request of the `waitall` line that the call before is on.
    WaitAlso {
        request: Label,
    },
    /// A send and a receive that are joined (MPI 4.1, section 3.10).
    SendReceive {
        destination: u32,
        send_tag: u32,
        source: Option<u32>,
        receive_tag: Option<u32>,
        communicator: u32,
    },
}

/// A call with its rank, from 0, the line of the text that it was written on, from 1, and the turn
/// of a loop that it was made in, from 1, or 0 where it stands in none.
#[derive(Clone, Copy)]
pub struct Placed {
    pub rank: u32,
    pub line: u32,
    pub turn: u64,
    pub call: UnrolledCall,
}

/// A turn of a loop: the loop's variable and its value, and the turn of the loop around it, 0 where
/// there is none. Turns count from 1, in the order in which they begin, on all ranks.
#[derive(Clone, Copy)]
pub struct Turn {
    pub outer: u64,
    pub name: u32,
    pub value: i64,
}

/// What is wrong, and where: on which rank, from 0, on which line of the text, from 1, and in which
/// turn of a loop, or 0 where the line stands in none.
#[derive(Clone, Copy)]
pub struct Fault {
    pub rank: u32,
    pub line: u32,
    pub turn: u64,
    pub reason: FaultReason,
}

/// The ranks of a collective call: from the first up to the last, each a step above the one before.
#[derive(Clone, Copy, PartialEq, Eq, Hash)]
pub struct Group {
    pub first: u32,
    pub last: u32,
    pub step: u32,
}

/// Those who meet in collective calls: a communicator of the text, 0 to 127, and a set of its
/// ranks, which is spelled in one way.
#[derive(Clone, Copy, PartialEq, Eq, Hash)]
pub(crate) struct Meeting {
    pub(crate) communicator: u32,
    pub(crate) group: Group,
}

/// The rank that made the last collective call of those who meet, and how many it made of them.
#[derive(Clone, Copy)]
pub(crate) struct Attendance {
    pub(crate) rank: u32,
    pub(crate) calls: u32,
}

/// What a call starts: a request, or the handle of a matched probe. Names of requests and of
/// handles are apart.
#[derive(Clone, Copy, PartialEq, Eq, Hash)]
pub(crate) struct Start {
    pub(crate) handle: bool,
    pub(crate) label: Label,
}

/// A start that was left out, and whose end did not come yet.
#[derive(Clone, Copy)]
pub(crate) struct LeftOut {
    pub(crate) start: Start,
    pub(crate) line: u32,
    pub(crate) turn: u64,
}
