//! Values, and why there is none.

/// The value of an expression or a condition.
#[derive(Clone, Copy)]
pub enum Value {
    /// A number of 64 bits.
    Number(i64),
    /// No rank, `MPI_PROC_NULL` (MPI 4.1, section 3.11): a call with this peer is left out.
    Null,
    /// Of a condition.
    Truth(bool),
}

/// What is wrong on a line. Names are places, from 0, in the list of the text's names.
#[derive(Clone, Copy)]
pub enum FaultReason {
    /// The name has no value there.
    NoValue { name: u32 },
    /// The parameter has neither a setting nor a value of its own.
    NoSetting { name: u32 },
    /// A number beyond 64 bits.
    Overflow,
    /// A divisor that isn't above 0.
    Divisor { divisor: i64 },
    /// A shift by less than 0 or more than 62.
    Shift { by: i64 },
    /// An exclusive or of a number below 0.
    BelowZero { number: i64 },
    /// `null` where a number has to stand: in arithmetic and in comparisons of order, as a tag, a
    /// communicator, an index, a root, an end of a loop, and in a group.
    NullNumber,
    /// A condition where a value has to stand, or the other way round. The grammar has no such
    /// tree.
    Kind,
    /// A peer, a root or an end of a group that is no rank: it isn't 0 to the number of ranks - 1.
    PeerRange { peer: i64 },
    /// A tag that isn't 0 to 32,767, the least upper bound that MPI grants (MPI 4.1, section
    /// 9.1.2).
    TagRange { tag: i64 },
    /// A communicator that isn't 0 to 127.
    CommunicatorRange { communicator: i64 },
    /// An index of a request or handle that isn't 0 to 99,999.
    IndexRange { index: i64 },
    /// An `error` line was reached.
    ErrorReached,
    /// The start of a request or handle whose earlier start was left out and has not ended yet.
    StillOpen { name: u32 },
    /// The start of the request or handle was left out, and its end never comes.
    NeverEnded { name: u32 },
    /// One call more than the limit.
    TooManyCalls,
    /// One turn of a loop more than the limit.
    TooManyTurns,
    /// The step of a group that isn't 1 to 65,535.
    GroupStep { step: i64 },
    /// The rank makes a collective call, or is its root, and isn't one of its group.
    NotInGroup { rank: u32 },
    /// More than 2^26 collective calls of a rank with one communicator and group: there is no tag
    /// below 2^31 left for their messages.
    TooManyCollectives,
    /// More than 2^31 - 128 pairs of a communicator and a group: there is no communicator below
    /// 2^31 left for their messages.
    TooManyGroups,
}
