//! The families of clauses.

/// A family of clauses. Most have a block of clauses for each call or for each pair; what they say
/// is the definition `family_of`.
#[derive(Clone, Copy, PartialEq, Eq)]
pub enum Family {
    /// By call: where it is issued, the call directly before it in its rank is issued, and earlier.
    IssueOrder,
    /// By call: where it is issued, the call directly before it in its rank has returned, and
    /// before.
    ReturnOrder,
    /// By pair of a send and a taker, as the next four: where it is matched, both calls are issued,
    /// and before.
    MatchOrder,
    /// By pair: it isn't matched together with a later pair of the same send or taker.
    MatchedOnce,
    /// By pair: its match doesn't overtake that of an earlier send.
    SendOrder,
    /// By pair: its match doesn't overtake that of an earlier taker.
    TakerOrder,
    /// By pair: where both calls are issued, one of them is matched.
    NoPairWaits,
    /// By call: it is issued where the call directly before it in its rank has returned, or where
    /// there is none.
    NoIssueWaits,
    /// By call: where it is the last one of its rank and has returned, the rank isn't unfinished.
    /// And behind them, in one block: some rank is unfinished.
    SomeUnfinished,
    /// By call: whether a standard send is buffered, as the policy says.
    Buffering,
    /// By pair of a send and a probe: what is said of a see.
    Sees,
}
