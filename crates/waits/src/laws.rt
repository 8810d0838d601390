//! What holds where a program is stuck, apart from any code.

ghost use Rattle.waits.specs.Laws.{StuckRanksWaitInOneCall, NoRankIsReadyWhereStuck, FitCallsAreNotBothOpen, NeededCallsAreNotOpen, WaitingRanksNeed};
ghost use Rattle.waits.specs.MissLaws.{MissedPartsAreTheOnlyOnes, FitCallsMissNoPart};

/// In a stuck state each rank that is not finished waits in exactly one call.
pub fn stuck_ranks_wait_in_one_call()
    ensures { StuckRanksWaitInOneCall }
{}

/// In a stuck state each rank is finished or waits in a call.
pub fn no_rank_is_ready_where_stuck()
    ensures { NoRankIsReadyWhereStuck }
{}

/// In a stuck state no send and no receive, matched probe or probe that it fits are both issued,
/// the send unmatched and the other without a message.
pub fn fit_calls_are_not_both_open()
    ensures { FitCallsAreNotBothOpen }
{}

/// Where a rank waits for a match in a stuck state, each call that fits is taken or not issued.
pub fn needed_calls_are_not_open()
    ensures { NeededCallsAreNotOpen }
{}

/// After each run a rank that waits needs something that has not come: a match, a message to see,
/// or the receive on the handle of a matched probe.
pub fn waiting_ranks_need()
    ensures { WaitingRanksNeed }
{}

/// The part that is told of a send and a receive, a matched probe or a probe is one that fails, and
/// all others hold; and where exactly one fails, it is told.
pub fn missed_parts_are_the_only_ones()
    ensures { MissedPartsAreTheOnlyOnes }
{}

/// A send fits a receive, a matched probe or a probe exactly where no part fails, and then none is
/// told as missed.
pub fn fit_calls_miss_no_part()
    ensures { FitCallsMissNoPart }
{}
