//! What each run of the machine keeps, apart from any code.

ghost use Rattle.run_laws.specs.Laws.{SomeFindIsPossible, SomeMatchOrSeeIsEnabled, FoundOnce, NoOpenPairWhereStuck, EarlierSendsMatchFirst, EarlierTakersMatchFirst, IssuedBeforeMatched, EarlierCallsIssueFirst, CallBeforeHasReturned, BlockingTakersMatchFirst, MatchedOnce, IssuedOnce};

/// Where a send and a finder that fit are issued, the send is unmatched and the finder has found
/// none, some find is possible, of these two or of earlier calls of their ranks.
pub fn some_find_is_possible()
    ensures { SomeFindIsPossible }
{}

/// In a stuck configuration one of two issued calls that fit is matched, or is a probe that has
/// seen a message.
pub fn no_open_pair_where_stuck()
    ensures { NoOpenPairWhereStuck }
{}

/// No send overtakes, by a match or by a see: each earlier one of its rank that fits the same
/// finder is matched by an earlier step.
pub fn earlier_sends_match_first()
    ensures { EarlierSendsMatchFirst }
{}

/// No finder overtakes: each earlier taker of its rank that the same send fits is matched by an
/// earlier step.
pub fn earlier_takers_match_first()
    ensures { EarlierTakersMatchFirst }
{}

/// The send and the taker that a step matches are issued by earlier steps.
pub fn issued_before_matched()
    ensures { IssuedBeforeMatched }
{}

/// Where a step issues a call, each earlier call of its rank is issued by an earlier step.
pub fn earlier_calls_issue_first()
    ensures { EarlierCallsIssueFirst }
{}

/// Where a step issues a call, the call before it in its rank has returned.
pub fn call_before_has_returned()
    ensures { CallBeforeHasReturned }
{}

/// A blocking receive or a matched probe is matched before the next call of its rank is issued.
pub fn blocking_takers_match_first()
    ensures { BlockingTakersMatchFirst }
{}

/// No call is matched by two steps of a run.
pub fn matched_once()
    ensures { MatchedOnce }
{}

/// No call is issued by two steps of a run.
pub fn issued_once()
    ensures { IssuedOnce }
{}

/// Where a send and a finder that fit are issued, the send is unmatched and the finder has found
/// none, some match or see is enabled.
pub fn some_match_or_see_is_enabled()
    ensures { SomeMatchOrSeeIsEnabled }
{}

/// In a run no finder finds a send by two steps.
pub fn found_once()
    ensures { FoundOnce }
{}
