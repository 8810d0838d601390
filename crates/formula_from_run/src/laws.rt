//! The clauses of a program hold in the worlds of its stuck runs, family by family, and its formula
//! is satisfied by what each stuck run gives. Most families hold in the worlds of more runs: of
//! all, or of all that nothing can follow.

ghost use Rattle.formula_from_run.specs.Laws.{ProbesSeeMessages, CallsAreIssuedInOrder, CallsAreIssuedAfterReturns, MatchesComeAfterIssues, CallsAreMatchedOnce, NoSendOvertakes, NoTakerOvertakes, NoPairWaits, NoIssueWaits, SomeRankIsUnfinished, ClocksDiffer, SendsAreBufferedAsAllowed, StuckRunsSatisfyFormula, UnsatisfiableHaveNoStuckRun};

/// In the world of a run calls are issued in order.
pub fn calls_are_issued_in_order()
    ensures { CallsAreIssuedInOrder }
{}

/// In the world of a run calls are issued after returns.
pub fn calls_are_issued_after_returns()
    ensures { CallsAreIssuedAfterReturns }
{}

/// In the world of a run matches come after issues.
pub fn matches_come_after_issues()
    ensures { MatchesComeAfterIssues }
{}

/// In the world of a run calls are matched once.
pub fn calls_are_matched_once()
    ensures { CallsAreMatchedOnce }
{}

/// In the world of a run sends don't overtake.
pub fn sends_do_not_overtake()
    ensures { NoSendOvertakes }
{}

/// In the world of a run takers don't overtake.
pub fn takers_do_not_overtake()
    ensures { NoTakerOvertakes }
{}

/// In the world of a run that nothing can follow no pair waits.
pub fn no_pair_waits()
    ensures { NoPairWaits }
{}

/// In the world of a run that nothing can follow no issue waits.
pub fn no_issue_waits()
    ensures { NoIssueWaits }
{}

/// In the world of a stuck run some rank is unfinished.
pub fn some_rank_is_unfinished()
    ensures { SomeRankIsUnfinished }
{}

/// In the world of a run the clocks of different events differ.
pub fn clocks_differ()
    ensures { ClocksDiffer }
{}

/// In the world of a run standard sends are buffered as the policy says.
pub fn sends_are_buffered_as_allowed()
    ensures { SendsAreBufferedAsAllowed }
{}

/// A stuck run gives an assignment that satisfies the formula of its program.
pub fn stuck_runs_satisfy_formula()
    ensures { StuckRunsSatisfyFormula }
{}

/// A program whose formula no assignment satisfies has no stuck run.
pub fn unsatisfiable_have_no_stuck_run()
    ensures { UnsatisfiableHaveNoStuckRun }
{}

/// In the world of a run that nothing can follow probes see messages.
pub fn probes_see_messages()
    ensures { ProbesSeeMessages }
{}
