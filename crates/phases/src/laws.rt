//! Laws of programs that are cut into parts. Each function does nothing: its contract is the law.

ghost use Rattle.phases.specs.Laws.{BalancedIsClean, CounterpartsComeFirst, FrontIsJoined, JoinIsJoined, JoinedIsCut, LastPhase, LeavesNothingIsBalanced, MessagesOrder, NamedIsTimely, NamedPhasesAreNeverStuck, OnePhaseMore, OrderedIsTimely, OrderedPhasesAreNeverStuck, ProgramsAreWellFormed, TimelyPhasesAreNeverStuck, WholeIsNeverStuck};

/// Each program within any limits keeps what is asked of parts and phases.
pub fn programs_are_well_formed()
    ensures { ProgramsAreWellFormed }
{}

/// Where a cut is clean and neither part has a stuck run, the whole has none.
pub fn whole_is_never_stuck()
    ensures { WholeIsNeverStuck }
{}

/// Where the first part is balanced and has no stuck run, and no send of the second comes in time
/// for a finder of the first, the cut is clean.
pub fn balanced_is_clean()
    ensures { BalancedIsClean }
{}

/// A part that takes all that is sent in it leaves nothing for whatever follows.
pub fn leaves_nothing_is_balanced()
    ensures { LeavesNothingIsBalanced }
{}

/// Where each finder of the first part names its source, no send of the second comes in time for
/// it.
pub fn named_is_timely()
    ensures { NamedIsTimely }
{}

/// Where all takers name an envelope, one is matched only after the send that is as many-th was
/// issued.
pub fn counterparts_come_first()
    ensures { CounterpartsComeFirst }
{}

/// What comes after a finder by messages is issued only after the finder has found a message.
pub fn messages_order()
    ensures { MessagesOrder }
{}

/// Where each send of the second part that fits a finder of the first is of its only sender, or
/// comes after it by messages, none comes in time.
pub fn ordered_is_timely()
    ensures { OrderedIsTimely }
{}

/// Two programs that are joined are a cut of the whole.
pub fn joined_is_cut()
    ensures { JoinedIsCut }
{}

/// Two programs of one policy and as many ranks can be joined, and what is joined is well formed.
pub fn join_is_joined()
    ensures { JoinIsJoined }
{}

/// Phases, as many as there are, none of which has a stuck run and each of which leaves no message
/// to a later one, have no stuck run one after another where no send of a later one comes in time
/// for a finder of an earlier one.
pub fn timely_phases_are_never_stuck()
    ensures { TimelyPhasesAreNeverStuck }
{}

/// So where each phase but the last names its sources.
pub fn named_phases_are_never_stuck()
    ensures { NamedPhasesAreNeverStuck }
{}

/// So where sends of later phases come after finders of earlier ones by messages.
pub fn ordered_phases_are_never_stuck()
    ensures { OrderedPhasesAreNeverStuck }
{}

/// The first calls of each rank, and what is left of the program behind them, are the program when
/// they are joined.
pub fn front_is_joined()
    ensures { FrontIsJoined }
{}

/// A program has no stuck run where a phase in front of it and what is left behind it have none,
/// and the phase leaves no message and names its sources.
pub fn one_phase_more()
    ensures { OnePhaseMore }
{}

/// So where nothing is left behind the phase, whatever it leaves.
pub fn last_phase()
    ensures { LastPhase }
{}
