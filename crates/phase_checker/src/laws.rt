//! What phases show. Each function does nothing: its contract is the law.

ghost use Rattle.phase_checker.specs.Laws.{JoinedAreNeverStuck, JoinedHaveNoFault, OneJoinFault};

/// Where phases make up the program of a text, no run of it gets stuck.
pub fn joined_are_never_stuck()
    ensures { JoinedAreNeverStuck }
{}

/// Nothing is wrong where phases make up the program of a text.
pub fn joined_have_no_fault()
    ensures { JoinedHaveNoFault }
{}

/// One thing alone is wrong first with phases, so each reason comes exactly where it is right, the
/// text's own faults and want of memory aside.
pub fn one_fault()
    ensures { OneJoinFault }
{}
