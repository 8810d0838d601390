//! Each world in which the clauses of a program hold is that of a stuck run of the program, and so
//! is each assignment that satisfies its formula.

ghost use Rattle.run_from_formula.specs.Laws.{SchedulesAreByClock, WorldsAreStuckRuns, SatisfyingGiveStuckRuns, SatisfiableWhereStuck};

/// The schedule of a world has its events by their clocks, and events of one clock in the order of
/// their list.
pub fn schedules_are_by_clock()
    ensures { SchedulesAreByClock }
{}

/// The schedule of a world in which the clauses of all families of a program hold is a stuck run of
/// the program.
pub fn worlds_are_stuck_runs()
    ensures { WorldsAreStuckRuns }
{}

/// Every assignment that satisfies the formula of a program gives a stuck run of the program.
pub fn satisfying_give_stuck_runs()
    ensures { SatisfyingGiveStuckRuns }
{}

/// The formula of a program can be satisfied exactly where the program has a stuck run.
pub fn satisfiable_where_stuck()
    ensures { SatisfiableWhereStuck }
{}
