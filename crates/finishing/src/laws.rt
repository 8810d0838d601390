//! What the formula of the runs that finish tells of a program.

ghost use Rattle.finishing.specs.Laws.{FinishedRunsSatisfyFormula, SatisfyingGiveFinishedRuns, SatisfiableWhereFinished, UnsatisfiableGetStuck};

/// A run that finishes, and that nothing can follow, gives an assignment that satisfies the formula
/// of the runs that finish.
pub fn finished_runs_satisfy_formula()
    ensures { FinishedRunsSatisfyFormula }
{}

/// Every assignment that satisfies the formula of the runs that finish gives a run of the program
/// in which all ranks finish.
pub fn satisfying_give_finished_runs()
    ensures { SatisfyingGiveFinishedRuns }
{}

/// The formula of the runs that finish can be satisfied exactly where some run of the program
/// finishes.
pub fn satisfiable_where_finished()
    ensures { SatisfiableWhereFinished }
{}

/// Where nothing satisfies the formula of the runs that finish, each run of the program gets stuck.
pub fn unsatisfiable_get_stuck()
    ensures { UnsatisfiableGetStuck }
{}
