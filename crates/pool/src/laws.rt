//! What holds of every sound pool, and of every history, apart from any code.

ghost use Rattle.pool.specs.Laws.{LeavesCover, ClosedPoolsRefute, RunsStaySound, RunsAreLegal};
ghost use Rattle.pool.specs.Growth.{LogsGrow, BasesRise, RunsLoseNothing};
ghost use Rattle.pool.specs.Moves.{BatchesMove, ToldStands};

/// The leaves of a pool's tree cover all assignments: each makes all literals of one leaf's path
/// true, and those of no other.
pub fn leaves_cover()
    ensures { LeavesCover }
{}

/// Where no leaf is open, no assignment satisfies the formula.
pub fn closed_pools_refute()
    ensures { ClosedPoolsRefute }
{}

/// Whatever calls are made of a sound pool, with replies that may be given, it stays sound.
pub fn runs_stay_sound()
    ensures { RunsStaySound }
{}

/// After a run of calls the history tells it: taken in order from the opening pool, the entries
/// give this pool.
pub fn runs_are_legal()
    ensures { RunsAreLegal }
{}

/// Whatever calls are made of a pool, its log begins as it did: lines are only added, at the end.
pub fn logs_grow()
    ensures { LogsGrow }
{}

/// In a run of calls each accepted batch has a base past all lines of the batches accepted before
/// it. So the bases of batches that aren't empty rise.
pub fn bases_rise()
    ensures { BasesRise }
{}

/// In a run of calls an accepted fetch, whoever makes it, lacks no line past its start that was
/// published or told before it.
pub fn runs_lose_nothing()
    ensures { RunsLoseNothing }
{}

/// Lines that derive behind a log derive behind any longer one, with the numbers of the batch's own
/// lines moved, where each other number that they name stands before the batch.
pub fn batches_move()
    ensures { BatchesMove }
{}

/// After a run of calls each line that one of them published or was told stands in the log, at that
/// place.
pub fn told_stands()
    ensures { ToldStands }
{}
