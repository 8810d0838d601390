//! The search for a run that finishes.

ghost use Rattle.std.specs.Prelude.{◌≡◌, IfOk};
ghost use Rattle.frequency.specs.Frequencies.{IsFrequency};
ghost use Rattle.finishing.specs.Formula.{finishing_formula_of};

use crate::checking::is_refuted;
use crate::finishing_formula::finishing_formula;
use crate::following::finished_run;
use cdcl::{Found, SolveFault, Solver};
use clauses::Formula;
use encode::Encoded;
use frequency::Frequency;
use std::alloc::{AllocError, Global};

/// What a search of the formula finds until so many conflicts were counted. Whoever takes it checks
/// it.
fn searched(alloc: Global, formula: &Formula, conflicts: u64) -> Result<Found, AllocError> {
    let mut solver = Solver::new(alloc, formula, &[])?;
    match solver.search(alloc, &[], conflicts) {
        Ok(found) => Ok(found),
        Err(SolveFault::Memory) => Err(AllocError),
        Err(SolveFault::Spent) => unreachable!(),
        Err(SolveFault::Foreign) => unreachable!(),
    }
}

/// What is found of the formula of the runs that finish, and then checked, tells of all runs.
fn judge_found(
    alloc: Global,
    encoded: &Encoded,
    formula: &Formula,
    found: Found,
) -> Result<Frequency, AllocError>
    requires formula { formula.now ≡ finishing_formula_of encoded.now.program }
    requires unknown { IsFrequency encoded.now.program Frequency.Unknown }
    ensures { IfOk result (IsFrequency encoded.now.program) }
{
    let _calls = encoded.program().calls();
    match found {
        Found::Closed(batch, last) => {
            let refuted = is_refuted(alloc, formula, batch, last)?;
            if refuted {
                return Ok(Frequency::Always);
            }
            Ok(Frequency::Unknown)
        }
        Found::Model(assignment) => {
            let run = finished_run(alloc, encoded, &assignment)?;
            match run {
                Some(steps) => Ok(Frequency::Sometimes(steps)),
                None => Ok(Frequency::Unknown),
            }
        }
        Found::Budget(_batch) => Ok(Frequency::Unknown),
    }
}

/// How often the runs of a program get stuck, by a formula that is satisfied where some run
/// finishes, where one run doesn't tell it. That formula is made of the program's own.
///
/// One thread searches it until it finds an assignment, or shows that there is none, or has counted
/// so many conflicts; with none to count it gives up at once. `Always` is told where the search's
/// lines derive from the formula and refute it, and `Sometimes` with a run that the assignment
/// tells, taken step by step to its end. Else `Unknown` is told: where the conflicts are used up,
/// or where the lines or the run don't hold. So no answer rests on the search. That `Always` or
/// `Sometimes` is told is promised of no program.
///
/// The only error is want of memory. The formula is held once more, and the solver keeps its
/// clauses; then the lines of a refutation are held while they are checked. Their memory grows with
/// the conflicts.
pub fn frequency_of_encoded(
    alloc: Global,
    encoded: &Encoded,
    conflicts: u64,
) -> Result<Frequency, AllocError>
    requires { IsFrequency encoded.now.program Frequency.Unknown }
    ensures { IfOk result (IsFrequency encoded.now.program) }
{
    let made = finishing_formula(alloc, encoded)?;
    let Some(formula) = made else {
        return Ok(Frequency::Unknown);
    };
    let found = searched(alloc, &formula, conflicts)?;
    judge_found(alloc, encoded, &formula, found)
}
