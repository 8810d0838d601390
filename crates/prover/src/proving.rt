//! The search for an answer.

ghost use Rattle.std.specs.Prelude.{◌≡◌, ℕ, List, IfErr, IfNone, IfOk, IfSome};
ghost use Rattle.callorder.specs.Programs.{MpiProgram};
ghost use Rattle.callorder.specs.Resolving.{IsTextOf};
ghost use Rattle.checker.specs.Verdicts.{HasFormula};
ghost use Rattle.prover.specs.Answers.{IsAnswer, FinishesIfUnknown, HasNoFormulaText};
ghost use Rattle.formula.specs.Numbering.{formula_of};
ghost use Rattle.pool.specs.Evidence.{IsUndecidedPool};
ghost use Rattle.prover.specs.parts.Searches.{HasRunThatFinishes, IsEvidenceOn, IsOver, IsUnknownFor, unnoted};

use crate::answer::Answer;
use crate::explore::stuck_walk;
use crate::search::{pool_of, smallest_with};
use callorder::Program;
use checker::{Reason, formula_of, program_of};
use encode::Encoded;
use options::Options;
use pool::{AssembleFault, Pool, Why, schedule_of_run};
use prooflog::{Evidence, Refutation, Schedule, TrimFault, trim_in_place, write_evidence_in};
use std::alloc::{AllocError, Global};
use std::sync::Wait;
use std::thread::Threads;
use workers::Gate;

/// In how many portions an evidence is written: as many as there are workers, since more threads
/// would take memory that wasn't used before.
fn part_count(options: Options) -> usize {
    options.workers() as usize
}

/// The answer of a refutation, for each program on which it is an evidence. It is written in so
/// many portions.
fn told_refutation<R: Threads + Sync>(
    rt: &R,
    alloc: Global,
    refutation: Refutation,
    parts: usize,
) -> Answer
    ensures { (p : MpiProgram) (text : List ℕ) → IsEvidenceOn p (Evidence.Refutation refutation) → IsTextOf text p → IsAnswer text result }
{
    match write_evidence_in(rt, alloc, Evidence::Refutation(refutation), parts) {
        Ok(text) => Answer::NoDeadlock(text),
        Err(AllocError) => Answer::Unknown(Why::Memory),
    }
}

/// The answer of a schedule, for each program on which it is an evidence.
fn told_schedule<R: Threads + Sync>(rt: &R, alloc: Global, schedule: Schedule) -> Answer
    ensures answer { (p : MpiProgram) (text : List ℕ) → IsEvidenceOn p (Evidence.Schedule schedule) →
        IsTextOf text p → IsAnswer text result }
    ensures finishes { (budget : ℕ) (text : List ℕ) → FinishesIfUnknown budget text result }
{
    match write_evidence_in(rt, alloc, Evidence::Schedule(schedule), 1) {
        Ok(text) => Answer::Deadlock(text),
        Err(AllocError) => Answer::Unknown(Why::Memory),
    }
}

/// The answer of an evidence, of which a refutation is written in so many portions.
fn tell<R: Threads + Sync>(rt: &R, alloc: Global, evidence: Evidence, parts: usize) -> Answer
    ensures { (p : MpiProgram) (text : List ℕ) → IsEvidenceOn p evidence → IsTextOf text p → IsAnswer text result }
{
    match evidence {
        Evidence::Refutation(refutation) => told_refutation(rt, alloc, refutation, parts),
        Evidence::Schedule(schedule) => told_schedule(rt, alloc, schedule),
    }
}

/// Leaves out of the evidence the lines that aren't needed. One that can't be trimmed, such as a
/// schedule, stays as it is.
fn shorten(alloc: Global, evidence: &mut Evidence) -> Result<(), AllocError>
    ensures { (p : MpiProgram) → IsEvidenceOn p evidence.old → IsEvidenceOn p evidence.new }
{
    match trim_in_place(alloc, evidence) {
        Ok(()) => Ok(()),
        Err(TrimFault::Memory) => Err(AllocError),
        Err(TrimFault::Number | TrimFault::NotRefutation) => Ok(()),
    }
}

/// The answer of what a pool assembled, which is written in so many portions. A reason for which a
/// worker left may be noted.
fn tell_trimmed<R: Threads + Sync>(
    rt: &R,
    alloc: Global,
    noted: Option<Why>,
    mut evidence: Evidence,
    parts: usize,
) -> Answer
    ensures { (p : MpiProgram) (text : List ℕ) → HasFormula p → IsEvidenceOn p evidence → IsTextOf text p → IsAnswer text result }
{
    match shorten(alloc, &mut evidence) {
        Ok(()) => tell(rt, alloc, evidence, parts),
        Err(AllocError) => Answer::Unknown(smallest_with(noted, Why::Memory)),
    }
}

/// The reason that counts beside those that are noted at the end of a search, in which memory may
/// have been wanting.
fn reason_beside(was_short: bool) -> Why
    ensures { result ≡ unnoted was_short }
{
    if was_short { Why::Memory } else { Why::Left }
}

/// What a pool says at the end of a search, in which memory may have been wanting. A leaf that is
/// open for no reason that was noted counts as left. An evidence is written in so many portions.
fn answer_of<R: Threads + Sync>(
    rt: &R,
    alloc: Global,
    pool: Pool,
    was_short: bool,
    parts: usize,
) -> Answer
    requires { IsOver pool.held }
    ensures answer { (text : List ℕ) → IsTextOf text pool.held.program → IsAnswer text result }
    ensures undecided { IsUndecidedPool pool.held → IsUnknownFor pool.held.reasons was_short result }
{
    let noted = pool.status().why;
    match pool.into_evidence(alloc) {
        Ok(evidence) => tell_trimmed(rt, alloc, noted, evidence, parts),
        Err(AssembleFault::Memory) => Answer::Unknown(smallest_with(noted, Why::Memory)),
        Err(AssembleFault::Open) => Answer::Unknown(smallest_with(noted, reason_beside(was_short))),
    }
}

/// The answer of the walks, where one of them ends stuck or memory runs out.
fn walk<R: Threads + Sync>(rt: &R, alloc: Global, program: &Program) -> Option<Answer>
    ensures some { IfSome result (λ answer. (text : List ℕ) → IsTextOf text program.now → IsAnswer text answer) }
    ensures finishes { IfSome result (λ answer. (budget : ℕ) (text : List ℕ) → FinishesIfUnknown budget text answer) }
    ensures none { IfNone result (HasRunThatFinishes program.now) }
{
    match stuck_walk(alloc, program) {
        Ok(Some(steps)) => {
            let schedule = schedule_of_run(program, steps);
            Some(told_schedule(rt, alloc, schedule))
        }
        Ok(None) => None,
        Err(AllocError) => Some(Answer::Unknown(Why::Memory)),
    }
}

/// The answer of a search over a formula.
fn answer_over<G: Gate + Sync, R: Threads + Wait + Sync>(
    rt: &R,
    alloc: Global,
    encoded: Encoded,
    options: Options,
    gate: &G,
) -> Answer
    requires formula { encoded.formula ≡ formula_of encoded.program }
    requires within { HasFormula encoded.program }
    ensures { (text : List ℕ) → IsTextOf text encoded.program → IsAnswer text result }
{
    gate.formed(encoded.formula().len());
    match pool_of(rt, alloc, encoded, options, gate) {
        Ok((pool, was_short)) => answer_of(rt, alloc, pool, was_short, part_count(options)),
        Err(why) => Answer::Unknown(why),
    }
}

/// The answer of a search over the formula of the program, or why it has none.
fn search<G: Gate + Sync, R: Threads + Wait + Sync>(
    rt: &R,
    alloc: Global,
    program: Program,
    options: Options,
    gate: &G,
) -> Result<Answer, Reason>
    ensures answer { IfOk result (λ answer. (text : List ℕ) → IsTextOf text program → IsAnswer text answer) }
    ensures reason { IfErr result (λ reason. (text : List ℕ) → IsTextOf text program → HasNoFormulaText text reason) }
{
    match formula_of(rt, alloc, program) {
        Ok(encoded) => Ok(answer_over(rt, alloc, encoded, options, gate)),
        Err(reason) => Err(reason),
    }
}

/// The answer of the walks, if there is a budget, and then of the search, or why the text has
/// neither.
fn walk_then_search<G: Gate + Sync, R: Threads + Wait + Sync>(
    rt: &R,
    alloc: Global,
    text: &[u8],
    options: Options,
    gate: &G,
) -> Result<Answer, Reason>
    ensures answer { IfOk result (IsAnswer text.now) }
    ensures finishes { IfOk result (FinishesIfUnknown options.budget text.now) }
    ensures reason { IfErr result (HasNoFormulaText text.now) }
{
    let program = match program_of(alloc, text) {
        Ok(program) => program,
        Err(reason) => return Err(reason),
    };
    if options.budget() == 0 {
        return search(rt, alloc, program, options, gate);
    }
    match walk(rt, alloc, &program) {
        Some(answer) => Ok(answer),
        None => search(rt, alloc, program, options, gate),
    }
}

/// Looks for an answer to a program's text.
///
/// `NoDeadlock` and `Deadlock` come with the text of an evidence for which `verdict` gives the same
/// answer on this program's text, want of memory aside. Where `NoDeadlock` is answered, no run of
/// the program ends where some rank is unfinished and no step is enabled; where `Deadlock` is, the
/// evidence's schedule is such a run. `Refused` tells the first fault of the program's text, or the
/// first limit that its formula passes: 8,192 fitting pairs, 1,024 events, 4,000,000 clauses.
/// `Unknown(Memory)` is want of memory. Another `Unknown` comes only for a program's text whose
/// formula is within the limits, and with a budget above 0 only where some run ends with all ranks
/// finished.
///
/// Walks come first, before any formula is made, if the budget is above 0: runs that go on until no
/// step is enabled. They differ in whether they buffer, whether they match or issue first, and
/// which rank and which match comes first, and then for each rank one holds it back as long as it
/// can. Where none ends stuck, the whole formula is searched for at most 4,000 conflicts, which
/// count for worker 0; where there are several workers, all but the first 500, and one for each
/// 1,000 clauses, beside them. Then as many workers as the options say search the cubes of the tree
/// that `split` gives at the depth of the options, each with the budget of the options and in a
/// thread of its own where one can be started. Cube k of the first tree, from 0 in the order of its
/// nodes, goes to worker k modulo their number; a worker without cubes takes another's. Each
/// searches over sets of matched calls, too, in turn with cubes; these sets are shared. Who refutes
/// the formula first closes all cubes. The options may ask for some of these searches alone.
/// `gate.formed` is called once there is a formula, `gate.before` before each cube, and
/// `gate.after` after each search.
pub fn prove<G: Gate + Sync, R: Threads + Wait + Sync>(
    rt: &R,
    alloc: Global,
    program: &[u8],
    options: Options,
    gate: &G,
) -> Answer
    ensures answers { IsAnswer program.now result }
    ensures finishes { FinishesIfUnknown options.budget program.now result }
{
    match walk_then_search(rt, alloc, program, options, gate) {
        Ok(answer) => answer,
        Err(Reason::Memory) => Answer::Unknown(Why::Memory),
        Err(reason) => Answer::Refused(reason),
    }
}
