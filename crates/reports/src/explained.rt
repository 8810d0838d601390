//! The explanation of an answer.

ghost use Rattle.std.specs.Prelude.{◌<◌, ◌≡◌, ◌≤◌, IfOk, Ok};
ghost use Rattle.callorder.specs.Resolving.{IsTextOf};
ghost use Rattle.semantics.specs.Machine.{IsStuckRun};
ghost use Rattle.checker.specs.Verdicts.{AreShown, IsJudged};
ghost use Rattle.reports.specs.Explanations.{Explains, IsDrawnFrom, TellsNumbers, counts_text};

use crate::added::numbered;
use crate::asked::ask;
use crate::counts::counts_text;
use crate::telling::run_text;
use callorder::LongProgram;
use checker::{Judged, PieceGate, Reason, Refuted, StuckRun, judge};
use options::Form;
use std::alloc::{AllocError, Global};
use std::sync::Wait;
use std::thread::Threads;

/// What is told of a program and an evidence.
#[derive(Drop)]
pub enum Explained {
    /// No run of the program ends stuck. The text tells how large the program and its refutation
    /// are.
    NoDeadlock(Vec<u8>),
    /// The evidence's schedule is a run of the program that ends stuck. The text explains it.
    Deadlock(Vec<u8>),
    /// Neither is shown, for the reason that a verdict has.
    Refused(Reason),
}

/// The text, in this form, on a run of the program of this text, which ends stuck.
fn deadlock_text<R: Threads + Wait + Sync>(
    rt: &R,
    alloc: Global,
    text: &[u8],
    run: &StuckRun,
    form: Form,
) -> Result<Vec<u8>, AllocError>
    requires program { IsTextOf text.now run.now.program }
    requires stuck { IsStuckRun run.now.program run.now.schedule }
    ensures { IfOk result (λ told. IsDrawnFrom form text.now run.now.source run.now.program run.now.schedule told.items) }
{
    let program: &LongProgram = &run.program;
    let steps = run.schedule.steps();
    let asked = ask(rt, alloc, text, program, steps, form)?;
    run_text(rt, alloc, text, &run.source, program, steps, &asked, form)
}

/// The text on the run that an evidence shows of a program.
fn deadlock<R: Threads + Wait + Sync>(
    rt: &R,
    alloc: Global,
    program: &[u8],
    evidence: &[u8],
    run: &StuckRun,
    form: Form,
) -> Explained
    requires { AreShown program.now evidence.now run.now.source run.now.program run.now.schedule }
    ensures { Explains form program.now evidence.now result }
{
    match deadlock_text(rt, alloc, program, run, form) {
        Ok(text) => Explained::Deadlock(text),
        Err(AllocError) => Explained::Refused(Reason::Memory),
    }
}

/// The text on the program of this text, which is refuted.
fn refuted_text(
    alloc: Global,
    text: &[u8],
    refuted: &Refuted,
    form: Form,
) -> Result<Vec<u8>, AllocError>
    ensures { IfOk result (λ told.
        TellsNumbers form refuted.now.program (counts_text form refuted.now.program refuted.now.refutation)
        told.items) }
{
    let program: &LongProgram = &refuted.program;
    let numbers = counts_text(alloc, &refuted.program, &refuted.refutation, form)?;
    numbered(alloc, text, program, form, numbers)
}

/// The text on the program of a text that is refuted.
fn no_deadlock(
    alloc: Global,
    program: &[u8],
    evidence: &[u8],
    refuted: &Refuted,
    form: Form,
) -> Explained
    requires { IsJudged program.now evidence.now (Ok (Judged.Refuted refuted.now)) }
    ensures { Explains form program.now evidence.now result }
{
    match refuted_text(alloc, program, refuted, form) {
        Ok(text) => Explained::NoDeadlock(text),
        Err(AllocError) => Explained::Refused(Reason::Memory),
    }
}

/// Explains what the evidence shows of the program, in this form. A deadlock is explained by the
/// steps that decided it, where each rank stands and who waits for whom, as a text or as a JSON
/// object; by who waits for whom alone, as a graph in Graphviz's language; or by a chart of its
/// steps, as a text or as a picture. A refutation is explained by the program's numbers of ranks,
/// calls, messages, wildcards with a choice and sends that the policy leaves open, and its own
/// numbers of variables, clauses, lines and leaves: in a graph as a comment, in a chart as lines;
/// below them a text tells the messages that no receive takes. It is refused where `verdict`
/// refuses it, for the same reasons. A refutation's lines are checked in so many pieces, 1 to 64.
///
/// What the checker hands out of the two texts is explained, and neither is read again, so that the
/// checker alone stands between an evidence and its explanation.
pub fn explain_evidence<R: Threads + Wait + Sync, G: PieceGate + Sync>(
    rt: &R,
    alloc: Global,
    program: &[u8],
    evidence: &[u8],
    pieces: usize,
    gate: &G,
    form: Form,
) -> Explained
    requires some { 0 < pieces }
    requires few { pieces ≤ 64 }
    ensures { Explains form program.now evidence.now result }
{
    match judge(rt, alloc, program, evidence, pieces, gate) {
        Ok(Judged::Refuted(refuted)) => no_deadlock(alloc, program, evidence, &refuted, form),
        Ok(Judged::Stuck(run)) => deadlock(rt, alloc, program, evidence, &run, form),
        Err(reason) => Explained::Refused(reason),
    }
}
