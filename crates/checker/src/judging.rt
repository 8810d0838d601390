//! The verdict.

ghost use Rattle.std.specs.Prelude.{◌≡◌, ◌≢◌, ◌<◌, ◌≤◌, IfOk, IfErr};
ghost use Rattle.checker.specs.Headline.{IsNeverStuck, Shows};
ghost use Rattle.checker.specs.Verdicts.{AreRefuted, IsJudged, IsVerdict, Judges};

use crate::reason::{Reason, Verdict};
use crate::refuting::{Refuted, refute};
use crate::texts::{StuckRun, read_program, stuck_run};
use pieces::PieceGate;
use prooflog::{Evidence, read_evidence_in};
use std::alloc::Global;
use std::thread::Threads;

/// What an evidence shows of a program.
#[derive(Drop)]
pub enum Judged {
    /// It refutes the program's formula.
    Refuted(Refuted),
    /// It is a run of the program that ends stuck.
    Stuck(StuckRun),
}

/// In how many parts lines are read that are checked in so many pieces: in more of them, so that a
/// part that goes slowly holds up less.
fn parts_for(pieces: usize) -> usize {
    if pieces > 1 {
        pieces.saturating_mul(4).min(64)
    } else {
        1
    }
}

/// What the evidence shows of the program, with all that was read and made of the two texts; else
/// the first reason why it shows nothing, as of [`verdict`]. A refutation's lines are checked in so
/// many pieces, 1 to 64, as by [`verdict_in`].
pub fn judge<R: Threads + Sync, G: PieceGate + Sync>(
    rt: &R,
    alloc: Global,
    program: &[u8],
    evidence: &[u8],
    pieces: usize,
    gate: &G,
) -> Result<Judged, Reason>
    requires some { 0 < pieces }
    requires few { pieces ≤ 64 }
    ensures { IsJudged program.now evidence.now result }
{
    let read = match read_program(alloc, program) {
        Ok(read) => read,
        Err(reason) => return Err(reason),
    };
    match read_evidence_in(rt, alloc, evidence, parts_for(pieces)) {
        Ok(Evidence::Schedule(schedule)) => match stuck_run(alloc, read, schedule) {
            Ok(run) => Ok(Judged::Stuck(run)),
            Err(reason) => Err(reason),
        },
        Ok(Evidence::Refutation(refutation)) => {
            match refute(rt, alloc, read.program, refutation, pieces, gate) {
                Ok(refuted) => Ok(Judged::Refuted(refuted)),
                Err(reason) => Err(reason),
            }
        }
        Err(fault) => Err(Reason::from(fault)),
    }
}

/// The formula of the program and the refutation that the evidence is, where it refutes the
/// program; else the verdict, which is never `NoDeadlock`. A refutation's lines are checked in so
/// many pieces, 1 to 64, as by [`verdict_in`].
pub fn refuted_in<R: Threads + Sync, G: PieceGate + Sync>(
    rt: &R,
    alloc: Global,
    program: &[u8],
    evidence: &[u8],
    pieces: usize,
    gate: &G,
) -> Result<Refuted, Verdict>
    requires some { 0 < pieces }
    requires few { pieces ≤ 64 }
    ensures refuted { IfOk result (λ refuted. AreRefuted program.now evidence.now refuted.formula refuted.refutation) }
    ensures other { IfErr result (λ verdict. verdict ≢ Verdict.NoDeadlock) }
    ensures judges { IfErr result (λ verdict. Judges program.now evidence.now verdict) }
{
    match judge(rt, alloc, program, evidence, pieces, gate) {
        Ok(Judged::Refuted(refuted)) => Ok(refuted),
        Ok(Judged::Stuck(_run)) => Err(Verdict::Deadlock),
        Err(reason) => Err(Verdict::Refused(reason)),
    }
}

/// Lets a piece go on at once.
struct Open;

impl PieceGate for Open {
    fn before(&self, _piece: usize) {}
}

/// The verdict on a program's text by an evidence's text, whoever wrote them.
///
/// `NoDeadlock` is answered only where the program's text is one of a program, no run of which, by
/// the policy's rules of buffering, ends where some rank is unfinished and no step is enabled; and
/// exactly where the evidence's text is one of a refutation of that program's formula. `Deadlock`
/// is answered exactly where the evidence's text is one of a schedule, and the schedule is a run of
/// the program that ends so. Else the first reason is told. Want of memory alone may come at any
/// time.
///
/// The lines of a refutation are checked one after another. Threads are used for the program's
/// formula alone.
pub fn verdict(
    rt: &(impl Threads + Sync),
    alloc: Global,
    program: &[u8],
    evidence: &[u8],
) -> Verdict
    ensures no_deadlock { result ≡ Verdict.NoDeadlock → IsNeverStuck program.now }
    ensures deadlock { result ≡ Verdict.Deadlock → Shows program.now evidence.now }
    ensures is { IsVerdict program.now evidence.now result }
{
    verdict_in(rt, alloc, program, evidence, 1, &Open)
}

/// The same verdict, with the lines of a refutation checked in so many pieces, 1 to 64, each in a
/// thread of its own where one can be started, else by the calling thread. It waits for all of
/// them, and calls `gate.before` for each piece, from 0, before its first line is checked. Before
/// that the lines are read in four times as many parts, at most 64, in the same way; in one part
/// where there is one piece.
pub fn verdict_in<R: Threads + Sync, G: PieceGate + Sync>(
    rt: &R,
    alloc: Global,
    program: &[u8],
    evidence: &[u8],
    pieces: usize,
    gate: &G,
) -> Verdict
    requires some { 0 < pieces }
    requires few { pieces ≤ 64 }
    ensures no_deadlock { result ≡ Verdict.NoDeadlock → IsNeverStuck program.now }
    ensures deadlock { result ≡ Verdict.Deadlock → Shows program.now evidence.now }
    ensures is { IsVerdict program.now evidence.now result }
{
    match judge(rt, alloc, program, evidence, pieces, gate) {
        Ok(Judged::Refuted(_refuted)) => Verdict::NoDeadlock,
        Ok(Judged::Stuck(_run)) => Verdict::Deadlock,
        Err(reason) => Verdict::Refused(reason),
    }
}
