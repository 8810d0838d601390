//! The proof of an answer, for other checkers.

ghost use Rattle.std.specs.Prelude.{◌≡◌, ◌≢◌, ◌+◌, ◌<◌, ◌≤◌, ◌++◌, IfErr, IfOk, length};
ghost use Rattle.refutations.specs.Refutations.{Accepts};
ghost use Rattle.checker.specs.Verdicts.{Judges};
ghost use Rattle.reports.specs.Exports.{Exports, IsProofOf};

use checker::{PieceGate, Reason, Refuted, Verdict, refuted_in};
use clauses::Formula;
use exports::lrat_text;
use prooflog::Refutation;
use std::alloc::{AllocError, Global};
use std::thread::Threads;
use tree_lines::joining_lines;

/// The text of the lines of a refutation, and of those that join its tree.
fn proof_text(
    alloc: Global,
    formula: &Formula,
    refutation: &Refutation,
) -> Result<Vec<u8>, AllocError>
    requires { Accepts formula.now refutation.now.lines refutation.now.nodes }
    ensures { IfOk result (λ text. IsProofOf formula.now refutation.now text.items) }
{
    let lines = refutation.lines();
    let added = joining_lines(alloc, formula, lines, refutation.tree())?;
    lrat_text(alloc, formula.len(), lines, &added)
}

/// The proof that an evidence makes of a program's formula, in the LRAT format, for the formula in
/// the DIMACS format: the evidence's lines, and then the inner nodes of its tree as lines, from the
/// leaves up. A checker of such proofs needs this text and the formula alone. Where the evidence
/// doesn't refute the program, the verdict is told, which is never `NoDeadlock`. The refutation's
/// lines are checked in so many pieces, 1 to 64.
pub fn export_evidence<R: Threads + Sync, G: PieceGate + Sync>(
    rt: &R,
    alloc: Global,
    program: &[u8],
    evidence: &[u8],
    pieces: usize,
    gate: &G,
) -> Result<Vec<u8>, Verdict>
    requires some { 0 < pieces }
    requires few { pieces ≤ 64 }
    ensures proof { IfOk result (λ text. Exports program.now evidence.now text.items) }
    ensures other { IfErr result (λ verdict. verdict ≢ Verdict.NoDeadlock) }
    ensures judges { IfErr result (λ verdict. Judges program.now evidence.now verdict) }
{
    let refuted = match refuted_in(rt, alloc, program, evidence, pieces, gate) {
        Ok(refuted) => refuted,
        Err(verdict) => return Err(verdict),
    };
    match proof_text(alloc, &refuted.formula, &refuted.refutation) {
        Ok(text) => Ok(text),
        Err(AllocError) => Err(Verdict::Refused(Reason::Memory)),
    }
}
