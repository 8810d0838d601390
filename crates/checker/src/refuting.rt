//! Refutations of a program.

ghost use Rattle.std.specs.Prelude.{◌≡◌, ◌⊎◌, ◌<◌, ◌≤◌, ℕ, IfOk, IfErr};
ghost use Rattle.formula.specs.Numbering.{formula_of};
ghost use Rattle.refutations.specs.Refutations.{Accepts};
ghost use Rattle.checker.specs.Parts.{AreNeeded, has_counts};
ghost use Rattle.checker.specs.Verdicts.{IsRefutedBy, IsUnaccepted, IsUnneeded, IsUnrefuted};

use crate::encoding::formula_of;
use crate::reason::Reason;
use callorder::Program;
use clauses::Formula;
use pieces::{LinesFault, PieceGate, check_pieces};
use prooflog::{Refutation, Version};
use refutations::check_tree;
use std::alloc::{AllocError, Global};
use std::thread::Threads;
use trimming::first_unneeded;

/// A program with its formula, and a refutation of that: each of its lines and its tree were
/// accepted.
#[derive(Drop)]
pub struct Refuted {
    /// The program.
    pub program: Program,
    /// Its formula.
    pub formula: Formula,
    /// The refutation.
    pub refutation: Refutation,
}

/// Whether the counts of the refutation are those of the formula.
fn has_counts(refutation: &Refutation, formula: &Formula) -> bool
    ensures { result ≡ has_counts refutation.now formula.now }
{
    refutation.variables() == formula.variables() && refutation.clauses() as usize == formula.len()
}

/// Whether each line is needed, where the refutation has version 2.
fn check_needed(alloc: Global, refutation: &Refutation) -> Result<(), Reason>
    ensures needed { IfOk result (λ done. AreNeeded refutation.now) }
    ensures reason { IfErr result (λ reason. (reason ≡ Reason.Memory) ⊎ ((number : ℕ) ×
        (reason ≡ Reason.Unneeded number) × IsUnneeded number refutation.now)) }
{
    match refutation.version() {
        Version::One => Ok(()),
        Version::Two => {
            let (lines, tree) = (refutation.lines(), refutation.tree());
            match first_unneeded(alloc, refutation.clauses(), lines, tree) {
                Ok(None) => Ok(()),
                Ok(Some(number)) => Err(Reason::Unneeded { number }),
                Err(AllocError) => Err(Reason::Memory),
            }
        }
    }
}

/// Whether the refutation's lines, its tree, and then its need of each line are accepted for the
/// formula.
fn check_accepted<R: Threads + Sync, G: PieceGate + Sync>(
    rt: &R,
    alloc: Global,
    formula: &Formula,
    refutation: &Refutation,
    pieces: usize,
    gate: &G,
) -> Result<(), Reason>
    requires some { 0 < pieces }
    requires few { pieces ≤ 64 }
    ensures accepted { IfOk result (λ done. Accepts formula.now refutation.now.lines refutation.now.nodes) }
    ensures needed { IfOk result (λ done. AreNeeded refutation.now) }
    ensures reason { IfErr result (λ reason. (reason ≡ Reason.Memory) ⊎ IsUnaccepted reason formula.now refutation.now) }
{
    let (lines, tree) = (refutation.lines(), refutation.tree());
    match check_pieces(rt, alloc, formula, lines, pieces, gate) {
        Ok(()) => {}
        Err(LinesFault::Memory) => return Err(Reason::Memory),
        Err(LinesFault::Line(found)) => return Err(Reason::Line(found)),
    }
    match check_tree(alloc, formula, lines, tree) {
        Ok(()) => check_needed(alloc, refutation),
        Err(fault) => Err(Reason::from(fault)),
    }
}

/// The refutation with the program and its formula, where it refutes the program; else the first
/// reason why it doesn't.
pub fn refute<R: Threads + Sync, G: PieceGate + Sync>(
    rt: &R,
    alloc: Global,
    program: Program,
    refutation: Refutation,
    pieces: usize,
    gate: &G,
) -> Result<Refuted, Reason>
    requires some { 0 < pieces }
    requires few { pieces ≤ 64 }
    ensures of { IfOk result (λ found. found ≡ record { program = program; formula = formula_of program; refutation = refutation }) }
    ensures refuted { IfOk result (λ found. IsRefutedBy program refutation) }
    ensures reason { IfErr result (λ reason. (reason ≡ Reason.Memory) ⊎ IsUnrefuted reason program refutation) }
{
    let encoded = formula_of(rt, alloc, program)?;
    let (program, _, formula) = encoded.into_parts();
    if !has_counts(&refutation, &formula) {
        return Err(Reason::Counts);
    }
    match check_accepted(rt, alloc, &formula, &refutation, pieces, gate) {
        Ok(()) => Ok(Refuted {
            program,
            formula,
            refutation,
        }),
        Err(reason) => Err(reason),
    }
}
