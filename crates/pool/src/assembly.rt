//! Evidence from what a pool has.

ghost use Rattle.std.specs.Prelude.{◌≡◌, ◌≤◌, IfOk, length};
ghost use Rattle.semantics.specs.Machine.{IsStuckRun};
ghost use Rattle.refutations.specs.Derivations.{clauses_before};
ghost use Rattle.refutations.specs.Refutations.{AreDerived, Accepts};
ghost use Rattle.trees.specs.Laws.{AreLeavesRefuted};
ghost use Rattle.pool.specs.Evidence.{IsTreeOf};

use callorder::Program;
use clauses::Formula;
use pages::Log;
use prooflog::{MakeRefutationFault, Refutation, Schedule, Version, are_in_range};
use refutations::Line;
use semantics::Step;
use std::alloc::{AllocError, Global};
use thiserror::Error;
use trees::Tree;

/// Why there is no evidence.
#[derive(Clone, Copy, Debug, PartialEq, Eq, Error)]
pub enum AssembleFault {
    /// Memory ran out.
    #[error("memory")]
    Memory,
    /// No schedule was found, and a leaf is open.
    #[error("open")]
    Open,
}

/// The schedule of a run of the program that ends stuck. Each such run is within the limits of
/// schedules.
pub fn schedule_of_run(program: &Program, steps: Vec<Step>) -> Schedule
    requires { IsStuckRun program.now steps.items }
    ensures { result ≡ steps.items }
{
    let _calls = program.calls();
    match Schedule::make(steps) {
        Ok(schedule) => schedule,
        Err(_steps) => unreachable!(),
    }
}

/// Copies of the lines of a log.
pub(crate) fn lines_of(alloc: Global, log: &Log) -> Result<Vec<Line>, AllocError>
    ensures { IfOk result (λ lines. lines.items ≡ log.now) }
{
    let mut lines = Vec::with_capacity(alloc, log.len())?;
    for place in 0..log.len() {
        let Some(line) = log.get(place) else {
            unreachable!()
        };
        lines.push(line.copy(alloc)?)?;
    }
    Ok(lines)
}

/// The refutation of these lines and a tree all of whose leaves are closed by these clauses, which
/// is within the limits of refutations.
pub(crate) fn refutation_of(
    alloc: Global,
    formula: &Formula,
    lines: Vec<Line>,
    tree: &Tree,
    closed: &[u32],
) -> Result<Refutation, AllocError>
    requires few_clauses { length formula.now.clauses ≤ 4000000 }
    requires few_lines { length lines.items ≤ 1000000 }
    requires variables { tree.now.variables ≡ formula.now.variables }
    requires many { length closed.now ≡ length tree.now.nodes }
    requires derived { AreDerived formula.now lines.items }
    requires refuted { AreLeavesRefuted tree.now.nodes (clauses_before formula.now lines.items) closed.now }
    ensures version { IfOk result (λ claim. claim.version ≡ Version.One) }
    ensures variables { IfOk result (λ claim. claim.variables ≡ formula.now.variables) }
    ensures clauses { IfOk result (λ claim. claim.clauses ≡ length formula.now.clauses) }
    ensures lines { IfOk result (λ claim. claim.lines ≡ lines.items) }
    ensures tree { IfOk result (λ claim. IsTreeOf tree.now.nodes closed.now claim.nodes) }
    ensures accepted { IfOk result (λ claim. Accepts formula.now claim.lines claim.nodes) }
{
    let _limits = tree.variables();
    let nodes = tree.proof_tree(alloc, closed)?;
    let _numbered = nodes.nodes();
    let _in_range = are_in_range(&lines);
    let clauses = formula.clauses().len() as u32;
    match Refutation::make(
        alloc,
        Version::One,
        formula.variables(),
        clauses,
        lines,
        nodes,
    ) {
        Ok(refutation) => Ok(refutation),
        Err(MakeRefutationFault::Memory) => Err(AllocError),
        Err(MakeRefutationFault::TooLarge) => unreachable!(),
    }
}

/// The same of a log that isn't needed any more.
pub(crate) fn refutation_by(
    alloc: Global,
    formula: &Formula,
    log: Log,
    tree: &Tree,
    closed: &[u32],
) -> Result<Refutation, AllocError>
    requires few_clauses { length formula.now.clauses ≤ 4000000 }
    requires few_lines { length log ≤ 1000000 }
    requires variables { tree.now.variables ≡ formula.now.variables }
    requires many { length closed.now ≡ length tree.now.nodes }
    requires derived { AreDerived formula.now log }
    requires refuted { AreLeavesRefuted tree.now.nodes (clauses_before formula.now log) closed.now }
    ensures version { IfOk result (λ claim. claim.version ≡ Version.One) }
    ensures variables { IfOk result (λ claim. claim.variables ≡ formula.now.variables) }
    ensures clauses { IfOk result (λ claim. claim.clauses ≡ length formula.now.clauses) }
    ensures lines { IfOk result (λ claim. claim.lines ≡ log) }
    ensures tree { IfOk result (λ claim. IsTreeOf tree.now.nodes closed.now claim.nodes) }
    ensures accepted { IfOk result (λ claim. Accepts formula.now claim.lines claim.nodes) }
{
    let lines = log.into_lines(alloc)?;
    refutation_of(alloc, formula, lines, tree, closed)
}
