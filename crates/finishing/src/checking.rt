//! The check of a search's lines.

ghost use Rattle.std.specs.Prelude.{◌≡◌, ◌+◌, IfOk, IfSome, IsTrue, length};
ghost use Rattle.clauses.specs.Clauses.{IsUnsatisfiable};
ghost use Rattle.refutations.specs.Derivations.{Derives};
ghost use Rattle.refutations.specs.Refutations.{AreDerived};
ghost use Rattle.refutations.specs.Trees.{AcceptsTree};

use clauses::Formula;
use refutations::{
    Batch, BatchLine, Hint, Line, Node, PartialAssignment, ProofTree, TreeFault, check_line_in,
    check_tree,
};
use std::alloc::{AllocError, Global};

/// The number of the first line behind the clauses of the formula. One that doesn't fit counts as
/// the largest that does, which no line can hold as a hint.
fn first_number(formula: &Formula) -> u32 {
    u32::try_from(formula.len().saturating_add(1)).unwrap_or(u32::MAX)
}

/// The number of what a hint names, where the first line has this one.
fn number_of(first: u32, hint: Hint) -> u32 {
    match hint {
        Hint::Known(number) => number,
        Hint::Own(place) => first.saturating_add(place),
    }
}

/// The numbers of what the hints name.
fn numbers_of(alloc: Global, first: u32, hints: &[Hint]) -> Result<Vec<u32>, AllocError> {
    let mut numbers = Vec::with_capacity(alloc, hints.len())?;
    for hint in hints {
        numbers.push(number_of(first, *hint))?;
    }
    Ok(numbers)
}

/// The line, where it derives from the formula and the earlier ones.
fn checked_line(
    alloc: Global,
    known: &mut PartialAssignment,
    formula: &Formula,
    earlier: &[Line],
    line: BatchLine,
) -> Result<Option<Line>, AllocError>
    requires { length known.old ≡ formula.now.variables + 1 }
    ensures derived { IfOk result (λ found. IfSome found (Derives formula.now earlier.now)) }
    ensures size { length known.new ≡ length known.old }
{
    let BatchLine { clause, hints } = line;
    let hints = numbers_of(alloc, first_number(formula), hints.as_slice())?;
    let Some(line) = Line::from_parts(clause, hints) else {
        return Ok(None);
    };
    match check_line_in(known, formula, &earlier, &line) {
        Ok(()) => Ok(Some(line)),
        Err(_fault) => Ok(None),
    }
}

/// The lines, where each derives from the formula and those before it.
fn checked_lines(
    alloc: Global,
    formula: &Formula,
    batch: Batch,
) -> Result<Option<Vec<Line>>, AllocError>
    ensures { IfOk result (λ found. IfSome found (λ lines. AreDerived formula.now lines.items)) }
{
    let mut known = PartialAssignment::new(alloc, formula.variables())?;
    let mut lines = Vec::new(alloc);
    for line in batch.lines {
        let checked = checked_line(alloc, &mut known, formula, lines.as_slice(), line)?;
        let Some(line) = checked else {
            return Ok(None);
        };
        lines.push(line)?;
    }
    Ok(Some(lines))
}

/// Whether the clause of this number, of the formula's clauses and then the lines, is empty:
/// whether the tree whose only leaf names it refutes.
fn is_closed(
    alloc: Global,
    formula: &Formula,
    lines: &[Line],
    number: u32,
) -> Result<bool, AllocError>
    requires { AreDerived formula.now lines.now }
    ensures { IfOk result (λ closed. IsTrue closed → IsUnsatisfiable formula.now.clauses) }
{
    let nodes = vec![in alloc; Node::Leaf(number)]?;
    let Ok(tree) = ProofTree::make(nodes) else {
        return Ok(false);
    };
    match check_tree(alloc, formula, lines, &tree) {
        Ok(()) => Ok(true),
        Err(TreeFault::Memory) => Err(AllocError),
        Err(TreeFault::Leaf { .. }) => Ok(false),
        Err(TreeFault::Number { .. }) => Ok(false),
    }
}

/// Whether the lines of a search refute the formula: each derives from the formula and those before
/// it, and the clause that the hint names is empty. The only error is want of memory. It takes as
/// much memory as the lines.
pub fn is_refuted(
    alloc: Global,
    formula: &Formula,
    batch: Batch,
    last: Hint,
) -> Result<bool, AllocError>
    ensures { IfOk result (λ refuted. IsTrue refuted → IsUnsatisfiable formula.now.clauses) }
{
    let checked = checked_lines(alloc, formula, batch)?;
    let Some(lines) = checked else {
        return Ok(false);
    };
    is_closed(
        alloc,
        formula,
        lines.as_slice(),
        number_of(first_number(formula), last),
    )
}
