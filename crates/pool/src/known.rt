//! Batches that are checked before anybody has to wait for it.

ghost use Rattle.std.specs.Prelude.{◌≡◌, ◌+◌, ◌≤◌, IfSome, IsTrue, length};
ghost use Rattle.std.specs.List.{list_all};
ghost use Rattle.pool.specs.Replies.{resolved_lines, DeriveAfter};
ghost use Rattle.pool.specs.Moves.{is_earlier, are_earlier, number_after, AreOfBatch};

use crate::derived::DerivedLines;
use crate::extend::{LONGEST_BATCH, MOST_LINES, checked_lines};
use clauses::Formula;
use pages::Log;
use refutations::{BatchLine, Hint, PartialAssignment};
use std::alloc::Global;

/// Whether the hint names a line of the batch, or a clause with a number below this one.
fn is_earlier(base: u32, hint: Hint) -> bool
    ensures { result ≡ is_earlier base hint }
{
    match hint {
        Hint::Known(number) => number < base,
        Hint::Own(_place) => true,
    }
}

fn hints_are_earlier(base: u32, line: &BatchLine) -> bool
    ensures { result ≡ list_all (is_earlier base) line.now.hints.items }
{
    line.hints
        .as_slice()
        .iter()
        .all(|hint| is_earlier(base, *hint))
}

fn are_earlier(base: u32, batch: &[BatchLine]) -> bool
    ensures { result ≡ are_earlier base batch.now }
{
    batch.iter().all(|line| hints_are_earlier(base, line))
}

/// The lines of a batch, if they derive, each from the formula, the log and the lines before it,
/// and name nothing else. None where memory runs out, too.
pub fn derived_lines(
    alloc: Global,
    known: &mut PartialAssignment,
    formula: &Formula,
    log: &Log,
    batch: &[BatchLine],
) -> Option<DerivedLines>
    requires size { length known.old ≡ formula.now.variables + 1 }
    requires few_clauses { length formula.now.clauses ≤ 4000000 }
    requires few_lines { length log.now ≤ MOST_LINES }
    ensures lines { IfSome result (λ d. AreOfBatch batch.now d) }
    ensures earlier { IfSome result (λ _. IsTrue (are_earlier (number_after formula.now log.now) batch.now)) }
    ensures derived { IfSome result (λ _. DeriveAfter formula.now log.now (resolved_lines (number_after formula.now log.now) batch.now)) }
    ensures size { length known.new ≡ length known.old }
{
    if batch.len() > LONGEST_BATCH {
        return None;
    }
    let base = (formula.clauses().len() + log.len() + 1) as u32;
    if !are_earlier(base, batch) {
        return None;
    }
    match checked_lines(alloc, known, formula, log, base, batch) {
        Ok(lines) => Some(DerivedLines::new(base, lines)),
        Err(_fault) => None,
    }
}
