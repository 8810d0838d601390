//! The check of a batch.

ghost use Rattle.std.specs.Prelude.{◌≡◌, ◌+◌, ◌++◌, ◌≤◌, IfErr, IfNone, IfOk, IfSome, OnErr, OnOk, length, map, false};
ghost use Rattle.refutations.specs.Derivations.{Derives};
ghost use Rattle.refutations.specs.Proofs.{are_numbers};
ghost use Rattle.pool.specs.Replies.{resolved, resolved_hint, resolved_lines, DeriveAfter};
ghost use Rattle.pool.specs.parts.Batches.{capped_hint, IsDerivationFault, IsExtended};
ghost use Rattle.pool.specs.Moves.{AreOfBatch};

use crate::derived::DerivedLines;
use crate::entry::PublishFault;
use clauses::Formula;
use pages::{Extended, Log};
use refutations::{BatchLine, Hint, Line, PartialAssignment, check_line_in};
use std::alloc::{AllocError, Global};

/// How many lines a log has at most.
pub const MOST_LINES: usize = 1_000_000;

/// How many lines a batch has at most, so that each of them has a number that a line can hold as a
/// hint.
pub(crate) const LONGEST_BATCH: usize = 2_000_000_000;

/// The number of what a hint names; a number that no line can hold where it doesn't fit.
fn resolved_hint(base: u32, hint: Hint) -> u32
    ensures { result ≡ capped_hint base hint }
{
    match hint {
        Hint::Known(number) => number,
        Hint::Own(place) => base.saturating_add(place),
    }
}

fn resolved_hints(alloc: Global, base: u32, hints: &[Hint]) -> Result<Vec<u32>, AllocError>
    ensures { IfOk result (λ numbers. numbers.items ≡ map (capped_hint base) hints.now) }
{
    let mut numbers = Vec::with_capacity(alloc, hints.len())?;
    for hint in hints {
        numbers.push(resolved_hint(base, *hint))?;
    }
    Ok(numbers)
}

/// The line of a batch whose first line has this number; none where no line can hold one of its
/// hints.
fn resolved_line(alloc: Global, base: u32, line: &BatchLine) -> Result<Option<Line>, AllocError>
    ensures made { IfOk result (λ found. IfSome found (λ made. made ≡ resolved base line.now)) }
    ensures none { IfOk result (λ found. IfNone found (are_numbers (map (resolved_hint base) line.now.hints.items) ≡ false)) }
{
    let literals = Vec::from_slice(alloc, line.clause.literals())?;
    let hints = resolved_hints(alloc, base, line.hints.as_slice())?;
    Ok(Line::from_vecs(literals, hints))
}

/// The line of a batch, if it derives from the formula and the earlier lines.
fn checked_line(
    alloc: Global,
    known: &mut PartialAssignment,
    formula: &Formula,
    earlier: &Extended<'_>,
    base: u32,
    line: &BatchLine,
) -> Result<Option<Line>, AllocError>
    requires size { length known.old ≡ formula.now.variables + 1 }
    requires few { length formula.now.clauses + length (earlier.now.log.now) + length (earlier.now.more.now) ≤ 2147483647 }
    ensures made { IfOk result (λ found. IfSome found (λ made. made ≡ resolved base line.now)) }
    ensures derived { IfOk result (λ found. IfSome found (λ _.
        Derives formula.now (earlier.now.log.now ++ earlier.now.more.now) (resolved base line.now))) }
    ensures not_derived { IfOk result (λ found.
        IfNone found (Derives formula.now (earlier.now.log.now ++ earlier.now.more.now) (resolved base
        line.now) → ⊥)) }
    ensures size { length known.new ≡ length known.old }
{
    let made = resolved_line(alloc, base, line)?;
    let Some(line) = made else {
        return Ok(None);
    };
    match check_line_in(known, formula, earlier, &line) {
        Ok(()) => Ok(Some(line)),
        Err(_fault) => Ok(None),
    }
}

/// The lines of a batch, each of which derives from the formula, the log and the lines before it.
pub(crate) fn checked_lines(
    alloc: Global,
    known: &mut PartialAssignment,
    formula: &Formula,
    log: &Log,
    base: u32,
    batch: &[BatchLine],
) -> Result<Vec<Line>, PublishFault>
    requires size { length known.old ≡ formula.now.variables + 1 }
    requires few { length formula.now.clauses + length log.now + length batch.now ≤ 2147483647 }
    ensures lines { IfOk result (λ lines. lines.items ≡ resolved_lines base batch.now) }
    ensures derive { IfOk result (λ _. DeriveAfter formula.now log.now (resolved_lines base batch.now)) }
    ensures stopped { IfErr result (IsDerivationFault formula.now log.now (resolved_lines base batch.now)) }
    ensures size { length known.new ≡ length known.old }
{
    let mut lines = Vec::new(alloc);
    for (place, line) in batch.iter().enumerate() {
        let earlier = Extended {
            log,
            more: lines.as_slice(),
        };
        match checked_line(alloc, known, formula, &earlier, base, line) {
            Ok(Some(line)) => match lines.push(line) {
                Ok(()) => {}
                Err(_line) => return Err(PublishFault::Memory),
            },
            Ok(None) => return Err(PublishFault::NotDerived(place)),
            Err(AllocError) => return Err(PublishFault::Memory),
        }
    }
    Ok(lines)
}

/// The lines of a batch whose first line has this number, each of which derives from the formula,
/// the log and the lines before it. Those that are known to derive aren't checked again, nor made.
fn lines_behind(
    alloc: Global,
    known: &mut PartialAssignment,
    formula: &Formula,
    log: &Log,
    base: u32,
    batch: &[BatchLine],
    derived: Option<DerivedLines>,
) -> Result<Vec<Line>, PublishFault>
    requires size { length known.old ≡ formula.now.variables + 1 }
    requires few { length formula.now.clauses + length log.now + length batch.now ≤ 2147483647 }
    requires derived { IfSome derived (λ _. DeriveAfter formula.now log.now (resolved_lines base batch.now)) }
    requires lines { IfSome derived (λ d. AreOfBatch batch.now d) }
    ensures lines { IfOk result (λ lines. lines.items ≡ resolved_lines base batch.now) }
    ensures derive { IfOk result (λ _. DeriveAfter formula.now log.now (resolved_lines base batch.now)) }
    ensures stopped { IfErr result (IsDerivationFault formula.now log.now (resolved_lines base batch.now)) }
    ensures size { length known.new ≡ length known.old }
{
    match derived {
        Some(derived) => Ok(derived.numbered(alloc, base)),
        None => checked_lines(alloc, known, formula, log, base, batch),
    }
}

/// Appends the lines of a batch whose first line has this number, all or none. Where lines are
/// given that are known to derive, these are appended, with their numbers moved. A batch of more
/// than [`LONGEST_BATCH`] lines is refused as want of memory, which comes long before.
pub(crate) fn extend(
    alloc: Global,
    known: &mut PartialAssignment,
    formula: &Formula,
    log: &mut Log,
    base: u32,
    batch: &[BatchLine],
    derived: Option<DerivedLines>,
) -> Result<(), PublishFault>
    requires size { length known.old ≡ formula.now.variables + 1 }
    requires few_clauses { length formula.now.clauses ≤ 4000000 }
    requires few_lines { length log.old ≤ MOST_LINES }
    requires derived { IfSome derived (λ _. DeriveAfter formula.now log.old (resolved_lines base batch.now)) }
    requires lines { IfSome derived (λ d. AreOfBatch batch.now d) }
    ensures reply { IsExtended formula.now log.old (resolved_lines base batch.now) result }
    ensures ok { OnOk result (log.new ≡ log.old ++ resolved_lines base batch.now) }
    ensures err { OnErr result (log.new ≡ log.old) }
    ensures size { length known.new ≡ length known.old }
{
    if batch.len() > LONGEST_BATCH {
        return Err(PublishFault::Memory);
    }
    let lines = match lines_behind(alloc, known, formula, log, base, batch, derived) {
        Ok(lines) => lines,
        Err(PublishFault::NotDerived(place)) => return Err(PublishFault::NotDerived(place)),
        Err(_) => return Err(PublishFault::Memory),
    };
    if log.len() + lines.len() > MOST_LINES {
        return Err(PublishFault::Full);
    }
    match log.append(alloc, lines) {
        Ok(()) => Ok(()),
        Err(AllocError) => Err(PublishFault::Memory),
    }
}
