//! Leaving out literals of a learnt clause that follow from its other literals.

use crate::analysis::{Literals, Resolved};
use propagation::{ClauseRef, LitIndex, Marks, Propagator};
use std::alloc::AllocError;

/// The bit of a level, which it shares with each 64th.
fn level_bit(level: u32) -> u64 {
    1u64 << (level % 64)
}

/// The bits of these literals' levels.
fn level_bits(known: &Propagator, literals: &[LitIndex]) -> u64 {
    let mut bits = 0u64;
    for literal in literals {
        bits |= level_bit(known.level_of(literal.variable()));
    }
    bits
}

/// Takes in the variables of a reason that aren't marked. False where one of them rests on a
/// decision, or on a level that no literal of the clause has.
fn take_reason(
    known: &Propagator,
    marks: &mut Marks,
    resolved: &mut Resolved,
    levels: u64,
    clause: ClauseRef,
) -> Result<bool, AllocError> {
    for literal in known.literals(clause) {
        let variable = literal.variable();
        if marks.has(variable) {
            continue;
        }
        let level = known.level_of(variable);
        if level == 0 {
            marks.mark(variable)?;
            resolved.roots.push(known.place_of(variable))?;
            continue;
        }
        if known.reason_of(variable).is_none() || levels & level_bit(level) == 0 {
            return Ok(false);
        }
        marks.mark(variable)?;
        resolved.places.push(known.place_of(variable))?;
    }
    Ok(true)
}

/// Resolves the variables from this place of the list on, and those that they rest on, down to
/// marked ones.
fn resolve_from(
    known: &Propagator,
    marks: &mut Marks,
    resolved: &mut Resolved,
    levels: u64,
    start: usize,
) -> Result<bool, AllocError> {
    for turn in start..start.saturating_add(known.most()) {
        let Some(place) = resolved.places.get(turn) else {
            return Ok(true);
        };
        let clause = known.reason_at(*place);
        if !take_reason(known, marks, resolved, levels, clause)? {
            return Ok(false);
        }
    }
    Ok(true)
}

/// Whether the literal follows from marked variables; then all that this rests on is resolved and
/// marked.
fn leave_out(
    known: &Propagator,
    marks: &mut Marks,
    resolved: &mut Resolved,
    levels: u64,
    literal: LitIndex,
) -> Result<bool, AllocError> {
    let variable = literal.variable();
    if known.reason_of(variable).is_none() {
        return Ok(false);
    }
    let marked = marks.count();
    let start = resolved.places.len();
    let roots = resolved.roots.len();
    resolved.places.push(known.place_of(variable))?;
    if resolve_from(known, marks, resolved, levels, start)? {
        return Ok(true);
    }
    marks.back_to(marked);
    resolved.places.truncate(start);
    resolved.roots.truncate(roots);
    Ok(false)
}

/// Leaves out the literals that follow from the others.
pub(crate) fn minimise(
    known: &Propagator,
    marks: &mut Marks,
    literals: &mut Literals,
    resolved: &mut Resolved,
) -> Result<(), AllocError> {
    let levels = level_bits(known, literals.as_slice());
    let kept = literals.as_mut_slice();
    let mut end = 0;
    for read in 0..kept.len() {
        let literal = kept[read];
        if !leave_out(known, marks, resolved, levels, literal)? {
            kept[end] = literal;
            end += 1;
        }
    }
    literals.truncate(end);
    Ok(())
}
