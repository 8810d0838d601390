//! Lines that are compared, and counted once more.

ghost use Rattle.std.specs.Prelude.{◌≡◌, ◌+◌, ◌-◌, ◌≤◌, IfOk, IsTrue, drop, length, slice_get, take};

use crate::counted::{Counted, CountedList};
use clauses::Lit;
use refutations::{Line, LineList};
use std::alloc::{AllocError, Global};

fn are_same_numbers(numbers: &[u32], others: &[u32]) -> bool
    ensures { IsTrue result → numbers.now ≡ others.now }
{
    if numbers.len() != others.len() {
        return false;
    }
    for place in 0..numbers.len() {
        if numbers[place] != others[place] {
            return false;
        }
    }
    true
}

fn are_same_literals(literals: &[Lit], others: &[Lit]) -> bool
    ensures { IsTrue result → literals.now ≡ others.now }
{
    if literals.len() != others.len() {
        return false;
    }
    for place in 0..literals.len() {
        if literals[place] != others[place] {
            return false;
        }
    }
    true
}

/// Whether both have the same literals and the same hints.
fn are_same(line: &Line, other: &Line) -> bool
    ensures { IsTrue result → line.now ≡ other.now }
{
    are_same_literals(line.literals(), other.literals())
        && are_same_numbers(line.hints(), other.hints())
}

/// Whether both have a line at these places, and the same one.
fn is_at<L: LineList, M: LineList>(lines: &L, place: usize, others: &M, other: usize) -> bool
    ensures { IsTrue result → slice_get (L.lines lines.now) place ≡ slice_get (M.lines others.now) other }
{
    match (lines.get(place), others.get(other)) {
        (Some(line), Some(found)) => are_same(line, found),
        _ => false,
    }
}

/// Whether so many lines from this place on are the first of the others.
pub(crate) fn are_first<L: LineList, M: LineList>(
    lines: &L,
    from: usize,
    count: usize,
    others: &M,
) -> bool
    requires { from ≤ length (L.lines lines.now) }
    ensures same { IsTrue result → take count (drop from (L.lines lines.now)) ≡ take count (M.lines others.now) }
    ensures within { IsTrue result → count ≤ length (M.lines others.now) }
{
    if lines.len() - from < count || others.len() < count {
        return false;
    }
    for place in 0..count {
        if !is_at(lines, from + place, others, place) {
            return false;
        }
    }
    true
}

/// The lines from this place to below that one once more. Nothing of them is copied.
pub(crate) fn copies<L: CountedList>(
    alloc: Global,
    lines: &L,
    from: usize,
    to: usize,
) -> Result<Vec<Counted>, AllocError>
    requires from { from ≤ to }
    requires to { to ≤ length (L.lines lines.now) }
    ensures { IfOk result (λ copies. copies.items ≡ take (to - from) (drop from (L.lines lines.now))) }
{
    let mut copies = Vec::with_capacity(alloc, to - from)?;
    for place in from..to {
        let Some(line) = lines.held_at(place) else {
            unreachable!()
        };
        copies.push(line.share()?)?;
    }
    Ok(copies)
}
