//! Whether a smaller text's program still hangs.

ghost use Rattle.std.specs.Prelude.{◌<◌, ◌≤◌, length, IfOk, IsTrue, OnOk};
ghost use Rattle.prover.specs.Answers.{CanHang};
ghost use Rattle.shrinking.specs.Shrinking.{IsShrunk, count_lines};

use crate::excerpts::Excerpt;
use crate::lines::count_lines;
use prover::{Reason, Until, walk_ends};
use std::alloc::{AllocError, Global};

/// Whether some walk of the text's program ends stuck; not where it has none, or no walk is left.
/// Each question takes as many walks off what is left as were taken, or one.
fn hangs(alloc: Global, text: &[u8], left: &mut u32) -> Result<bool, AllocError>
    ensures { IfOk result (λ hangs. IsTrue hangs → CanHang text.now) }
{
    if *left == 0 {
        return Ok(false);
    }
    match walk_ends(alloc, text, Until::Stuck) {
        Ok(ends) => {
            *left = left.saturating_sub(ends.walks);
            Ok(ends.stuck)
        }
        Err(Reason::Memory) => Err(AllocError),
        Err(_reason) => {
            *left = left.saturating_sub(1);
            Ok(false)
        }
    }
}

/// Whether the one text is shorter than the other, and has no more lines.
pub fn is_smaller(one: &[u8], other: &[u8]) -> bool
    ensures bytes { IsTrue result → length one.now < length other.now }
    ensures lines { IsTrue result → count_lines one.now ≤ count_lines other.now }
{
    let fewer = count_lines(one) <= count_lines(other);
    fewer && one.len() < other.len()
}

/// Takes the candidate in the text's place, where it is smaller and still hangs. Answers whether it
/// was taken.
pub fn improve(
    alloc: Global,
    best: &mut Excerpt,
    candidate: Excerpt,
    left: &mut u32,
) -> Result<bool, AllocError>
    requires { CanHang best.old.text.items }
    ensures { OnOk result (IsShrunk best.old.text.items best.new.text.items) }
{
    if !is_smaller(&candidate.text, &best.text) {
        return Ok(false);
    }
    if !hangs(alloc, &candidate.text, left)? {
        return Ok(false);
    }
    *best = candidate;
    Ok(true)
}
