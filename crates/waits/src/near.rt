//! The near misses of a call that waits.

ghost use Rattle.std.specs.Prelude.{◌≡◌, IfOk, length};
ghost use Rattle.waits.specs.Misses.{misses_in, is_unmatched_fit, is_near_miss, has_unmatched_fit, near_misses, unmatched_misses};

use crate::fits_with;
use crate::parts::{Mismatch, missed_by};
use callorder::LongProgram;
use semantics::State;
use std::alloc::{AllocError, Global};

/// The one part in which the calls at two places miss each other, if one is a send, the other a
/// receive or a matched probe, or, where the first call is that, a probe, and all other parts hold.
/// A send misses no probe, as it looks for none.
pub fn misses_in(program: &LongProgram, call: usize, other: usize) -> Option<Mismatch>
    ensures { result ≡ misses_in program.now call other }
{
    match (program.call(call), program.call(other)) {
        (Some(one), Some(two)) => {
            if two.kind.message().is_some() {
                missed_by(&two, &one)
            } else if two.kind.is_probe() {
                None
            } else {
                missed_by(&one, &two)
            }
        }
        _ => None,
    }
}

/// Whether the call at the second place is one that the first looks for, and has no partner.
fn is_unmatched_fit(program: &LongProgram, state: &State, call: usize, other: usize) -> bool
    ensures { result ≡ is_unmatched_fit program.now state.now call other }
{
    fits_with(program, call, other) && state.partner(other).is_none()
}

/// Whether the call at the second place misses the first in one part, and has no partner.
fn is_near_miss(program: &LongProgram, state: &State, call: usize, other: usize) -> bool
    ensures { result ≡ is_near_miss program.now state.now call other }
{
    misses_in(program, call, other).is_some() && state.partner(other).is_none()
}

/// Whether a call that the one at this place looks for has no partner.
fn has_unmatched_fit(program: &LongProgram, state: &State, call: usize) -> bool
    ensures { result ≡ has_unmatched_fit program.now state.now call }
{
    (0..program.calls().len()).any(|other| is_unmatched_fit(program, state, call, other))
}

/// The places of the calls that have no partner and miss the one at this place in exactly one part,
/// in rising order.
fn unmatched_misses(
    alloc: Global,
    program: &LongProgram,
    state: &State,
    call: usize,
) -> Result<Vec<usize>, AllocError>
    ensures { IfOk result (λ places. places.items ≡ unmatched_misses program.now state.now call) }
{
    let count = program.calls().len();
    (0..count)
        .filter(|other| is_near_miss(program, state, call, *other))
        .collect(alloc)
}

/// The places of the calls that have no partner and miss the one at this place in exactly one part,
/// in rising order; none where a call without a partner fits. The only error is want of memory.
pub fn near_misses(
    alloc: Global,
    program: &LongProgram,
    state: &State,
    call: usize,
) -> Result<Vec<usize>, AllocError>
    ensures { IfOk result (λ places. places.items ≡ near_misses program.now state.now call) }
{
    if has_unmatched_fit(program, state, call) {
        return Ok(Vec::new(alloc));
    }
    unmatched_misses(alloc, program, state, call)
}
