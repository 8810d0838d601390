//! Which calls fit with a call, and what became of them.

ghost use Rattle.std.specs.Prelude.{◌≡◌, IfOk, length, filter};
ghost use Rattle.std.specs.List.{range_with_len};
ghost use Rattle.waits.specs.Waiting.{fate_in, fits_with};

use callorder::LongProgram;
use semantics::State;
use std::alloc::{AllocError, Global};

/// What became of a call.
#[derive(Clone, Copy, PartialEq, Eq)]
pub enum Fate {
    /// It is matched with the call at this place, or is a probe that saw the send there.
    Taken(usize),
    /// Its rank has not come to it.
    NotIssued,
    /// It is issued and not matched, and a probe has seen nothing.
    Open,
}

/// What became of the call at a place. A place where the program has no call is told as not issued,
/// unless the state has a partner for it.
pub fn fate_of(program: &LongProgram, state: &State, call: usize) -> Fate
    ensures { result ≡ fate_in program.now state.now call }
{
    match state.partner(call) {
        Some(other) => Fate::Taken(other),
        None => {
            if state.is_issued(program, call) {
                Fate::Open
            } else {
                Fate::NotIssued
            }
        }
    }
}

/// Whether there are calls at both places, and the second is one that the first looks for: a
/// receive or matched probe that it fits, where the first is a send; else a send that fits the
/// receive, matched probe or probe. A send looks for no probe.
pub fn fits_with(program: &LongProgram, call: usize, other: usize) -> bool
    ensures { result ≡ fits_with program.now call other }
{
    program.takes(call, other) || program.are_fit(other, call)
}

/// The places of the calls that the one at this place looks for, in rising order. The only error is
/// want of memory.
pub fn fitting(alloc: Global, program: &LongProgram, call: usize) -> Result<Vec<usize>, AllocError>
    ensures { IfOk result (λ places. places.items ≡ filter (fits_with program.now call) (range_with_len 0 (length program.now.calls))) }
{
    let count = program.calls().len();
    (0..count)
        .filter(|other| fits_with(program, call, *other))
        .collect(alloc)
}
