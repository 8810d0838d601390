//! A run that goes through steps that somebody wants.

ghost use Rattle.std.specs.Prelude.{◌≡◌, IfOk, IfSome, IsTrue, OnOk};
ghost use Rattle.always.specs.Always.{IsEndedRun};
ghost use Rattle.semantics.specs.Machine.{opening, after_all};
ghost use Rattle.leastrun.specs.parts.Along.{AreApart, AreOpenCalls, FitsNone, IsReached};

use crate::tables::Tables;
use crate::walk::{Buffering, buffered_run, go_on};
use callorder::LongProgram;
use semantics::{State, Step};
use std::alloc::{AllocError, Global};

/// Takes these steps, each where it is enabled, and tells whether all were. The only error is want
/// of memory.
fn take_all(
    program: &LongProgram,
    state: &mut State,
    steps: &mut Vec<Step>,
    wanted: &[Step],
) -> Result<bool, AllocError>
    requires { IsReached program.now steps.old.items state.old }
    ensures { OnOk result (IsReached program.now steps.new.items state.new) }
{
    for step in wanted {
        if !state.enabled(program, *step) {
            return Ok(false);
        }
        steps.push(*step)?;
        state.apply(program, *step);
    }
    Ok(true)
}

/// The open calls of a state, rising. The only error is want of memory.
fn open_calls(alloc: Global, program: &LongProgram, state: &State) -> Result<Vec<usize>, AllocError>
    ensures { IfOk result (λ calls. AreOpenCalls program.now state.now calls.items) }
{
    let mut calls = Vec::new(alloc);
    for call in 0..program.calls().len() {
        if state.is_open(program, call) {
            calls.push(call)?;
        }
    }
    Ok(calls)
}

/// Whether the call is no send that fits one of these.
fn fits_none(program: &LongProgram, send: usize, calls: &[usize]) -> bool
    ensures { IsTrue result → FitsNone program.now send calls.now }
{
    for place in 0..calls.len() {
        if program.are_fit(send, calls[place]) {
            return false;
        }
    }
    true
}

/// Whether none of these calls is a send that fits another one.
fn are_apart(program: &LongProgram, calls: &[usize]) -> bool
    ensures { IsTrue result → AreApart program.now calls.now }
{
    for place in 0..calls.len() {
        if !fits_none(program, calls[place], calls) {
            return false;
        }
    }
    true
}

/// The run that first goes as far as it can before these bounds, then takes the wanted steps, and
/// then goes on until no step is enabled; beside the wanted steps it buffers as little as the
/// policy allows. A bound is the place of a call in the program's list, from 0, by rank: that call
/// of the rank isn't issued before the wanted steps. `None` where a wanted step isn't enabled in
/// its turn, or where some open send still fits an open call behind them. The only error is want of
/// memory.
///
/// The time is near linear in the calls, but for the wanted steps: each match or see among them
/// looks at the earlier calls of both ranks, and behind them each open call is compared with each
/// other.
pub fn run_along(
    alloc: Global,
    program: &LongProgram,
    bounds: &[usize],
    wanted: &[Step],
) -> Result<Option<(Vec<Step>, State)>, AllocError>
    ensures run { IfOk result (λ found. IfSome found (λ walked. IsEndedRun program.now walked.0.items)) }
    ensures end { IfOk result (λ found. IfSome found (λ walked. walked.1 ≡ after_all (opening program.now) walked.0.items)) }
{
    let (mut steps, mut state) = buffered_run(alloc, program, Buffering::Least, bounds)?;
    if !take_all(program, &mut state, &mut steps, wanted)? {
        return Ok(None);
    }
    let calls = open_calls(alloc, program, &state)?;
    if !are_apart(program, &calls) {
        return Ok(None);
    }
    let tables = Tables::of(alloc, program, &state, &calls)?;
    let walked = go_on(alloc, program, Buffering::Least, &[], tables, steps, state)?;
    Ok(Some(walked))
}
