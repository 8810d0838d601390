//! Runs of a program that end stuck in which a choice isn't made as it was.

ghost use Rattle.std.specs.Prelude.{◌≡◌, ◌↔◌, IfOk, IsTrue, Some};
ghost use Rattle.semantics.specs.Machine.{IsStuckRun, after_all, is_buffered, opening};
ghost use Rattle.narrowing.specs.Laws.{HasFound, IsTakenSo};
ghost use Rattle.choices.specs.parts.Steps.{buffered_after, is_at};
ghost use Rattle.choices.specs.Weights.{HangsOtherwise};

use crate::asking::is_run;
use crate::items::Choice;
use callorder::LongProgram;
use narrowing::{ChoiceTaken, way_to};
use semantics::{State, Step};
use std::alloc::{AllocError, Global};

/// Whether it is this place.
fn is_at(next: Option<usize>, call: usize) -> bool
    ensures { result ≡ is_at next call }
{
    match next {
        None => false,
        Some(next) => next == call,
    }
}

/// Whether the call is a buffered send once the step is taken, which it was before or not.
fn buffered_after(state: &State, step: Step, call: usize, before: bool) -> bool
    ensures { result ≡ buffered_after state.now step call before }
{
    match step {
        Step::Issue { rank, buffered } => {
            if is_at(state.next_of(rank), call) {
                buffered
            } else {
                before
            }
        }
        Step::Match { send: _, taker: _ } | Step::See { send: _, probe: _ } => before,
    }
}

/// The state at the end of a run, and whether the call is a buffered send there.
fn end_of(
    alloc: Global,
    program: &LongProgram,
    steps: &[Step],
    call: usize,
) -> Result<(State, bool), AllocError>
    requires { IsStuckRun program.now steps.now }
    ensures end { IfOk result (λ end. end.0 ≡ after_all (opening program.now) steps.now) }
    ensures buffered { IfOk result (λ end. end.1 ≡ is_buffered end.0 call) }
{
    let mut state = State::start(alloc, program)?;
    let mut buffered = false;
    for step in steps {
        buffered = buffered_after(&state, *step, call, buffered);
        state.apply(program, *step);
    }
    Ok((state, buffered))
}

/// Whether two ways are one.
fn is_same(way: ChoiceTaken, other: ChoiceTaken) -> bool
    ensures { IsTrue result ↔ (way ≡ other) }
{
    way == other
}

/// Whether it is this way.
fn is_way(found: Option<ChoiceTaken>, taken: ChoiceTaken) -> bool
    ensures { found ≡ Some taken → IsTrue result }
{
    match found {
        None => false,
        Some(way) => is_same(way, taken),
    }
}

/// Whether the call has found a message of the rank and with the tag that are told.
fn has_found(program: &LongProgram, state: &State, call: usize, taken: ChoiceTaken) -> bool
    ensures { HasFound program.now state.now call taken → IsTrue result }
{
    match state.partner(call) {
        None => false,
        Some(send) => is_way(way_to(program, send), taken),
    }
}

/// Whether the choice is made so in this state, in which the call is a buffered send or not.
fn is_taken_so(
    program: &LongProgram,
    state: &State,
    buffered: bool,
    call: usize,
    taken: ChoiceTaken,
) -> bool
    requires { buffered ≡ is_buffered state.now call }
    ensures { IsTakenSo program.now state.now call taken → IsTrue result }
{
    match taken {
        ChoiceTaken::Buffered => state.is_issued(program, call) && buffered,
        ChoiceTaken::NotBuffered => state.is_issued(program, call) && !buffered,
        ChoiceTaken::Message { source: _, tag: _ } => has_found(program, state, call, taken),
    }
}

/// Whether the choice isn't made as it was at the end of a run.
fn ends_otherwise(
    alloc: Global,
    program: &LongProgram,
    choice: &Choice,
    steps: &[Step],
) -> Result<bool, AllocError>
    requires { IsStuckRun program.now steps.now }
    ensures { IfOk result (λ is. IsTrue is →
        IsTakenSo program.now (after_all (opening program.now) steps.now) choice.now.call choice.now.taken → ⊥) }
{
    let (state, buffered) = end_of(alloc, program, steps, choice.call)?;
    let same = is_taken_so(program, &state, buffered, choice.call, choice.taken);
    Ok(!same)
}

/// Whether the steps are a run of the program that ends stuck in which the choice isn't made as it
/// was.
pub fn hangs_otherwise(
    alloc: Global,
    program: &LongProgram,
    choice: &Choice,
    steps: &[Step],
) -> Result<bool, AllocError>
    ensures { IfOk result (λ is. IsTrue is → HangsOtherwise program.now choice.now) }
{
    if !is_run(alloc, program, steps)? {
        return Ok(false);
    }
    ends_otherwise(alloc, program, choice, steps)
}

/// How many calls of the rank stand before this one.
fn calls_before(program: &LongProgram, call: usize, rank: u32) -> usize {
    let mut count = 0usize;
    for other in program.calls().iter().take(call) {
        if other.rank == rank {
            count = count.saturating_add(1);
        }
    }
    count
}

/// The place of the step that issues the call of a rank behind which so many of its calls stand.
fn issue_behind(steps: &[Step], rank: u32, count: usize) -> Option<usize> {
    let mut left = count;
    for (place, step) in steps.iter().enumerate() {
        if let Step::Issue {
            rank: issuing,
            buffered: _,
        } = step
        {
            if *issuing == rank {
                if left == 0 {
                    return Some(place);
                }
                left -= 1;
            }
        }
    }
    None
}

/// The place of the step that issues a call, and the call's rank.
fn issue_of(program: &LongProgram, steps: &[Step], call: usize) -> Option<(usize, u32)> {
    let known = program.call(call)?;
    let count = calls_before(program, call, known.rank);
    let place = issue_behind(steps, known.rank, count)?;
    Some((place, known.rank))
}

/// The steps, but that this one issues the rank's call as a send that is buffered, or not.
pub fn with_issue(
    alloc: Global,
    steps: &[Step],
    place: usize,
    rank: u32,
    buffered: bool,
) -> Result<Vec<Step>, AllocError> {
    let mut changed = Vec::from_slice(alloc, steps)?;
    if let Some(step) = changed.get_mut(place) {
        *step = Step::Issue { rank, buffered };
    }
    Ok(changed)
}

/// The steps of a run of the program in which this call leaves open no more than this way, as they
/// are of the program itself, in which a send in buffered mode is one that is buffered.
pub fn widened(
    alloc: Global,
    program: &LongProgram,
    call: usize,
    way: ChoiceTaken,
    steps: &[Step],
) -> Result<Vec<Step>, AllocError> {
    if way == ChoiceTaken::Buffered {
        if let Some((place, rank)) = issue_of(program, steps, call) {
            return with_issue(alloc, steps, place, rank, true);
        }
    }
    Vec::from_slice(alloc, steps)
}
