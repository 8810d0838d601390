//! The choices of a run, with the lines that pin them.

ghost use Rattle.std.specs.Prelude.{IfOk, IfSome, IsTrue, OnOk};
ghost use Rattle.callorder.specs.Programs.{call_at, is_of_rank};
ghost use Rattle.semantics.specs.Machine.{IsStuckRun};
ghost use Rattle.narrowing.specs.Laws.{LeavesOpen};
ghost use Rattle.choices.specs.parts.Weights.{AreChoicesOf};
ghost use Rattle.choices.specs.Weights.{IsChoiceOf};

use crate::items::Choice;
use crate::places::{line_numbers, lines_of};
use callorder::LongProgram;
use narrowing::{ChoiceTaken, is_open_send, other_ways, way_to};
use semantics::{State, Step};
use std::alloc::{AllocError, Global};

/// The number, from 1, of the line of a call that leaves something open.
fn line_of_call(numbers: &[usize], call: usize) -> Option<usize> {
    let number = numbers.get(call).copied()?;
    if number == 0 { None } else { Some(number) }
}

/// A choice of this call, with all of its other ways.
fn choice_of(
    alloc: Global,
    program: &LongProgram,
    line: usize,
    call: usize,
    rank: u32,
    step: usize,
    taken: ChoiceTaken,
) -> Result<Choice, AllocError>
    requires leaves { LeavesOpen program.now call taken }
    requires rank { IsTrue (is_of_rank (call_at program.now call) rank) }
    ensures { IfOk result (IsChoiceOf program.now) }
{
    let others = other_ways(alloc, program, call, taken)?;
    Ok(Choice {
        line,
        call,
        rank,
        step,
        taken,
        others,
    })
}

/// Which of the choices that a step makes is meant.
#[derive(Clone, Copy)]
enum Open {
    /// Whether this send is buffered.
    Send { call: usize, buffered: bool },
    /// Which message this call finds, which found that of the send.
    Message { send: usize, finder: usize },
}

/// Whether the call is a receive, a matched probe or a probe with a star.
fn is_wildcard(program: &LongProgram, finder: usize) -> bool {
    let Some(call) = program.call(finder) else {
        return false;
    };
    let Some(pattern) = call.kind.pattern() else {
        return false;
    };
    pattern.source.is_none() || pattern.tag.is_none()
}

/// What a step leaves open in a state, if anything.
fn open_at(program: &LongProgram, state: &State, step: Step) -> Option<Open> {
    match step {
        Step::Issue { rank, buffered } => {
            let call = state.next_of(rank)?;
            Some(Open::Send { call, buffered })
        }
        Step::Match { send, taker } => open_message(program, send, taker),
        Step::See { send, probe } => open_message(program, send, probe),
    }
}

/// That a call finds messages, if it has a star.
fn open_message(program: &LongProgram, send: usize, finder: usize) -> Option<Open> {
    if is_wildcard(program, finder) {
        Some(Open::Message { send, finder })
    } else {
        None
    }
}

/// The rank of a call.
fn rank_of(program: &LongProgram, call: usize) -> Option<u32>
    ensures { IfSome result (λ rank. IsTrue (is_of_rank (call_at program.now call) rank)) }
{
    match program.call(call) {
        None => None,
        Some(known) => Some(known.rank),
    }
}

/// Adds a choice of a send, if the policy leaves it open.
fn put_send(
    found: &mut Vec<Choice>,
    alloc: Global,
    program: &LongProgram,
    numbers: &[usize],
    step: usize,
    call: usize,
    buffered: bool,
) -> Result<(), AllocError>
    ensures { OnOk result (AreChoicesOf program.now found.old.items → AreChoicesOf program.now found.new.items) }
{
    if !is_open_send(program, call) {
        return Ok(());
    }
    let Some(line) = line_of_call(numbers, call) else {
        return Ok(());
    };
    let Some(rank) = rank_of(program, call) else {
        return Ok(());
    };
    let taken = if buffered {
        ChoiceTaken::Buffered
    } else {
        ChoiceTaken::NotBuffered
    };
    let choice = choice_of(alloc, program, line, call, rank, step, taken)?;
    found.push(choice)?;
    Ok(())
}

/// Adds a choice of a call that found a message, where one of another rank or tag fits too.
fn put_message(
    found: &mut Vec<Choice>,
    alloc: Global,
    program: &LongProgram,
    numbers: &[usize],
    step: usize,
    send: usize,
    finder: usize,
) -> Result<(), AllocError>
    ensures { OnOk result (AreChoicesOf program.now found.old.items → AreChoicesOf program.now found.new.items) }
{
    let Some(line) = line_of_call(numbers, finder) else {
        return Ok(());
    };
    let Some(rank) = rank_of(program, finder) else {
        return Ok(());
    };
    let Some(ChoiceTaken::Message { source, tag }) = way_to(program, send) else {
        return Ok(());
    };
    let taken = ChoiceTaken::Message { source, tag };
    let choice = choice_of(alloc, program, line, finder, rank, step, taken)?;
    if choice.others.is_empty() {
        return Ok(());
    }
    found.push(choice)?;
    Ok(())
}

/// Adds what a step chooses in a state.
fn put_choice(
    found: &mut Vec<Choice>,
    alloc: Global,
    program: &LongProgram,
    numbers: &[usize],
    state: &State,
    place: usize,
    step: Step,
) -> Result<(), AllocError>
    ensures { OnOk result (AreChoicesOf program.now found.old.items → AreChoicesOf program.now found.new.items) }
{
    match open_at(program, state, step) {
        None => Ok(()),
        Some(Open::Send { call, buffered }) => put_send(
            found, alloc, program, numbers, place, call, buffered,
        ),
        Some(Open::Message { send, finder }) => {
            put_message(found, alloc, program, numbers, place, send, finder)
        }
    }
}

/// Adds the choices of a run.
fn put_choices(
    found: &mut Vec<Choice>,
    alloc: Global,
    program: &LongProgram,
    numbers: &[usize],
    steps: &[Step],
) -> Result<(), AllocError>
    requires { IsStuckRun program.now steps.now }
    ensures { OnOk result (AreChoicesOf program.now found.old.items → AreChoicesOf program.now found.new.items) }
{
    let mut state = State::start(alloc, program)?;
    for (place, step) in steps.iter().enumerate() {
        put_choice(found, alloc, program, numbers, &state, place, *step)?;
        state.apply(program, *step);
    }
    Ok(())
}

/// The choices of a run of the text's program, in the order of the run.
pub fn choices_of(
    alloc: Global,
    text: &[u8],
    program: &LongProgram,
    steps: &[Step],
) -> Result<Vec<Choice>, AllocError>
    requires { IsStuckRun program.now steps.now }
    ensures { IfOk result (λ choices. AreChoicesOf program.now choices.items) }
{
    let lines = lines_of(alloc, text)?;
    let numbers = line_numbers(alloc, &lines)?;
    let mut found = Vec::new(alloc);
    put_choices(&mut found, alloc, program, &numbers, steps)?;
    Ok(found)
}
