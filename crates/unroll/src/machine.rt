//! What is kept while a text is unrolled, and the steps that change it.

ghost use Rattle.std.specs.Prelude.{◌≡◌, OnOk};
ghost use Rattle.unroll.specs.Labels.{request, handle, is_left_out, without, is_open, opened_so, opened_request, opened_after};
ghost use Rattle.unroll.specs.parts.Runs.{HasOutcome, seen_run, faulty};
ghost use Rattle.unroll.specs.Runs.{call_put, guarded, guarded_request, left, left_request, assigned, turn_begun, loop_finished, set_value};

use crate::call::{Attendance, Fault, Label, LeftOut, Meeting, Placed, Start, Turn, UnrolledCall};
use crate::value::{FaultReason, Value};
use indexmap::{IndexMap, IndexSet};
use std::alloc::{AllocError, AllocFailed, Global};

/// A rank, from 0, of so many, whether each collective call is a barrier, and how many calls and
/// turns of loops all ranks together may make.
#[derive(Clone, Copy)]
pub(crate) struct Scope {
    pub(crate) rank: u32,
    pub(crate) size: u32,
    pub(crate) barriers: bool,
    pub(crate) most_calls: u64,
    pub(crate) most_turns: u64,
}

/// How far a text is unrolled: the values of names, the starts that were left out and have not
/// ended, those that were made, each with whether it has not ended; of all ranks so far those who met in collective calls, who attended last at the number of
/// each, the calls and the turns; and the turn that is going on, or 0.
#[derive(Drop)]
pub(crate) struct Machine {
    pub(crate) alloc: Global,
    pub(crate) values: Vec<Option<Value>>,
    pub(crate) left_out: Vec<LeftOut>,
    pub(crate) opened: IndexMap<Start, bool>,
    pub(crate) meetings: IndexSet<Meeting>,
    pub(crate) attended: Vec<Attendance>,
    pub(crate) calls: Vec<Placed>,
    pub(crate) turns: Vec<Turn>,
    pub(crate) turn: u64,
}

/// Why unrolling stopped.
#[derive(Clone, Copy)]
pub(crate) enum Stop {
    /// The allocator refused memory.
    Memory,
    /// What is wrong first.
    Faulty(Fault),
}

impl From<AllocError> for Stop {
    ghost use Rattle.unroll.specs.declared.machine.Stop.TheVariants.{Memory};

    ghost from_gives = { λ _ e. e ≡ Memory };

    fn from(_e: AllocError) -> Stop {
        Stop::Memory
    }
}

impl<T: Drop> From<AllocFailed<T>> for Stop {
    ghost use Rattle.unroll.specs.declared.machine.Stop.TheVariants.{Memory};

    ghost from_gives = { λ _ e. e ≡ Memory };

    fn from(_e: AllocFailed<T>) -> Stop {
        Stop::Memory
    }
}

/// What is wrong here.
pub(crate) fn faulty(machine: &Machine, scope: Scope, line: u32, reason: FaultReason) -> Stop
    ensures { result ≡ faulty scope line reason (seen_run machine.now) }
{
    Stop::Faulty(Fault {
        rank: scope.rank,
        line,
        turn: machine.turn,
        reason,
    })
}

/// Notes whether a start is open.
fn open(opened: &mut IndexMap<Start, bool>, start: Start, is: bool) -> Result<(), AllocError>
    ensures { OnOk result (opened.new.entries ≡ opened_so opened.old.entries start is) }
{
    opened.insert(start, is)?;
    Ok(())
}

/// A request, as what a call starts.
pub(crate) fn started_request(label: Label) -> Start
    ensures { result ≡ request label }
{
    Start {
        handle: false,
        label,
    }
}

/// A handle, as what a call starts.
pub(crate) fn started_handle(label: Label) -> Start
    ensures { result ≡ handle label }
{
    Start {
        handle: true,
        label,
    }
}

/// Notes that a request is open, where the call has one.
fn open_request(opened: &mut IndexMap<Start, bool>, label: Option<Label>) -> Result<(), AllocError>
    ensures { OnOk result (opened.new.entries ≡ opened_request opened.old.entries label) }
{
    match label {
        None => Ok(()),
        Some(label) => open(opened, started_request(label), true),
    }
}

/// Notes what a call starts, and what it ends.
fn note(opened: &mut IndexMap<Start, bool>, call: UnrolledCall) -> Result<(), AllocError>
    ensures { OnOk result (opened.new.entries ≡ opened_after call opened.old.entries) }
{
    match call {
        UnrolledCall::Send { request, .. } => open_request(opened, request),
        UnrolledCall::Receive { request, .. } => open_request(opened, request),
        UnrolledCall::MatchedProbe { handle: label, .. } => open(
            opened,
            started_handle(label),
            true,
        ),
        UnrolledCall::MatchedReceive {
            request,
            handle: label,
        } => {
            open(opened, started_handle(label), false)?;
            open_request(opened, request)
        }
        UnrolledCall::Wait { request: label }
        | UnrolledCall::WaitAll { request: label }
        | UnrolledCall::WaitAlso { request: label } => open(opened, started_request(label), false),
        UnrolledCall::Probe { .. } | UnrolledCall::SendReceive { .. } => Ok(()),
    }
}

/// Makes one call more, unless there are as many as may be.
pub(crate) fn put(
    machine: &mut Machine,
    scope: Scope,
    line: u32,
    call: UnrolledCall,
) -> Result<(), Stop>
    ensures { HasOutcome result (call_put scope line call (seen_run machine.old)) (seen_run machine.new) }
{
    if machine.calls.len() as u64 >= scope.most_calls {
        return Err(faulty(machine, scope, line, FaultReason::TooManyCalls));
    }
    machine.calls.push(Placed {
        rank: scope.rank,
        line,
        turn: machine.turn,
        call,
    })?;
    note(&mut machine.opened, call)?;
    Ok(())
}

/// Whether this start was left out, and did not end yet.
pub(crate) fn is_left_out(left_out: &[LeftOut], start: Start) -> bool
    ensures { result ≡ is_left_out left_out.now start }
{
    left_out.iter().any(|l| l.start == start)
}

/// Ends a start that was left out.
pub(crate) fn forget(left_out: &mut Vec<LeftOut>, start: Start)
    ensures { left_out.new.items ≡ without left_out.old.items start }
{
    left_out.retain(|l| l.start != start);
}

/// What is wrong with a start where one of its name is open.
fn still_open(machine: &Machine, scope: Scope, line: u32, start: Start) -> Stop
    ensures { result ≡ faulty scope line (FaultReason.StillOpen start.label.name) (seen_run machine.now) }
{
    faulty(
        machine,
        scope,
        line,
        FaultReason::StillOpen {
            name: start.label.name,
        },
    )
}

/// Refuses a start of what was left out before and did not end yet.
pub(crate) fn guard(machine: &Machine, scope: Scope, line: u32, start: Start) -> Result<(), Stop>
    ensures { HasOutcome result (guarded scope line start (seen_run machine.now)) (seen_run machine.now) }
{
    if is_left_out(&machine.left_out, start) {
        return Err(still_open(machine, scope, line, start));
    }
    Ok(())
}

/// Refuses a start whose request was left out before, where the call has one.
pub(crate) fn guard_request(
    machine: &Machine,
    scope: Scope,
    line: u32,
    label: Option<Label>,
) -> Result<(), Stop>
    ensures { HasOutcome result (guarded_request scope line label (seen_run machine.now)) (seen_run machine.now) }
{
    match label {
        None => Ok(()),
        Some(label) => guard(machine, scope, line, started_request(label)),
    }
}

/// Whether a call made this start, and no call ended it yet.
fn is_open(opened: &IndexMap<Start, bool>, start: Start) -> bool
    ensures { result ≡ is_open opened.now.entries start }
{
    opened.get(&start).copied().unwrap_or(false)
}

/// Leaves a start out, and remembers it. It is refused where one of its name is open.
pub(crate) fn leave(
    machine: &mut Machine,
    scope: Scope,
    line: u32,
    start: Start,
) -> Result<(), Stop>
    ensures { HasOutcome result (left scope line start (seen_run machine.old)) (seen_run machine.new) }
{
    if is_open(&machine.opened, start) {
        return Err(still_open(machine, scope, line, start));
    }
    machine.left_out.push(LeftOut {
        start,
        line,
        turn: machine.turn,
    })?;
    Ok(())
}

/// Leaves a call out, and remembers its request where it has one.
pub(crate) fn leave_request(
    machine: &mut Machine,
    scope: Scope,
    line: u32,
    label: Option<Label>,
) -> Result<(), Stop>
    ensures { HasOutcome result (left_request scope line label (seen_run machine.old)) (seen_run machine.new) }
{
    match label {
        None => Ok(()),
        Some(label) => leave(machine, scope, line, started_request(label)),
    }
}

/// Sets the value of a name; a place beyond the list has none.
fn set_value(values: &mut Vec<Option<Value>>, name: u32, value: Option<Value>)
    ensures { values.new.items ≡ set_value values.old.items name value }
{
    if (name as usize) < values.len() {
        values[name as usize] = value;
    }
}

/// Gives the name this value.
pub(crate) fn assign(machine: &mut Machine, name: u32, value: Value)
    ensures { seen_run machine.new ≡ assigned name value (seen_run machine.old) }
{
    set_value(&mut machine.values, name, Some(value));
}

/// Begins a turn of a loop.
pub(crate) fn begin(
    machine: &mut Machine,
    scope: Scope,
    line: u32,
    name: u32,
    outer: u64,
    value: i64,
) -> Result<(), Stop>
    ensures { HasOutcome result (turn_begun scope line name outer value (seen_run machine.old)) (seen_run machine.new) }
{
    if machine.turns.len() as u64 >= scope.most_turns {
        return Err(faulty(machine, scope, line, FaultReason::TooManyTurns));
    }
    let turn = machine.turns.len() as u64 + 1;
    machine.turns.push(Turn { outer, name, value })?;
    machine.turn = turn;
    set_value(&mut machine.values, name, Some(Value::Number(value)));
    Ok(())
}

/// Ends a loop: its variable has no value any more.
pub(crate) fn finish(machine: &mut Machine, name: u32, outer: u64)
    ensures { seen_run machine.new ≡ loop_finished name outer (seen_run machine.old) }
{
    machine.turn = outer;
    set_value(&mut machine.values, name, None);
}
