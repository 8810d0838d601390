//! The runs that buffer as little and as much as the policy allows.

ghost use Rattle.std.specs.Prelude.{◌≡◌, ℕ, [], IfSome, IfNone, IfOk, OnOk, None, Option};
ghost use Rattle.semantics.specs.Configurations.{IsConfigurationOf};
ghost use Rattle.semantics.specs.Machine.{opening, after_all};
ghost use Rattle.leastrun.specs.parts.Along.{IsReached};
ghost use Rattle.leastrun.specs.parts.Waiting.{IsKept, NoOpenPair, IsFresh, fresh_after, IsSettled, IsNext, NoIssueOf};
ghost use Rattle.leastrun.specs.LeastBuffered.{BuffersSo, NothingEnabled, IsLeastBufferedRun, IsMostBufferedRun, IsBufferedRun};

use crate::lookup::find_of;
use crate::tables::Tables;
use callorder::{Kind, LongProgram, Policy};
use semantics::{State, Step};
use std::alloc::{AllocError, Global};

/// Which standard sends a run buffers, where the policy leaves it open.
#[derive(Clone, Copy, Debug, PartialEq, Eq)]
pub enum Buffering {
    /// None.
    Least,
    /// Each.
    Most,
}

/// The issue of the rank's next call, buffered only where it has to be.
fn least_issue(program: &LongProgram, state: &State, rank: u32) -> Option<Step>
    requires none_open { NoOpenPair program.now state.now }
    ensures some { IfSome result (IsNext Buffering.Least program.now state.now) }
    ensures none { IfNone result (NoIssueOf program.now state.now rank) }
{
    let unbuffered = Step::Issue {
        rank,
        buffered: false,
    };
    if state.enabled(program, unbuffered) {
        return Some(unbuffered);
    }
    if program.policy() == Policy::Always {
        let buffered = Step::Issue {
            rank,
            buffered: true,
        };
        if state.enabled(program, buffered) {
            return Some(buffered);
        }
    }
    None
}

/// The issue of the rank's next call, buffered wherever it may be.
fn most_issue(program: &LongProgram, state: &State, rank: u32) -> Option<Step>
    requires none_open { NoOpenPair program.now state.now }
    ensures some { IfSome result (IsNext Buffering.Most program.now state.now) }
    ensures none { IfNone result (NoIssueOf program.now state.now rank) }
{
    let buffered = Step::Issue {
        rank,
        buffered: true,
    };
    if state.enabled(program, buffered) {
        return Some(buffered);
    }
    let otherwise = Step::Issue {
        rank,
        buffered: false,
    };
    if state.enabled(program, otherwise) {
        return Some(otherwise);
    }
    None
}

/// The issue of the rank's next call.
fn issue_of(program: &LongProgram, state: &State, buffering: Buffering, rank: u32) -> Option<Step>
    requires none_open { NoOpenPair program.now state.now }
    ensures some { IfSome result (IsNext buffering program.now state.now) }
    ensures none { IfNone result (NoIssueOf program.now state.now rank) }
{
    match buffering {
        Buffering::Least => least_issue(program, state, rank),
        Buffering::Most => most_issue(program, state, rank),
    }
}

/// Whether the rank's next call is before its bound. A rank that has none is bounded by nothing.
fn is_within(state: &State, bounds: &[usize], rank: u32) -> bool {
    match (bounds.get(rank as usize), state.next_of(rank)) {
        (Some(bound), Some(next)) => next < *bound,
        _ => true,
    }
}

/// The issue of the rank's next call, where that is before its bound.
fn issue_within(
    program: &LongProgram,
    state: &State,
    buffering: Buffering,
    bounds: &[usize],
    rank: u32,
) -> Option<Step>
    requires none_open { NoOpenPair program.now state.now }
    ensures { IfSome result (IsNext buffering program.now state.now) }
{
    if !is_within(state, bounds, rank) {
        return None;
    }
    issue_of(program, state, buffering, rank)
}

/// An enabled issue of one of these ranks, which are taken off the list up to it, of a call before
/// its rank's bound.
fn ready_issue(
    program: &LongProgram,
    state: &State,
    buffering: Buffering,
    bounds: &[usize],
    ready: &mut Vec<u32>,
) -> Option<Step>
    requires none_open { NoOpenPair program.now state.now }
    ensures { IfSome result (IsNext buffering program.now state.now) }
{
    for _ in 0..ready.len() {
        let Some(rank) = ready.pop() else {
            return None;
        };
        let issue = issue_within(program, state, buffering, bounds, rank);
        if issue.is_some() {
            return issue;
        }
    }
    None
}

/// An enabled issue of any rank.
fn any_issue(program: &LongProgram, state: &State, buffering: Buffering) -> Option<Step>
    requires of { IsConfigurationOf program.now state.now }
    requires none_open { NoOpenPair program.now state.now }
    ensures some { IfSome result (IsNext buffering program.now state.now) }
    ensures none { IfNone result (NothingEnabled program.now state.now) }
{
    for rank in 0..program.ranks() {
        let issue = issue_of(program, state, buffering, rank);
        if issue.is_some() {
            return issue;
        }
    }
    None
}

/// An enabled issue: of a rank that is ready, and where there is none and no rank has a bound, of
/// any rank. The list of ready ranks misses none, so that all ranks are looked at once, at the end.
fn next_issue(
    program: &LongProgram,
    state: &State,
    buffering: Buffering,
    bounds: &[usize],
    ready: &mut Vec<u32>,
) -> Option<Step>
    requires of { IsConfigurationOf program.now state.now }
    requires none_open { NoOpenPair program.now state.now }
    ensures some { IfSome result (IsNext buffering program.now state.now) }
    ensures none { bounds.now ≡ [] → IfNone result (NothingEnabled program.now state.now) }
{
    let issue = ready_issue(program, state, buffering, bounds, ready);
    if issue.is_some() {
        return issue;
    }
    if !bounds.is_empty() {
        return None;
    }
    any_issue(program, state, buffering)
}

/// The next step: a find of the fresh call, and where there is none, that call waits from then on,
/// and the step is an issue. `None` where no step is enabled but issues behind a bound. The only
/// error is want of memory.
fn next_step(
    program: &LongProgram,
    state: &State,
    buffering: Buffering,
    bounds: &[usize],
    tables: &mut Tables,
    ready: &mut Vec<u32>,
    fresh: &mut Option<usize>,
) -> Result<Option<Step>, AllocError>
    requires of { IsConfigurationOf program.now state.now }
    requires kept { IsKept program.now fresh.old state.now tables.old }
    requires fresh { IsFresh program.now state.now fresh.old }
    ensures kept { OnOk result (IsKept program.now fresh.new state.now tables.new) }
    ensures fresh { OnOk result (IsFresh program.now state.now fresh.new) }
    ensures settled { IfOk result (λ next. IfSome next (IsSettled fresh.new)) }
    ensures some { IfOk result (λ next. IfSome next (IsNext buffering program.now state.now)) }
    ensures none { bounds.now ≡ [] → IfOk result (λ next. IfNone next (NothingEnabled program.now state.now)) }
{
    let Some(call) = *fresh else {
        return Ok(next_issue(program, state, buffering, bounds, ready));
    };
    let find = find_of(program, state, tables, call);
    if find.is_some() {
        return Ok(find);
    }
    tables.post(program, state, call)?;
    *fresh = None;
    Ok(next_issue(program, state, buffering, bounds, ready))
}

/// The fresh call once this step is taken, in a state before it.
fn fresh_after(state: &State, fresh: Option<usize>, step: Step) -> Option<usize>
    ensures { result ≡ fresh_after state.now fresh step }
{
    match step {
        Step::Issue { rank, .. } => state.next_of(rank),
        _ => fresh,
    }
}

/// Takes off the rows what is matched at their fronts, now that this step is taken.
fn pass_by(program: &LongProgram, state: &State, tables: &mut Tables, step: Step)
    ensures { (fresh : Option ℕ) → IsKept program.now fresh state.now tables.old → IsKept program.now fresh state.now tables.new }
{
    match step {
        Step::Issue { .. } => {}
        Step::Match { send, taker } => {
            tables.pass(program, state, send);
            tables.pass(program, state, taker);
        }
        Step::See { probe, .. } => tables.pass(program, state, probe),
    }
}

/// The receives on handles, each with its matched probe, in the order of the receives. The only
/// error is want of memory.
fn probes_of(alloc: Global, program: &LongProgram) -> Result<Vec<(usize, usize)>, AllocError> {
    let mut probes = Vec::new(alloc);
    for (place, call) in program.calls().iter().enumerate() {
        if let Kind::MatchedProbe { receive, .. } = call.kind {
            probes.push((receive, place))?;
        }
    }
    probes.sort()?;
    Ok(probes)
}

/// Takes in that the rank of this call may go on. The only error is want of memory.
fn wake(program: &LongProgram, ready: &mut Vec<u32>, call: usize) -> Result<(), AllocError> {
    match program.call(call) {
        None => Ok(()),
        Some(known) => {
            ready.push(known.rank)?;
            Ok(())
        }
    }
}

/// The send of the message that this call, the receive on a handle, fetches.
fn fetched_from(state: &State, probes: &[(usize, usize)], call: usize) -> Option<usize> {
    let place = probes.partition_point(|(receive, _)| *receive < call);
    match probes.get(place) {
        Some((receive, probe)) if *receive == call => state.partner(*probe),
        _ => None,
    }
}

/// Takes in which ranks may go on once this step is taken, in a state before it. The only error is
/// want of memory.
fn wake_by(
    program: &LongProgram,
    state: &State,
    probes: &[(usize, usize)],
    ready: &mut Vec<u32>,
    step: Step,
) -> Result<(), AllocError> {
    match step {
        Step::Issue { rank, .. } => {
            ready.push(rank)?;
            let call = state.next_of(rank).unwrap_or(0);
            match fetched_from(state, probes, call) {
                None => Ok(()),
                Some(send) => wake(program, ready, send),
            }
        }
        Step::Match { send, taker } => {
            wake(program, ready, send)?;
            wake(program, ready, taker)
        }
        Step::See { probe, .. } => wake(program, ready, probe),
    }
}

/// All ranks, the highest first. The only error is want of memory.
fn all_ranks(alloc: Global, ranks: u32) -> Result<Vec<u32>, AllocError> {
    let mut ready = Vec::new(alloc);
    for rank in (0..ranks).rev() {
        ready.push(rank)?;
    }
    Ok(ready)
}

/// Goes on with a run, buffering so, as far as it goes and no rank past its bound; where no rank
/// has a bound, until no step is enabled. The only error is want of memory.
pub fn go_on(
    alloc: Global,
    program: &LongProgram,
    buffering: Buffering,
    bounds: &[usize],
    mut tables: Tables,
    mut steps: Vec<Step>,
    mut state: State,
) -> Result<(Vec<Step>, State), AllocError>
    requires reached { IsReached program.now steps.items state }
    requires kept { IsKept program.now None state tables }
    requires none_open { NoOpenPair program.now state }
    ensures reached { IfOk result (λ walked. IsReached program.now walked.0.items walked.1) }
    ensures ended { bounds.now ≡ [] → IfOk result (λ walked. NothingEnabled program.now walked.1) }
    ensures choice { BuffersSo buffering program.now steps.items
        → IfOk result (λ walked. BuffersSo buffering program.now walked.0.items) }
{
    let probes = probes_of(alloc, program)?;
    let mut ready = all_ranks(alloc, program.ranks())?;
    let mut fresh = None;
    for turn in 0..2 * program.calls().len() + 1 {
        let next = next_step(
            program,
            &state,
            buffering,
            bounds,
            &mut tables,
            &mut ready,
            &mut fresh,
        )?;
        let Some(step) = next else {
            return Ok((steps, state));
        };
        wake_by(program, &state, &probes, &mut ready, step)?;
        fresh = fresh_after(&state, fresh, step);
        steps.push(step)?;
        state.apply(program, step);
        pass_by(program, &state, &mut tables, step);
    }
    Ok((steps, state))
}

/// A run that buffers so, as far as it goes and no rank past its bound, and the state after it. The
/// only error is want of memory.
pub fn buffered_run(
    alloc: Global,
    program: &LongProgram,
    buffering: Buffering,
    bounds: &[usize],
) -> Result<(Vec<Step>, State), AllocError>
    ensures run { bounds.now ≡ [] → IfOk result (λ walked. IsBufferedRun buffering program.now walked.0.items) }
    ensures reached { IfOk result (λ walked. IsReached program.now walked.0.items walked.1) }
{
    let tables = Tables::new(alloc, program)?;
    let state = State::start(alloc, program)?;
    let steps = Vec::with_capacity(alloc, 2 * program.calls().len() + 1)?;
    let walked = go_on(alloc, program, buffering, bounds, tables, steps, state)?;
    Ok(walked)
}

/// The run that buffers as little as the policy allows, as far as it goes, and the state after it,
/// in which no step is enabled. A standard send is issued as buffered only where the policy has
/// each one buffered. Whether the run finishes or gets stuck, `State::unfinished` of that state
/// tells. Ranks and calls in the steps count from 0. The only error is want of memory.
///
/// The time is near linear in the calls.
pub fn least_buffered_run(
    alloc: Global,
    program: &LongProgram,
) -> Result<(Vec<Step>, State), AllocError>
    ensures run { IfOk result (λ walked. IsLeastBufferedRun program.now walked.0.items) }
    ensures end { IfOk result (λ walked. walked.1 ≡ after_all (opening program.now) walked.0.items) }
{
    let walked = buffered_run(alloc, program, Buffering::Least, &[])?;
    Ok(walked)
}

/// As `least_buffered_run`, of the run that buffers as much as the policy allows: a standard send
/// is issued as not buffered only where the policy has none buffered.
pub fn most_buffered_run(
    alloc: Global,
    program: &LongProgram,
) -> Result<(Vec<Step>, State), AllocError>
    ensures run { IfOk result (λ walked. IsMostBufferedRun program.now walked.0.items) }
    ensures end { IfOk result (λ walked. walked.1 ≡ after_all (opening program.now) walked.0.items) }
{
    let walked = buffered_run(alloc, program, Buffering::Most, &[])?;
    Ok(walked)
}
