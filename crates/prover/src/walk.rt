//! Walks: runs that go on until no step is enabled.

ghost use Rattle.std.specs.Prelude.{◌≡◌, ℕ, Contains, IfSome, IfNone, IfOk, IsPermutation, filter, length};
ghost use Rattle.std.specs.List.{range_with_len};
ghost use Rattle.semantics.specs.Configurations.{IsConfigurationOf};
ghost use Rattle.semantics.specs.Machine.{IsEnabled};
ghost use Rattle.run_laws.specs.Places.{find_step};
ghost use Rattle.prover.specs.parts.Walks.{IsWalk, NothingButSees, NoStepEnabled, NoFindBy, NoIssueBy, finds, is_open_finder, is_open_send, is_other};

use crate::manner::{Manner, next_chance};
use callorder::{Kind, LongProgram};
use semantics::{State, Step};
use std::alloc::{AllocError, Global};

/// The list in its order, or the last first.
fn in_turn<T>(mut list: Vec<T>, last_first: bool) -> Vec<T>
    ensures { IsPermutation list.items result.items }
{
    if last_first {
        list.reverse();
    }
    list
}

/// The list from this place on, and then what stands before it; the place counts over and over.
fn from_place<T>(mut list: Vec<T>, place: u64) -> Vec<T>
    ensures { IsPermutation list.items result.items }
{
    if list.is_empty() {
        return list;
    }
    let first = (place % list.len() as u64) as usize;
    list.rotate_left(first);
    list
}

/// The list as this manner goes through it.
fn arranged<T>(list: Vec<T>, manner: Manner) -> Vec<T>
    ensures { IsPermutation list.items result.items }
{
    in_turn(from_place(list, manner.chance), manner.last_match)
}

/// The ranks but the one that is held back.
fn other_ranks(alloc: Global, ranks: u32, held_back: Option<u32>) -> Result<Vec<u32>, AllocError>
    ensures { IfOk result (λ others. others.items ≡ filter (is_other held_back) (range_with_len 0 ranks)) }
{
    (0..ranks)
        .filter(|rank| is_other(held_back, *rank))
        .collect(alloc)
}

fn is_other(held_back: Option<u32>, rank: u32) -> bool
    ensures { result ≡ is_other held_back rank }
{
    match held_back {
        None => true,
        Some(held) => held != rank,
    }
}

/// The issue of this rank, where one is enabled: buffered or not as is wanted, if that is allowed.
fn issue_of(program: &LongProgram, state: &State, rank: u32, buffers: bool) -> Option<Step>
    ensures some { IfSome result (IsEnabled program.now state.now) }
    ensures none { IfNone result (NoIssueBy program.now state.now rank) }
{
    let wanted = Step::Issue {
        rank,
        buffered: buffers,
    };
    if state.enabled(program, wanted) {
        return Some(wanted);
    }
    let other = Step::Issue {
        rank,
        buffered: !buffers,
    };
    if state.enabled(program, other) {
        return Some(other);
    }
    None
}

/// The first enabled issue of these ranks.
fn next_issue(program: &LongProgram, state: &State, ranks: &[u32], buffers: bool) -> Option<Step>
    ensures some { IfSome result (IsEnabled program.now state.now) }
    ensures none { IfNone result ((rank : ℕ) → Contains ranks.now rank → NoIssueBy program.now state.now rank) }
{
    for rank in ranks {
        let issue = issue_of(program, state, *rank, buffers);
        if issue.is_some() {
            return issue;
        }
    }
    None
}

fn is_open_send(program: &LongProgram, state: &State, call: usize) -> bool
    ensures { result ≡ is_open_send program.now state.now call }
{
    match program.call(call) {
        None => false,
        Some(known) => known.kind.message().is_some() && state.is_open(program, call),
    }
}

/// Whether calls of this kind are probes, which see messages, or takers, which take them out.
fn finds(sees: bool, kind: &Kind) -> bool
    ensures { result ≡ finds sees kind.now }
{
    if sees {
        return kind.is_probe();
    }
    kind.pattern().is_some() && !kind.is_probe()
}

fn is_open_finder(program: &LongProgram, state: &State, sees: bool, call: usize) -> bool
    ensures { result ≡ is_open_finder program.now state.now sees call }
{
    match program.call(call) {
        None => false,
        Some(known) => finds(sees, &known.kind) && state.is_open(program, call),
    }
}

/// The issued sends that are not matched.
fn open_sends(alloc: Global, program: &LongProgram, state: &State) -> Result<Vec<usize>, AllocError>
    ensures { IfOk result (λ sends.
        sends.items ≡
        filter (is_open_send program.now state.now) (range_with_len 0 (length program.now.calls))) }
{
    (0..program.calls().len())
        .filter(|call| is_open_send(program, state, *call))
        .collect(alloc)
}

/// The issued probes that have seen nothing, or the issued receives and matched probes that are not
/// matched.
fn open_finders(
    alloc: Global,
    program: &LongProgram,
    state: &State,
    sees: bool,
) -> Result<Vec<usize>, AllocError>
    ensures { IfOk result (λ finders.
        finders.items ≡
        filter (is_open_finder program.now state.now sees) (range_with_len 0 (length program.now.calls))) }
{
    (0..program.calls().len())
        .filter(|call| is_open_finder(program, state, sees, *call))
        .collect(alloc)
}

/// The step by which a finder finds a send: a probe sees it, a taker is matched with it.
fn find_step(sees: bool, send: usize, finder: usize) -> Step
    ensures { result ≡ find_step sees send finder }
{
    if sees {
        return Step::See {
            send,
            probe: finder,
        };
    }
    Step::Match {
        send,
        taker: finder,
    }
}

fn next_find_of(
    program: &LongProgram,
    state: &State,
    sees: bool,
    send: usize,
    finders: &[usize],
) -> Option<Step>
    ensures some { IfSome result (IsEnabled program.now state.now) }
    ensures none { IfNone result ((finder : ℕ) → Contains finders.now finder →
        IsEnabled program.now state.now (find_step sees send finder) → ⊥) }
{
    for finder in finders {
        let step = find_step(sees, send, *finder);
        if state.enabled(program, step) {
            return Some(step);
        }
    }
    None
}

/// The first enabled step by which one of these finders finds one of these sends.
fn find_of(
    program: &LongProgram,
    state: &State,
    sees: bool,
    sends: &[usize],
    finders: &[usize],
) -> Option<Step>
    ensures some { IfSome result (IsEnabled program.now state.now) }
    ensures none { IfNone result ((send finder : ℕ) → Contains sends.now send → Contains finders.now finder →
        IsEnabled program.now state.now (find_step sees send finder) → ⊥) }
{
    for send in sends {
        let step = next_find_of(program, state, sees, *send, finders);
        if step.is_some() {
            return step;
        }
    }
    None
}

/// An enabled step by which a probe sees a message, or by which a taker is matched, where there is
/// one: by send, then by finder, as the manner goes through them. It looks only at sends that are
/// not matched and finders that have found nothing.
fn next_find(
    alloc: Global,
    program: &LongProgram,
    state: &State,
    sees: bool,
    manner: Manner,
) -> Result<Option<Step>, AllocError>
    ensures some { IfOk result (λ found. IfSome found (IsEnabled program.now state.now)) }
    ensures none { IfOk result (λ found. IfNone found (NoFindBy program.now state.now sees)) }
{
    let finders = arranged(open_finders(alloc, program, state, sees)?, manner);
    if finders.is_empty() {
        return Ok(None);
    }
    let sends = arranged(open_sends(alloc, program, state)?, manner);
    Ok(find_of(program, state, sees, &sends, &finders))
}

/// An enabled issue or match, where there is one; `ranks` are all but the one that is held back, in
/// turn.
fn next_issue_or_match(
    alloc: Global,
    program: &LongProgram,
    state: &State,
    ranks: &[u32],
    manner: Manner,
) -> Result<Option<Step>, AllocError>
    requires of { IsConfigurationOf program.now state.now }
    requires others { IsPermutation (filter (is_other manner.held_back) (range_with_len 0 program.now.ranks)) ranks.now }
    ensures some { IfOk result (λ found. IfSome found (IsEnabled program.now state.now)) }
    ensures none { IfOk result (λ found. IfNone found (NothingButSees program.now state.now)) }
{
    if !manner.matches_first {
        let issue = next_issue(program, state, ranks, manner.buffers);
        if issue.is_some() {
            return Ok(issue);
        }
    }
    let matching = next_find(alloc, program, state, false, manner)?;
    if matching.is_some() {
        return Ok(matching);
    }
    let issue = next_issue(program, state, ranks, manner.buffers);
    if issue.is_some() {
        return Ok(issue);
    }
    match manner.held_back {
        None => Ok(None),
        Some(rank) => Ok(issue_of(program, state, rank, manner.buffers)),
    }
}

/// An enabled step, where there is one; `ranks` are all but the one that is held back, in turn.
fn next_step(
    alloc: Global,
    program: &LongProgram,
    state: &State,
    ranks: &[u32],
    manner: Manner,
) -> Result<Option<Step>, AllocError>
    requires of { IsConfigurationOf program.now state.now }
    requires others { IsPermutation (filter (is_other manner.held_back) (range_with_len 0 program.now.ranks)) ranks.now }
    ensures some { IfOk result (λ found. IfSome found (IsEnabled program.now state.now)) }
    ensures none { IfOk result (λ found. IfNone found (NoStepEnabled program.now state.now)) }
{
    if !manner.sees_last {
        let seeing = next_find(alloc, program, state, true, manner)?;
        if seeing.is_some() {
            return Ok(seeing);
        }
    }
    let step = next_issue_or_match(alloc, program, state, ranks, manner)?;
    if step.is_some() {
        return Ok(step);
    }
    let seeing = next_find(alloc, program, state, true, manner)?;
    Ok(seeing)
}

/// The step of this number, from 0, of the run that is gone along, where it is enabled; else an
/// enabled step, where there is one.
fn step_along(
    alloc: Global,
    program: &LongProgram,
    state: &State,
    ranks: &[u32],
    manner: Manner,
    wanted: Option<Step>,
) -> Result<Option<Step>, AllocError>
    requires of { IsConfigurationOf program.now state.now }
    requires others { IsPermutation (filter (is_other manner.held_back) (range_with_len 0 program.now.ranks)) ranks.now }
    ensures some { IfOk result (λ found. IfSome found (IsEnabled program.now state.now)) }
    ensures none { IfOk result (λ found. IfNone found (NoStepEnabled program.now state.now)) }
{
    if let Some(step) = wanted {
        if state.enabled(program, step) {
            return Ok(Some(step));
        }
    }
    next_step(alloc, program, state, ranks, manner)
}

/// A run from the opening state that takes these steps, one after another, as far as they are
/// enabled when their turn comes, and goes on until no step is enabled: so it ends stuck or
/// finished. No run has more than two steps for each call.
pub fn walk_along(
    alloc: Global,
    program: &LongProgram,
    along: &[Step],
    manner: Manner,
) -> Result<Vec<Step>, AllocError>
    ensures { IfOk result (λ steps. IsWalk program.now steps.items) }
{
    let others = other_ranks(alloc, program.ranks(), manner.held_back)?;
    let ranks = in_turn(others, manner.highest_rank);
    let mut state = State::start(alloc, program)?;
    let mut steps = Vec::new(alloc);
    let mut chance = manner.chance;
    for turn in 0..2 * program.calls().len() + 1 {
        let now = Manner { chance, ..manner };
        let wanted = along.get(turn).copied();
        let Some(step) = step_along(alloc, program, &state, &ranks, now, wanted)? else {
            return Ok(steps);
        };
        steps.push(step)?;
        state.apply(program, step);
        chance = next_chance(chance);
    }
    Ok(steps)
}

/// A run from the opening state, which goes on until no step is enabled.
pub fn walk(alloc: Global, program: &LongProgram, manner: Manner) -> Result<Vec<Step>, AllocError>
    ensures { IfOk result (λ steps. IsWalk program.now steps.items) }
{
    walk_along(alloc, program, &[], manner)
}
