//! On what a state is branched.

use crate::shape::{CallShape, Role, Shape};
use crate::state::MatchState;
use callorder::Policy;
use formula::Condition;
use propagation::{LitIndex, Trail};
use std::alloc::{AllocError, Global};

/// How many partners a call may still have, and how many of them are pairs with sends that aren't
/// issued.
#[derive(Clone, Copy)]
struct Candidates {
    count: usize,
    jumps: usize,
}

/// A call that must be matched. Those of a smaller group come first, then those of fewer
/// candidates, then those of fewer sends that aren't issued, then the first.
#[derive(Clone, Copy)]
struct Due {
    group: u32,
    candidates: Candidates,
    call: usize,
}

impl Due {
    /// Whether this one comes before the other one, which is a later call.
    fn comes_before(&self, other: &Due) -> bool {
        if self.group != other.group {
            return self.group < other.group;
        }
        if self.candidates.count != other.candidates.count {
            return self.candidates.count < other.candidates.count;
        }
        self.candidates.jumps < other.candidates.jumps
    }
}

/// The call's candidates; none where it is matched already, or has none.
fn candidates_of(shape: &Shape<'_>, trail: &Trail, call: usize) -> Option<Candidates> {
    let mut count = 0usize;
    let mut jumps = 0usize;
    for place in shape.of_call(call) {
        let pair = shape.pair(*place);
        if trail.is_true(pair.matched) {
            return None;
        }
        if trail.is_unset(pair.matched) {
            count += 1;
            if !trail.is_true(shape.call(pair.send).issued) {
                jumps += 1;
            }
        }
    }
    if count == 0 {
        return None;
    }
    Some(Candidates { count, jumps })
}

/// Whether the send can't be matched with an earlier taker.
fn has_no_earlier(shape: &Shape<'_>, trail: &Trail, send: usize, taker: usize) -> bool {
    shape.of_send(send).iter().all(|place| {
        let pair = shape.pair(*place);
        pair.taker >= taker || trail.is_false(pair.matched)
    })
}

/// Whether an issued send may be matched with the taker, and with no earlier one.
fn has_send(shape: &Shape<'_>, trail: &Trail, taker: usize) -> bool {
    shape.of_taker(taker).iter().any(|place| {
        let pair = shape.pair(*place);
        trail.is_unset(pair.matched)
            && trail.is_true(shape.call(pair.send).issued)
            && has_no_earlier(shape, trail, pair.send, taker)
    })
}

/// Whether the call has a next one, which is issued.
fn is_followed(trail: &Trail, call: &CallShape) -> bool {
    !call.is_last && trail.is_true(call.passed)
}

fn due_taker(shape: &Shape<'_>, trail: &Trail, call: usize) -> Option<Due> {
    let taker = shape.call(call);
    let waiter = shape.call(taker.waiter?);
    let candidates = candidates_of(shape, trail, call)?;
    let is_sent_for = trail.is_true(taker.issued) && has_send(shape, trail, call);
    if !is_sent_for && !is_followed(trail, &waiter) {
        return None;
    }
    let group = if trail.is_true(waiter.issued) { 0 } else { 2 };
    Some(Due {
        group,
        candidates,
        call,
    })
}

fn may_be_buffered(trail: &Trail, call: &CallShape) -> bool {
    match call.buffered {
        Some(literal) => !trail.is_false(literal),
        None => false,
    }
}

fn due_send(shape: &Shape<'_>, trail: &Trail, call: usize) -> Option<Due> {
    let send = shape.call(call);
    let waiter = shape.call(send.waiter?);
    if may_be_buffered(trail, &send) || !is_followed(trail, &waiter) {
        return None;
    }
    let Candidates { count, .. } = candidates_of(shape, trail, call)?;
    let candidates = Candidates { count, jumps: 0 };
    Some(Due {
        group: 1,
        candidates,
        call,
    })
}

fn due_call(shape: &Shape<'_>, trail: &Trail, state: &MatchState, call: usize) -> Option<Due> {
    if state.is_matched(call) {
        return None;
    }
    match shape.call(call).part {
        Role::Taker | Role::Probe => due_taker(shape, trail, call),
        Role::Standard | Role::Synchronous => due_send(shape, trail, call),
        Role::Buffered | Role::Other => None,
    }
}

fn better(best: Option<Due>, due: Due) -> Due {
    match best {
        Some(best) if !due.comes_before(&best) => best,
        _ => due,
    }
}

/// The call that is matched next.
fn most_due(shape: &Shape<'_>, trail: &Trail, state: &MatchState) -> Option<usize> {
    let mut best = None;
    for call in 0..shape.calls().len() {
        if let Some(due) = due_call(shape, trail, state, call) {
            best = Some(better(best, due));
        }
    }
    let Due { call, .. } = best?;
    Some(call)
}

/// Adds the pairs of the call that may be, those with sends that are issued, or the others.
fn push_pairs(
    shape: &Shape<'_>,
    trail: &Trail,
    call: usize,
    are_issued: bool,
    literals: &mut Vec<LitIndex>,
) -> Result<(), AllocError> {
    for place in shape.of_call(call) {
        let pair = shape.pair(*place);
        let is_issued = trail.is_true(shape.call(pair.send).issued);
        if trail.is_unset(pair.matched) && is_issued == are_issued {
            literals.push(pair.matched)?;
        }
    }
    Ok(())
}

/// The literal that this call is issued, where that is open.
fn open_issue(shape: &Shape<'_>, trail: &Trail, call: Option<usize>) -> Option<LitIndex> {
    let literal = shape.call(call?).issued;
    if trail.is_unset(literal) {
        return Some(literal);
    }
    None
}

/// The literal that a wait of this pair is issued, where that is open.
fn open_wait(shape: &Shape<'_>, trail: &Trail, place: usize) -> Option<LitIndex> {
    let pair = shape.pair(place);
    let send = shape.call(pair.send);
    let taker = shape.call(pair.taker);
    let receive = open_issue(shape, trail, taker.receive);
    if receive.is_some() {
        return receive;
    }
    let wait = open_issue(shape, trail, taker.waiter);
    if wait.is_some() {
        return wait;
    }
    open_issue(shape, trail, send.waiter)
}

fn first_wait(shape: &Shape<'_>, trail: &Trail, state: &MatchState) -> Option<LitIndex> {
    for place in &state.unsettled {
        let wait = open_wait(shape, trail, *place);
        if wait.is_some() {
            return wait;
        }
    }
    None
}

/// The literal that the rank goes on after a standard send, where that is open.
fn going_on(shape: &Shape<'_>, trail: &Trail, state: &MatchState, rank: usize) -> Option<LitIndex> {
    let progress = state.rank(rank);
    if progress.issued == 0 || progress.is_finished {
        return None;
    }
    let last = shape.rank(rank).first.saturating_add(progress.issued - 1);
    let call = shape.call(last);
    match call.condition {
        Condition::IfBufferedOrFetched(_) if trail.is_unset(call.passed) => Some(call.passed),
        _ => None,
    }
}

fn first_going_on(shape: &Shape<'_>, trail: &Trail, state: &MatchState) -> Option<LitIndex> {
    if shape.policy != Policy::Any {
        return None;
    }
    for rank in 0..shape.ranks().len() {
        let literal = going_on(shape, trail, state, rank);
        if literal.is_some() {
            return literal;
        }
    }
    None
}

fn two(alloc: Global, one: LitIndex, other: LitIndex) -> Result<Vec<LitIndex>, AllocError> {
    let literals = vec![in alloc; one, other]?;
    Ok(literals)
}

/// Literals one of which is true, where propagation of what the state assumes has
/// come to its end; none where no such rule helps.
pub fn choose(
    alloc: Global,
    shape: &Shape<'_>,
    trail: &Trail,
    state: &MatchState,
) -> Result<Vec<LitIndex>, AllocError> {
    if let Some(literal) = first_wait(shape, trail, state) {
        return two(alloc, literal, literal.negated());
    }
    if let Some(call) = most_due(shape, trail, state) {
        let mut literals = Vec::new(alloc);
        push_pairs(shape, trail, call, true, &mut literals)?;
        push_pairs(shape, trail, call, false, &mut literals)?;
        return Ok(literals);
    }
    match first_going_on(shape, trail, state) {
        Some(literal) => two(alloc, literal.negated(), literal),
        None => Ok(Vec::new(alloc)),
    }
}
