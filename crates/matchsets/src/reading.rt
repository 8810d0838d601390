//! The state that is told by what holds.

use crate::reality::which_are_real;
use crate::shape::{CallShape, PairShape, RankShape, Role, Shape};
use crate::state::{MatchState, Progress, ends_at};
use callorder::Policy;
use propagation::Trail;
use std::alloc::{AllocError, Global};

/// How many first calls of the rank are issued, of which so many were before.
fn issued(shape: &Shape<'_>, trail: &Trail, rank: &RankShape, before: usize) -> usize {
    for place in before..rank.length {
        if !trail.is_true(shape.call(rank.first.saturating_add(place)).issued) {
            return place;
        }
    }
    before.max(rank.length)
}

/// Whether it was decided that the rank ends somewhere.
fn has_end(
    shape: &Shape<'_>,
    trail: &Trail,
    rank: &RankShape,
    before: &Progress,
    issued: usize,
) -> bool {
    if before.end <= rank.length {
        return true;
    }
    for place in issued..=rank.length {
        if trail.is_decided(ends_at(shape, rank, place)) {
            return true;
        }
    }
    false
}

/// The first call that isn't issued, from this one on and below the other one.
fn end(shape: &Shape<'_>, trail: &Trail, rank: &RankShape, issued: usize, most: usize) -> usize {
    for place in (issued..most).rev() {
        if !trail.is_true(ends_at(shape, rank, place)) {
            return place + 1;
        }
    }
    issued
}

fn progress(shape: &Shape<'_>, trail: &Trail, rank: &RankShape, before: &Progress) -> Progress {
    let issued = issued(shape, trail, rank, before.issued);
    let is_through = rank.length > 0 && issued == rank.length;
    let is_finished = before.is_finished || (is_through && trail.is_false(rank.unfinished));
    let mut end_at = before.end;
    if rank.length > 0 && !is_finished && has_end(shape, trail, rank, before, issued) {
        end_at = end(shape, trail, rank, issued, before.end.min(rank.length));
    }
    Progress {
        issued,
        is_finished,
        end: end_at,
    }
}

fn all_progress(
    alloc: Global,
    shape: &Shape<'_>,
    trail: &Trail,
    before: &MatchState,
) -> Result<Vec<Progress>, AllocError> {
    let mut ranks = Vec::with_capacity(alloc, before.ranks.len())?;
    for (rank, progress_before) in shape.ranks().iter().zip(&before.ranks) {
        ranks.push(progress(shape, trail, rank, progress_before))?;
    }
    Ok(ranks)
}

/// Whether the partner is forgotten of that call of the pair which has just one.
fn is_forgotten(shape: &Shape<'_>, state: &MatchState, pair: &PairShape) -> bool {
    if shape.is_probe(pair.taker) {
        return state.is_matched(pair.taker);
    }
    state.is_matched(pair.send)
}

/// The pairs that are matched and whose partners aren't forgotten.
fn matched(
    alloc: Global,
    shape: &Shape<'_>,
    trail: &Trail,
    state: &MatchState,
) -> Result<Vec<usize>, AllocError> {
    let mut places = Vec::new(alloc);
    for (place, pair) in shape.matches().iter().enumerate() {
        if trail.is_true(pair.matched) && !is_forgotten(shape, state, pair) {
            places.push(place)?;
        }
    }
    Ok(places)
}

/// Takes in that a call which is known never to be issued isn't.
fn cut(shape: &Shape<'_>, trail: &Trail, state: &mut MatchState, call: Option<usize>) {
    let Some(call) = call else {
        return;
    };
    let call = shape.call(call);
    if !trail.is_false(call.issued) {
        return;
    }
    if let Some(progress) = state.ranks.get_mut(call.rank) {
        progress.end = progress.end.min(call.place);
    }
}

/// Whether the receive on the taker's handle is known never to be issued.
fn is_never_fetched(shape: &Shape<'_>, state: &MatchState, taker: &CallShape) -> bool {
    match taker.receive {
        Some(receive) => state.is_never(&shape.call(receive)),
        None => false,
    }
}

/// Whether nothing rests any more on the partner by which the send returns: one that is never
/// fetched lets nobody go on.
fn is_closed_send(
    shape: &Shape<'_>,
    state: &MatchState,
    send: &CallShape,
    taker: &CallShape,
) -> bool {
    match send.part {
        Role::Standard if shape.policy == Policy::Always => true,
        Role::Standard | Role::Synchronous => {
            is_never_fetched(shape, state, taker) || state.is_settled(shape, send.waiter)
        }
        _ => true,
    }
}

/// Forgets the partners of a pair that has happened, where nothing waits for it any more; else
/// keeps it.
fn close(
    shape: &Shape<'_>,
    trail: &Trail,
    state: &mut MatchState,
    place: usize,
) -> Result<(), AllocError> {
    let pair = shape.pair(place);
    let send = shape.call(pair.send);
    let taker = shape.call(pair.taker);
    cut(shape, trail, state, send.waiter);
    cut(shape, trail, state, taker.waiter);
    cut(shape, trail, state, taker.receive);
    if state.is_settled(shape, taker.waiter) && is_closed_send(shape, state, &send, &taker) {
        state.set_matched(pair.send);
        state.set_matched(pair.taker);
    } else {
        state.kept.push(place)?;
        state.unsettled.push(place)?;
    }
    Ok(())
}

/// Forgets what a probe has seen, where it has returned; else keeps it.
fn close_probe(shape: &Shape<'_>, state: &mut MatchState, place: usize) -> Result<(), AllocError> {
    let probe = shape.pair(place).taker;
    if state.is_settled(shape, Some(probe)) {
        state.set_matched(probe);
    } else {
        state.kept.push(place)?;
    }
    Ok(())
}

fn take_pairs(
    shape: &Shape<'_>,
    trail: &Trail,
    state: &mut MatchState,
    pairs: &[usize],
    are_real: &[bool],
) -> Result<(), AllocError> {
    for (pair, is_real) in pairs.iter().zip(are_real) {
        if !*is_real {
            state.kept.push(*pair)?;
        } else if shape.is_probe(shape.pair(*pair).taker) {
            close_probe(shape, state, *pair)?;
        } else {
            close(shape, trail, state, *pair)?;
        }
    }
    Ok(())
}

/// The state that is told by what holds now, where this one was told before. The only error is want
/// of memory.
pub fn read_off(
    alloc: Global,
    shape: &Shape<'_>,
    trail: &Trail,
    before: &MatchState,
) -> Result<MatchState, AllocError> {
    let mut state = MatchState {
        ranks: all_progress(alloc, shape, trail, before)?,
        is_matched: before.is_matched.as_slice().to_vec(alloc)?,
        kept: Vec::new(alloc),
        unsettled: Vec::new(alloc),
    };
    let pairs = matched(alloc, shape, trail, &state)?;
    let are_real = which_are_real(alloc, shape, &state, &pairs)?;
    take_pairs(shape, trail, &mut state, &pairs, &are_real)?;
    Ok(state)
}
