//! Why a phase is too large for a search: the finder and the send in it that lie farthest apart of
//! those that nothing orders.

use crate::graph::Edge;
use crate::lists::{at, put};
use callorder::LongProgram;
use std::alloc::{AllocError, Global};

/// How many events a search takes.
const MOST_EVENTS: usize = 1_024;

/// A finder of any source and a send that fits it, by their places in the program: that the send
/// comes only once the finder has found isn't known, so a phase that has the one has both.
#[derive(Clone, Copy)]
pub struct Tie {
    /// The place of the phase's text, from 0.
    pub text: usize,
    /// How many events the phase has: a receive or a probe is two, any other call one.
    pub events: usize,
    pub finder: usize,
    pub send: usize,
}

/// Of each phase the edge that holds it together, and what is told of it.
#[derive(Drop)]
pub struct Knots {
    edges: Vec<Option<Edge>>,
    pub ties: Vec<Tie>,
}

/// Where each call's rank begins its phase, and where it ends it.
#[derive(Drop)]
struct Spans {
    begins: Vec<usize>,
    ends: Vec<usize>,
}

impl Spans {
    fn of(alloc: Global, program: &LongProgram, phases: &[usize]) -> Result<Spans, AllocError> {
        let mut begins = vec![in alloc; 0; phases.len()]?;
        let mut ends = vec![in alloc; 0; phases.len()]?;
        for place in 0..phases.len() {
            let before = place.saturating_sub(1);
            let begin = if is_one(program, phases, before, place) {
                at(&begins, before)
            } else {
                place
            };
            put(&mut begins, place, begin);
        }
        for place in (0..phases.len()).rev() {
            let next = place.saturating_add(1);
            let end = if is_one(program, phases, place, next) {
                at(&ends, next)
            } else {
                place
            };
            put(&mut ends, place, end);
        }
        Ok(Spans { begins, ends })
    }

    /// How many calls of its rank the phase has before the send, and of its own behind the finder.
    fn length(&self, edge: &Edge) -> usize {
        let sends = edge.to.saturating_sub(at(&self.begins, edge.to));
        sends.saturating_add(at(&self.ends, edge.from).saturating_sub(edge.from))
    }
}

/// Whether the two calls, one behind the other, are of one rank and one phase.
fn is_one(program: &LongProgram, phases: &[usize], place: usize, next: usize) -> bool {
    place < next
        && next < phases.len()
        && at(phases, place) == at(phases, next)
        && program.are_of_one_rank(place, next)
}

/// The edges that hold phases together. For each call there is the number of its phase.
pub fn knots_of(
    alloc: Global,
    program: &LongProgram,
    phases: &[usize],
    unordered: &[Edge],
) -> Result<Knots, AllocError> {
    let spans = Spans::of(alloc, program, phases)?;
    let mut edges = vec![in alloc; None; phases.len()]?;
    let mut lengths = vec![in alloc; 0; phases.len()]?;
    for edge in unordered {
        let phase = at(phases, edge.from);
        let length = spans.length(edge).saturating_add(1);
        if phase == at(phases, edge.to) && length > at(&lengths, phase) {
            put(&mut lengths, phase, length);
            keep(&mut edges, phase, *edge);
        }
    }
    Ok(Knots {
        edges,
        ties: Vec::new(alloc),
    })
}

/// Keeps an edge for a phase.
fn keep(edges: &mut [Option<Edge>], phase: usize, edge: Edge) {
    if let Some(kept) = edges.get_mut(phase) {
        *kept = Some(edge);
    }
}

/// How many events these calls have.
fn events_of(program: &LongProgram, calls: &[usize]) -> usize {
    let mut events: usize = 0;
    for place in calls {
        if let Some(call) = program.call(*place) {
            let more = if call.kind.pattern().is_some() { 2 } else { 1 };
            events = events.saturating_add(more);
        }
    }
    events
}

impl Knots {
    /// Tells of a phase with these calls, and the text of this number, why it is so large, where it
    /// is too large for a search.
    pub fn note(
        &mut self,
        program: &LongProgram,
        calls: &[usize],
        phase: usize,
        text: usize,
    ) -> Result<(), AllocError> {
        let events = events_of(program, calls);
        if events > MOST_EVENTS {
            if let Some(Some(edge)) = self.edges.get(phase) {
                self.ties.push(Tie {
                    text,
                    events,
                    finder: edge.from,
                    send: edge.to,
                })?;
            }
        }
        Ok(())
    }
}
