//! Cycles in what holds of the order of events.

use crate::graph::{HappensBefore, Step};
use crate::shape::Shape;
use propagation::Trail;
use std::alloc::{AllocError, Global};

/// More than any way costs.
const FAR: u32 = u32::MAX;

/// The cheapest ways from an event.
#[derive(Drop)]
struct Ways {
    start: usize,
    costs: Vec<u32>,
    froms: Vec<usize>,
    is_done: Vec<bool>,
    /// What the way back to the start costs, and from where it comes.
    back: u32,
    last: usize,
}

/// Events, each earlier than the next one, and the last one earlier than the first.
#[derive(Drop)]
pub struct Cycle {
    cost: u32,
    events: Vec<usize>,
}

impl Cycle {
    /// The events by their places, from 0.
    pub fn events(&self) -> &[usize] {
        self.events.as_slice()
    }
}

fn put<T: Copy>(entries: &mut [T], place: usize, value: T) {
    if let Some(entry) = entries.get_mut(place) {
        *entry = value;
    }
}

impl Ways {
    fn new(alloc: Global, events: usize, start: usize) -> Result<Ways, AllocError> {
        let mut costs = vec![in alloc; FAR; events]?;
        put(costs.as_mut_slice(), start, 0);
        Ok(Ways {
            start,
            costs,
            froms: vec![in alloc; start; events]?,
            is_done: vec![in alloc; false; events]?,
            back: FAR,
            last: start,
        })
    }

    fn cost(&self, event: usize) -> u32 {
        self.costs.get(event).copied().unwrap_or(FAR)
    }

    /// The nearest event that wasn't gone on from.
    fn nearest(&self) -> Option<usize> {
        let mut best = None;
        let mut least = FAR;
        for event in 0..self.is_done.len() {
            if !self.is_done[event] && self.cost(event) < least {
                least = self.cost(event);
                best = Some(event);
            }
        }
        best
    }

    fn take(&mut self, trail: &Trail, event: usize, step: &Step) {
        let cost = self.cost(event).saturating_add(step.cost(trail));
        if step.to == self.start && cost < self.back {
            self.back = cost;
            self.last = event;
        }
        if cost < self.cost(step.to) {
            put(self.costs.as_mut_slice(), step.to, cost);
            put(self.froms.as_mut_slice(), step.to, event);
        }
    }

    fn take_all(&mut self, trail: &Trail, event: usize, steps: &[Step]) {
        put(self.is_done.as_mut_slice(), event, true);
        for step in steps {
            self.take(trail, event, step);
        }
    }

    fn walk(&mut self, trail: &Trail, graph: &HappensBefore) {
        for _ in 0..graph.len() {
            let Some(event) = self.nearest() else {
                return;
            };
            if self.cost(event) >= self.back {
                return;
            }
            self.take_all(trail, event, graph.steps(event));
        }
    }

    /// The cheapest way back to the start.
    fn cycle(&self, alloc: Global) -> Result<Vec<usize>, AllocError> {
        let mut events = Vec::new(alloc);
        let mut event = self.last;
        for _ in 0..self.froms.len() {
            if event == self.start {
                break;
            }
            events.push(event)?;
            event = self.froms.get(event).copied().unwrap_or(self.start);
        }
        events.push(self.start)?;
        events.reverse();
        Ok(events)
    }
}

/// A cheaper cycle than this one, through the event.
fn cheaper(
    alloc: Global,
    trail: &Trail,
    graph: &HappensBefore,
    start: usize,
    best: Option<Cycle>,
) -> Result<Option<Cycle>, AllocError> {
    let most = match &best {
        Some(cycle) => cycle.cost,
        None => FAR,
    };
    let mut ways = Ways::new(alloc, graph.len(), start)?;
    ways.back = most;
    ways.walk(trail, graph);
    if ways.back >= most {
        return Ok(best);
    }
    let events = ways.cycle(alloc)?;
    Ok(Some(Cycle {
        cost: ways.back,
        events,
    }))
}

/// A cheapest cycle in the order that holds, where it has one: what holds at level 0 costs less.
/// The only error is want of memory. Takes time by the square of the events for each event on a
/// cycle or behind one.
pub fn find_cycle(
    alloc: Global,
    shape: &Shape<'_>,
    trail: &Trail,
) -> Result<Option<Cycle>, AllocError> {
    let mut graph = HappensBefore::new(alloc, shape, trail)?;
    let mut best = None;
    if !graph.has_cycle(alloc)? {
        return Ok(best);
    }
    for start in 0..graph.len() {
        if graph.is_entered(start) {
            best = cheaper(alloc, trail, &graph, start, best)?;
        }
    }
    Ok(best)
}
