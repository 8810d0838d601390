//! What holds of the order of events, as a graph.

use crate::shape::Shape;
use propagation::{LitIndex, Trail};
use std::alloc::{AllocError, Global};

/// That an event is earlier than another one costs more where it doesn't hold at level 0.
const ROOT_COST: u32 = 1;

const OTHER_COST: u32 = 4;

/// An event that comes later, and the number of the literal that says so.
#[derive(Clone, Copy)]
pub(crate) struct Step {
    pub(crate) to: usize,
    literal: LitIndex,
}

/// A step, and the event that it is from.
#[derive(Clone, Copy)]
struct Edge {
    from: usize,
    step: Step,
}

/// For each event those that come later, and how many steps lead to it.
#[derive(Drop)]
pub(crate) struct HappensBefore {
    /// Where the steps from each event start, and then where those from the last one end.
    starts: Vec<usize>,
    /// The steps, in the order of the events that they are from.
    steps: Vec<Step>,
    entering: Vec<usize>,
}

impl Step {
    /// What it costs.
    pub(crate) fn cost(&self, trail: &Trail) -> u32 {
        if trail.level_of(self.literal.variable()) == 0 {
            return ROOT_COST;
        }
        OTHER_COST
    }
}

/// What holds of the order of events.
fn edges_of(alloc: Global, shape: &Shape<'_>, trail: &Trail) -> Result<Vec<Edge>, AllocError> {
    let mut edges = Vec::new(alloc);
    for place in 0..trail.len() {
        let literal = trail.literal(place);
        if let Some((from, to)) = shape.order_of(literal) {
            let step = Step { to, literal };
            edges.push(Edge { from, step })?;
        }
    }
    Ok(edges)
}

/// Counts one more at this place, and answers how many there were.
fn count(counts: &mut [usize], place: usize) -> usize {
    match counts.get_mut(place) {
        Some(count) => {
            let before = *count;
            *count = before.saturating_add(1);
            before
        }
        None => usize::MAX,
    }
}

/// How many steps lead to each of so many events.
fn entering(alloc: Global, events: usize, edges: &[Edge]) -> Result<Vec<usize>, AllocError> {
    let mut counts = vec![in alloc; 0; events]?;
    for edge in edges {
        count(counts.as_mut_slice(), edge.step.to);
    }
    Ok(counts)
}

/// Puts in the place of each number the sum of those up to it.
fn add_up(counts: &mut [usize]) {
    let mut sum = 0usize;
    for count in counts.iter_mut() {
        sum = sum.saturating_add(*count);
        *count = sum;
    }
}

/// Where the steps from each of so many events start, and then where those from the last one end.
fn starts(alloc: Global, events: usize, edges: &[Edge]) -> Result<Vec<usize>, AllocError> {
    let mut counts = vec![in alloc; 0; events.saturating_add(1)]?;
    for edge in edges {
        count(counts.as_mut_slice(), edge.from.saturating_add(1));
    }
    add_up(counts.as_mut_slice());
    Ok(counts)
}

/// The steps, in the order of the events that they are from, which start there.
fn steps(alloc: Global, starts: &[usize], edges: &[Edge]) -> Result<Vec<Step>, AllocError> {
    let mut next = starts.to_vec(alloc)?;
    let nowhere = Step {
        to: 0,
        literal: LitIndex::first(),
    };
    let mut steps = vec![in alloc; nowhere; edges.len()]?;
    for edge in edges {
        let place = count(next.as_mut_slice(), edge.from);
        if let Some(entry) = steps.get_mut(place) {
            *entry = edge.step;
        }
    }
    Ok(steps)
}

/// One step fewer leads to the event; answers whether none is left.
fn take_step(entering: &mut [usize], event: usize) -> bool {
    match entering.get_mut(event) {
        Some(count) => {
            *count = count.saturating_sub(1);
            *count == 0
        }
        None => false,
    }
}

/// The steps from an event, where all stand in this order and start there.
fn steps_from<'s>(starts: &[usize], steps: &'s [Step], event: usize) -> &'s [Step] {
    let Some([start, end, ..]) = starts.get(event..) else {
        return &[];
    };
    match steps.get(*start..*end) {
        Some(steps) => steps,
        None => &[],
    }
}

impl HappensBefore {
    /// The graph of what holds.
    pub(crate) fn new(
        alloc: Global,
        shape: &Shape<'_>,
        trail: &Trail,
    ) -> Result<HappensBefore, AllocError> {
        let edges = edges_of(alloc, shape, trail)?;
        let starts = starts(alloc, shape.events(), &edges)?;
        let steps = steps(alloc, &starts, &edges)?;
        let entering = entering(alloc, shape.events(), &edges)?;
        Ok(HappensBefore {
            starts,
            steps,
            entering,
        })
    }

    /// The steps from an event.
    pub(crate) fn steps(&self, event: usize) -> &[Step] {
        steps_from(&self.starts, &self.steps, event)
    }

    /// How many events there are.
    pub(crate) fn len(&self) -> usize {
        self.entering.len()
    }

    /// Whether a step leads to the event, of those that weren't taken away.
    pub(crate) fn is_entered(&self, event: usize) -> bool {
        self.entering.get(event).copied().unwrap_or(0) > 0
    }

    fn free(&self, alloc: Global) -> Result<Vec<usize>, AllocError> {
        let mut free = Vec::new(alloc);
        for event in 0..self.entering.len() {
            if !self.is_entered(event) {
                free.push(event)?;
            }
        }
        Ok(free)
    }

    /// Takes away the steps from the event.
    fn leave(&mut self, event: usize, free: &mut Vec<usize>) -> Result<(), AllocError> {
        for step in steps_from(&self.starts, &self.steps, event) {
            if take_step(self.entering.as_mut_slice(), step.to) {
                free.push(step.to)?;
            }
        }
        Ok(())
    }

    /// Takes away the events that lie on no cycle and behind none, and answers whether some are
    /// left.
    pub(crate) fn has_cycle(&mut self, alloc: Global) -> Result<bool, AllocError> {
        let mut free = self.free(alloc)?;
        for turn in 0..self.entering.len() {
            let Some(event) = free.get(turn).copied() else {
                return Ok(true);
            };
            self.leave(event, &mut free)?;
        }
        Ok(false)
    }
}
