//! Lines against cycles in the order of events.

use crate::engine::Engine;
use crate::others::SharedClosed;
use matchsets::{Cycle, Shape};
use propagation::{LitIndex, Trail};
use refutations::Batch;
use std::alloc::{AllocError, Global};

/// The pairs of neighbours on the cycle.
fn edges_of(alloc: Global, events: &[usize]) -> Result<Vec<(usize, usize)>, AllocError> {
    let mut edges = Vec::new(alloc);
    let Some(last) = events.last() else {
        return Ok(edges);
    };
    let mut before = *last;
    for event in events {
        edges.push((before, *event))?;
        before = *event;
    }
    Ok(edges)
}

/// The negations of those literals of the edges that don't hold at level 0.
fn base_of(
    alloc: Global,
    shape: &Shape<'_>,
    trail: &Trail,
    edges: &[(usize, usize)],
) -> Result<Vec<LitIndex>, AllocError> {
    let mut literals = Vec::new(alloc);
    for (first, second) in edges {
        let literal = shape.earlier(*first, *second);
        if !trail.is_true(literal) {
            literals.push(literal.negated())?;
        }
    }
    Ok(literals)
}

/// Where all edges hold, so many bits of the clocks are the same at each.
fn make_bits(
    alloc: Global,
    shape: &Shape<'_>,
    engine: &mut Engine,
    others: &mut SharedClosed,
    base: &[LitIndex],
    edges: &[(usize, usize)],
    bits: usize,
    batch: &mut Batch,
) -> Result<(), AllocError> {
    for (first, second) in edges {
        let mut literals = base.to_vec(alloc)?;
        literals.push(shape.same(*first, *second, bits))?;
        engine.make_lemma(alloc, others, &literals, batch)?;
    }
    Ok(())
}

/// Makes the lemma against this cycle, and answers whether it could be made. Then the trail is at
/// level 0.
pub(crate) fn cut_cycle(
    alloc: Global,
    shape: &Shape<'_>,
    engine: &mut Engine,
    others: &mut SharedClosed,
    cycle: &Cycle,
    batch: &mut Batch,
) -> Result<bool, AllocError> {
    let edges = edges_of(alloc, cycle.events())?;
    engine.to_root(alloc)?;
    let base = base_of(alloc, shape, engine.known.trail(), &edges)?;
    for bits in 1..shape.clock_size() {
        make_bits(alloc, shape, engine, others, &base, &edges, bits, batch)?;
    }
    engine.make_lemma(alloc, others, &base, batch)
}
