//! Which ranks, and which of their edges, are on a cycle.

use std::alloc::{AllocError, Global};

/// For each rank the component that it is of: two ranks are of one exactly where each leads to the
/// other.
#[derive(Drop)]
pub struct Circles {
    components: Vec<usize>,
}

impl Circles {
    /// Whether an edge is on a cycle.
    pub fn has_edge(&self, from: u32, to: u32) -> bool {
        match (
            self.components.get(from as usize),
            self.components.get(to as usize),
        ) {
            (Some(one), Some(other)) => one == other,
            _ => false,
        }
    }

    /// Whether a rank, which waits for these, is on a cycle.
    pub fn has_rank(&self, rank: u32, awaited: &[u32]) -> bool {
        awaited.iter().any(|other| self.has_edge(rank, *other))
    }
}

/// A rank on the way of a walk, and the place of the next of its edges.
#[derive(Clone, Copy)]
struct Stop {
    rank: u32,
    next: usize,
}

/// Marks a rank, and whether it wasn't marked before.
fn mark(marks: &mut [bool], rank: u32) -> bool {
    match marks.get_mut(rank as usize) {
        Some(is) if !*is => {
            *is = true;
            true
        }
        _ => false,
    }
}

/// The edge at a place of a rank's list.
fn edge_at(edges: &[Vec<u32>], stop: Stop) -> Option<u32> {
    edges.get(stop.rank as usize)?.get(stop.next).copied()
}

/// Adds the ranks that a rank leads to and that aren't marked, each behind all that it leads to.
fn walk(
    alloc: Global,
    edges: &[Vec<u32>],
    marks: &mut [bool],
    rank: u32,
    order: &mut Vec<u32>,
) -> Result<(), AllocError> {
    if !mark(marks, rank) {
        return Ok(());
    }
    let mut way = Vec::new(alloc);
    way.push(Stop { rank, next: 0 })?;
    for _ in 0..usize::MAX {
        let Some(stop) = way.pop() else {
            return Ok(());
        };
        match edge_at(edges, stop) {
            None => order.push(stop.rank)?,
            Some(to) => {
                way.push(Stop {
                    rank: stop.rank,
                    next: stop.next.saturating_add(1),
                })?;
                if mark(marks, to) {
                    way.push(Stop { rank: to, next: 0 })?;
                }
            }
        }
    }
    Ok(())
}

/// For each rank the ranks that wait for it.
fn turned(alloc: Global, edges: &[Vec<u32>]) -> Result<Vec<Vec<u32>>, AllocError> {
    let mut back: Vec<Vec<u32>> = Vec::new(alloc);
    for _ in edges {
        back.push(Vec::new(alloc))?;
    }
    for (from, ranks) in edges.iter().enumerate() {
        let Ok(from) = u32::try_from(from) else {
            return Ok(back);
        };
        for to in ranks {
            if let Some(waiting) = back.get_mut(*to as usize) {
                waiting.push(from)?;
            }
        }
    }
    Ok(back)
}

/// The components of a graph, a list of the ranks that each rank waits for. The time is linear.
pub fn components_of(alloc: Global, edges: &[Vec<u32>]) -> Result<Circles, AllocError> {
    let count = edges.len();
    let mut order = Vec::new(alloc);
    let mut marks = vec![in alloc; false; count]?;
    for rank in 0..count {
        if let Ok(rank) = u32::try_from(rank) {
            walk(alloc, edges, &mut marks, rank, &mut order)?;
        }
    }
    let back = turned(alloc, edges)?;
    let mut components = vec![in alloc; count; count]?;
    let mut marks = vec![in alloc; false; count]?;
    for (number, rank) in order.iter().rev().enumerate() {
        let mut found = Vec::new(alloc);
        walk(alloc, &back, &mut marks, *rank, &mut found)?;
        for member in &found {
            if let Some(component) = components.get_mut(*member as usize) {
                *component = number;
            }
        }
    }
    Ok(Circles { components })
}
