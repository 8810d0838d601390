//! Which calls a phase with a call has to have too.

use crate::lists::{at, put};
use callorder::LongProgram;
use std::alloc::{AllocError, Global};

/// Two calls: a phase with the first has the second, or stands behind a phase that has it.
#[derive(Clone, Copy)]
pub struct Edge {
    pub from: usize,
    pub to: usize,
}

/// What calls need.
#[derive(Drop)]
pub struct Needs {
    pub edges: Vec<Edge>,
    /// Those edges that lead from a finder of any source to a send that fits it, and isn't known to
    /// come only once it has found.
    pub unordered: Vec<Edge>,
}

/// For each call the calls that it needs, besides the call before it.
#[derive(Drop)]
pub struct Graph {
    /// Where the needs of each call begin, and behind the last where they end.
    starts: Vec<usize>,
    needs: Vec<usize>,
}

impl Graph {
    /// The graph of these edges between so many calls.
    pub fn of(alloc: Global, count: usize, edges: &[Edge]) -> Result<Graph, AllocError> {
        let mut starts = vec![in alloc; 0; count.saturating_add(2)]?;
        for edge in edges {
            let next = edge.from.saturating_add(2);
            let more = at(&starts, next).saturating_add(1);
            put(&mut starts, next, more);
        }
        for place in 1..starts.len() {
            let sum = at(&starts, place).saturating_add(at(&starts, place - 1));
            put(&mut starts, place, sum);
        }
        let mut needs = vec![in alloc; 0; edges.len()]?;
        for edge in edges {
            let place = edge.from.saturating_add(1);
            let slot = at(&starts, place);
            put(&mut needs, slot, edge.to);
            put(&mut starts, place, slot.saturating_add(1));
        }
        Ok(Graph { starts, needs })
    }

    /// How many needs there are in all.
    pub fn len(&self) -> usize {
        self.needs.len()
    }

    /// A need of the call by its number: from 1 those of the graph, and with 0 the call before it
    /// in its rank. `None` behind the last; a call without one before it needs itself.
    pub fn need(&self, program: &LongProgram, call: usize, number: usize) -> Option<usize> {
        if number == 0 {
            let before = call.saturating_sub(1);
            return Some(if program.are_of_one_rank(before, call) {
                before
            } else {
                call
            });
        }
        let place = at(&self.starts, call).saturating_add(number - 1);
        if place < at(&self.starts, call.saturating_add(1)) {
            self.needs.get(place).copied()
        } else {
            None
        }
    }
}
