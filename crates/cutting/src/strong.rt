//! The strong components of the graph of calls (Tarjan's algorithm).

use crate::graph::Graph;
use crate::lists::{at, put};
use callorder::LongProgram;
use std::alloc::{AllocError, Global};

/// What stands for no component yet.
const NONE: usize = usize::MAX;

/// A call that is walked through, and which of its needs comes next.
#[derive(Clone, Copy)]
struct Turn {
    call: usize,
    next: usize,
}

#[derive(Drop)]
struct Walk {
    /// For each call when it was met, from 1; 0 for one that wasn't.
    met: Vec<usize>,
    /// For each call the earliest that is known to be of its component.
    low: Vec<usize>,
    component: Vec<usize>,
    /// Calls that were met, whose component isn't known.
    waiting: Vec<usize>,
    turns: Vec<Turn>,
    last_met: usize,
    count: usize,
}

impl Walk {
    fn new(alloc: Global, count: usize) -> Result<Walk, AllocError> {
        Ok(Walk {
            met: vec![in alloc; 0; count]?,
            low: vec![in alloc; 0; count]?,
            component: vec![in alloc; NONE; count]?,
            waiting: Vec::new(alloc),
            turns: Vec::new(alloc),
            last_met: 0,
            count: 0,
        })
    }

    fn meet(&mut self, call: usize) -> Result<(), AllocError> {
        self.last_met = self.last_met.saturating_add(1);
        put(&mut self.met, call, self.last_met);
        put(&mut self.low, call, self.last_met);
        self.waiting.push(call)?;
        self.turns.push(Turn { call, next: 0 })?;
        Ok(())
    }

    fn lower(&mut self, call: usize, low: usize) {
        let lower = at(&self.low, call).min(low);
        put(&mut self.low, call, lower);
    }

    /// Goes from a call to one that it needs.
    fn see(&mut self, call: usize, need: usize) -> Result<(), AllocError> {
        let met = at(&self.met, need);
        if met == 0 {
            return self.meet(need);
        }
        if at(&self.component, need) == NONE {
            self.lower(call, met);
        }
        Ok(())
    }

    /// Ends the walk through a call, with the component that it leads, if it leads one.
    fn leave(&mut self, call: usize) {
        let low = at(&self.low, call);
        if let Some(above) = self.turns.last().copied() {
            self.lower(above.call, low);
        }
        if low != at(&self.met, call) {
            return;
        }
        let number = self.count;
        self.count = number.saturating_add(1);
        for _waiting in 0..self.waiting.len() {
            let Some(member) = self.waiting.pop() else {
                return;
            };
            put(&mut self.component, member, number);
            if member == call {
                return;
            }
        }
    }

    /// One step of the walk.
    fn step(&mut self, program: &LongProgram, graph: &Graph) -> Result<(), AllocError> {
        let Some(turn) = self.turns.pop() else {
            return Ok(());
        };
        match graph.need(program, turn.call, turn.next) {
            None => {
                self.leave(turn.call);
                Ok(())
            }
            Some(need) => {
                self.turns.push(Turn {
                    call: turn.call,
                    next: turn.next.saturating_add(1),
                })?;
                self.see(turn.call, need)
            }
        }
    }
}

/// For each call the number of its component, from 0. A component has a greater number than those
/// that it needs.
pub fn components(
    alloc: Global,
    program: &LongProgram,
    graph: &Graph,
) -> Result<Vec<usize>, AllocError> {
    let calls = program.calls().len();
    let mut walk = Walk::new(alloc, calls)?;
    for root in 0..calls {
        if at(&walk.met, root) == 0 {
            walk.meet(root)?;
            let most = calls.saturating_mul(2).saturating_add(graph.len());
            for _step in 0..most {
                if walk.turns.is_empty() {
                    break;
                }
                walk.step(program, graph)?;
            }
        }
    }
    Ok(walk.component)
}
