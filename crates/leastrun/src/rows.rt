//! Rows of calls that wait, one for each slot.

ghost use Rattle.std.specs.Prelude.{◌≡◌, ℕ, [], OnOk};
ghost use Rattle.std.specs.Option.{option_copied};
ghost use Rattle.leastrun.specs.parts.Queues.{row, row_of, IsAdded, IsSkipped, IsPassed};

use semantics::State;
use std::alloc::{AllocError, Global};
use std::collections::{HashMap, VecDeque};

/// For each slot in which calls wait, a row of them.
#[derive(Drop)]
pub struct SlotRows {
    alloc: Global,
    rows: HashMap<u64, VecDeque<usize>>,
}

/// Takes off the row what is matched at its front.
fn skip(state: &State, row: &mut VecDeque<usize>)
    ensures { IsSkipped state.now row.old.items row.new.items }
{
    for _ in 0..row.len() {
        let Some(call) = row.front().copied() else {
            return;
        };
        let Some(_partner) = state.partner(call) else {
            return;
        };
        let _call = row.pop_front();
    }
}

impl SlotRows {
    /// No call waits in any slot.
    pub fn new(alloc: Global) -> SlotRows
        ensures { (slot : ℕ) → row result slot ≡ [] }
    {
        SlotRows {
            alloc,
            rows: HashMap::new(alloc),
        }
    }

    /// Adds the call at the end of the slot's row. The only error is want of memory.
    pub fn add(&mut self, slot: u64, call: usize) -> Result<(), AllocError>
        ensures { OnOk result (IsAdded self.old self.new slot call) }
    {
        let mut row = self.rows.remove(&slot).unwrap_or(VecDeque::new(self.alloc));
        row.push_back(call)?;
        self.rows.insert(slot, row)?;
        Ok(())
    }

    /// The slot's row, if any call waits there.
    pub fn row(&self, slot: u64) -> Option<&VecDeque<usize>>
        ensures { row_of (option_copied result) ≡ row self.now slot }
    {
        self.rows.get(&slot)
    }

    /// Takes off the slot's row what is matched at its front.
    pub fn pass(&mut self, state: &State, slot: u64)
        ensures { IsPassed state.now self.old self.new }
    {
        let Some(row) = self.rows.get_mut(&slot) else {
            return;
        };
        skip(state, row);
        if row.is_empty() {
            let _row = self.rows.remove(&slot);
        }
    }
}
