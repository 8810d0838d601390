//! The sends and the finders that wait.

ghost use Rattle.std.specs.Prelude.{ℕ, OnOk, IfOk, Option, None, Some};
ghost use Rattle.semantics.specs.Machine.{opening};
ghost use Rattle.leastrun.specs.parts.Along.{AreOpenCalls, IsAddedTo};
ghost use Rattle.leastrun.specs.parts.Queues.{IsGrown, IsPassed};
ghost use Rattle.leastrun.specs.parts.Waiting.{IsSendIn, IsFinderIn, IsKept, IsFresh};

use crate::rows::SlotRows;
use crate::slot::{PatternForm, finder_slot, forms_of, send_slot};
use callorder::{Call, LongProgram};
use semantics::State;
use std::alloc::{AllocError, Global};

/// Where calls wait until they are matched: a send in the row of each form of the program, a finder
/// in the row of its own.
#[derive(Drop)]
pub struct Tables {
    /// The forms of the program's finders.
    pub forms: Vec<PatternForm>,
    /// The sends that wait.
    pub sends: SlotRows,
    /// The finders that wait.
    pub finders: SlotRows,
}

/// Adds a send to its rows, and leaves other calls out. The only error is want of memory.
fn add_send(
    forms: &[PatternForm],
    sends: &mut SlotRows,
    known: &Call,
    call: usize,
) -> Result<(), AllocError>
    ensures grown { OnOk result (IsGrown sends.old sends.new call) }
    ensures there { OnOk result (IsSendIn forms.now sends.new known.now call) }
{
    for place in 0..forms.len() {
        let Some(slot) = send_slot(forms[place], known) else {
            return Ok(());
        };
        sends.add(slot, call)?;
    }
    Ok(())
}

/// Adds a finder to its row, and leaves other calls out. The only error is want of memory.
fn add_finder(finders: &mut SlotRows, known: &Call, call: usize) -> Result<(), AllocError>
    ensures grown { OnOk result (IsGrown finders.old finders.new call) }
    ensures there { OnOk result (IsFinderIn finders.new known.now call) }
{
    let Some(slot) = finder_slot(known) else {
        return Ok(());
    };
    finders.add(slot, call)
}

/// Takes off a send's rows what is matched at their fronts.
fn pass_send(forms: &[PatternForm], sends: &mut SlotRows, state: &State, known: &Call)
    ensures { IsPassed state.now sends.old sends.new }
{
    for place in 0..forms.len() {
        let Some(slot) = send_slot(forms[place], known) else {
            return;
        };
        sends.pass(state, slot);
    }
}

/// Takes off a finder's row what is matched at its front.
fn pass_finder(finders: &mut SlotRows, state: &State, known: &Call)
    ensures { IsPassed state.now finders.old finders.new }
{
    let Some(slot) = finder_slot(known) else {
        return;
    };
    finders.pass(state, slot);
}

impl Tables {
    /// No call waits. The only error is want of memory.
    pub fn new(alloc: Global, program: &LongProgram) -> Result<Tables, AllocError>
        ensures { IfOk result (λ tables. IsKept program.now None (opening program.now) tables) }
    {
        let _calls = program.calls();
        let forms = forms_of(alloc, program)?;
        Ok(Tables {
            forms,
            sends: SlotRows::new(alloc),
            finders: SlotRows::new(alloc),
        })
    }

    /// Has the call wait. The only error is want of memory.
    fn add(&mut self, program: &LongProgram, call: usize) -> Result<(), AllocError>
        ensures { OnOk result (IsAddedTo program.now call self.old self.new) }
    {
        let Some(known) = program.call(call) else {
            return Ok(());
        };
        add_send(&self.forms, &mut self.sends, &known, call)?;
        add_finder(&mut self.finders, &known, call)?;
        Ok(())
    }

    /// Has the fresh call wait where it is open. The only error is want of memory.
    pub fn post(
        &mut self,
        program: &LongProgram,
        state: &State,
        call: usize,
    ) -> Result<(), AllocError>
        requires fresh { IsFresh program.now state.now (Some call) }
        requires kept { IsKept program.now (Some call) state.now self.old }
        ensures { OnOk result (IsKept program.now None state.now self.new) }
    {
        if !state.is_open(program, call) {
            return Ok(());
        }
        self.add(program, call)?;
        Ok(())
    }

    /// Has the open calls of a state wait. The only error is want of memory.
    pub fn of(
        alloc: Global,
        program: &LongProgram,
        state: &State,
        calls: &[usize],
    ) -> Result<Tables, AllocError>
        requires { AreOpenCalls program.now state.now calls.now }
        ensures { IfOk result (λ tables. IsKept program.now None state.now tables) }
    {
        let _calls = program.calls();
        let mut tables = Tables::new(alloc, program)?;
        for place in 0..calls.len() {
            tables.add(program, calls[place])?;
        }
        Ok(tables)
    }

    /// Takes off the call's rows what is matched at their fronts.
    pub fn pass(&mut self, program: &LongProgram, state: &State, call: usize)
        ensures { (fresh : Option ℕ) → IsKept program.now fresh state.now self.old → IsKept program.now fresh state.now self.new }
    {
        let Some(known) = program.call(call) else {
            return;
        };
        pass_send(&self.forms, &mut self.sends, state, &known);
        pass_finder(&mut self.finders, state, &known);
    }
}
