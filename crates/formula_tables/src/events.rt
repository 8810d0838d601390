//! The places of a program's events.

ghost use Rattle.std.specs.Prelude.{◌≡◌, ◌<◌, ◌≤◌, ◌^◌, ◌+◌, [], ◌∷◌, ◌++◌, if◌then◌else◌, IfOk, OnOk, length, map};
ghost use Rattle.std.specs.List.{filter, range_with_len};
ghost use Rattle.candidates.specs.Pairs.{places};
ghost use Rattle.formula.specs.Families.{events, place_of_event, finds_message};
ghost use Rattle.formula_tables.specs.Numbers.{event_slot, event_slots};

use crate::calls;
use crate::places::FirstPlaces;
use callorder::Program;
use formula::RunEvent;
use std::alloc::{AllocError, Global};
use std::marker::Model;

/// The events of a program: the issue of each call, and then the match of each taker and the see of
/// each probe. An event is found in constant time.
#[derive(Drop)]
pub struct Events<'a> {
    program: &'a Program,
    places: FirstPlaces,
}

impl<'a> Model for Events<'a> {
    ghost use Rattle.std.specs.Prelude.{◌≡◌};
    ghost use Rattle.callorder.specs.Programs.{MpiProgram};
    ghost use Rattle.formula_tables.specs.Numbers.{event_slots};

    ghost Value = { MpiProgram };

    ghost view = { λ e. e.program.now };

    ghost invariant = { λ e. e.places ≡ event_slots e.program.now };
}

/// The number of an event among those of so many calls.
fn slot(calls: usize, event: &RunEvent) -> usize
    requires { calls < 2 ^ 62 }
    ensures { result ≡ event_slot calls event.now }
{
    match *event {
        RunEvent::Issue(call) => { if call < calls { call } else { calls + calls } }
        RunEvent::Match(taker) => {
            if taker < calls {
                calls + taker
            } else {
                calls + calls
            }
        }
    }
}

/// The numbers of the issues.
fn issues(alloc: Global, calls: usize) -> Result<Vec<usize>, AllocError>
    ensures { IfOk result (λ slots. slots.items ≡ range_with_len 0 calls) }
{
    let mut slots = Vec::new(alloc);
    for call in 0..calls {
        slots.push(call)?;
    }
    Ok(slots)
}

fn push_match(
    slots: &mut Vec<usize>,
    program: &Program,
    calls: usize,
    taker: usize,
) -> Result<(), AllocError>
    requires few { calls < 2 ^ 62 }
    requires taker { taker < calls }
    ensures { OnOk result (slots.new.items ≡ slots.old.items ++ (if finds_message program.now taker then (calls + taker) ∷ [] else [])) }
{
    if calls::is_finder(program, taker) {
        slots.push(calls + taker)?;
    }
    Ok(())
}

/// Adds the numbers of matches and sees.
fn push_matches(slots: &mut Vec<usize>, program: &Program, calls: usize) -> Result<(), AllocError>
    requires { calls < 2 ^ 62 }
    ensures { OnOk result (slots.new.items ≡ slots.old.items ++ map (λ t.
        calls + t) (filter (finds_message program.now) (range_with_len 0 calls))) }
{
    for taker in 0..calls {
        push_match(slots, program, calls, taker)?;
    }
    Ok(())
}

fn slots(alloc: Global, program: &Program) -> Result<Vec<usize>, AllocError>
    ensures { IfOk result (λ slots. slots.items ≡ event_slots program.now) }
{
    let calls = program.calls().len();
    let mut slots = issues(alloc, calls)?;
    push_matches(&mut slots, program, calls)?;
    Ok(slots)
}

fn count_takers(program: &Program) -> usize
    ensures few { result ≤ length program.now.calls }
    ensures same { result ≡ length (filter (finds_message program.now) (places program.now)) }
{
    (0..program.calls().len())
        .filter(|call| calls::is_finder(program, *call))
        .count()
}

/// How many events the program has.
pub fn count(program: &Program) -> usize
    ensures { result ≡ length (events program.now) }
{
    program.calls().len() + count_takers(program)
}

impl<'a> Events<'a> {
    /// The events of the program. The only error is want of memory.
    pub fn make(alloc: Global, program: &'a Program) -> Result<Events<'a>, AllocError>
        ensures { IfOk result (λ events. events ≡ program.now) }
    {
        let calls = program.calls().len();
        let slots = slots(alloc, program)?;
        let places = FirstPlaces::make(alloc, calls + calls, slots)?;
        Ok(Events { program, places })
    }

    /// The program.
    pub fn program(&self) -> &'a Program
        ensures { result.now ≡ self.now }
    {
        self.program
    }

    /// How many events there are.
    pub fn len(&self) -> usize
        ensures { result ≡ length (events self.now) }
    {
        self.places.len()
    }

    /// The place of the event, from 0, or the number of all events where it is none of the
    /// program's.
    pub fn place_of(&self, event: &RunEvent) -> usize
        ensures { result ≡ place_of_event self.now event.now }
    {
        self.places.first(slot(self.program.calls().len(), event))
    }
}
