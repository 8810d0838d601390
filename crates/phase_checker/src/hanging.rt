//! A run of a program that gets stuck where one of its phases does.

ghost use Rattle.std.specs.Prelude.{◌≡◌, IfOk, IfSome, length, true};
ghost use Rattle.calltext.specs.Grammar.{long};
ghost use Rattle.callorder.specs.Programs.{MpiProgram};
ghost use Rattle.callorder.specs.Resolving.{IsTextOfWithin};
ghost use Rattle.semantics.specs.Headline.{IsStuckRunWithin};
ghost use Rattle.semantics.specs.Machine.{IsStuckRun};
ghost use Rattle.phases.specs.Rests.{IsRest};
ghost use Rattle.phase_checker.specs.Dealing.{IsSomeRest};

use crate::phase::Phase;
use callorder::LongProgram;
use deciding::{Undecided, program_of};
use leastrun::run_along;
use phases::first_places;
use semantics::Step;
use std::alloc::{AllocError, Global};

/// Takes the phase at a place of the order off what is left of the program, or tells that it isn't
/// in front.
fn is_dealt(
    program: &LongProgram,
    phases: &[Phase],
    order: &[usize],
    place: usize,
    next: &mut [usize],
) -> bool
    requires { length next.old ≡ program.now.ranks }
    ensures { (q : MpiProgram) → IsRest program.now next.old q → result ≡ true → IsSomeRest program.now next.new }
{
    let Some(number) = order.get(place) else {
        return false;
    };
    let Some(phase) = phases.get(*number) else {
        return false;
    };
    phase.deal(program, next)
}

/// For each rank the place of its first call behind so many phases, where they are in front.
fn bounds_at(
    alloc: Global,
    program: &LongProgram,
    phases: &[Phase],
    order: &[usize],
    place: usize,
) -> Result<Option<Vec<usize>>, AllocError> {
    let mut next = first_places(alloc, program)?;
    for before in 0..place {
        if !is_dealt(program, phases, order, before, &mut next) {
            return Ok(None);
        }
    }
    Ok(Some(next))
}

/// The place in the program of a call of a part, which begins at these bounds.
fn place_in(part: &LongProgram, first: &[usize], bounds: &[usize], call: usize) -> Option<usize> {
    let known = part.call(call)?;
    let rank = known.rank as usize;
    let begin = first.get(rank).copied()?;
    let bound = bounds.get(rank).copied()?;
    bound.checked_add(call.checked_sub(begin)?)
}

/// The step of the program that a step of a part is.
fn step_in(part: &LongProgram, first: &[usize], bounds: &[usize], step: Step) -> Option<Step> {
    match step {
        Step::Issue { .. } => Some(step),
        Step::Match { send, taker } => {
            let send = place_in(part, first, bounds, send)?;
            let taker = place_in(part, first, bounds, taker)?;
            Some(Step::Match { send, taker })
        }
        Step::See { send, probe } => {
            let send = place_in(part, first, bounds, send)?;
            let probe = place_in(part, first, bounds, probe)?;
            Some(Step::See { send, probe })
        }
    }
}

/// The steps of the program that the steps of a part are.
fn steps_in(
    alloc: Global,
    part: &LongProgram,
    bounds: &[usize],
    steps: &[Step],
) -> Result<Option<Vec<Step>>, AllocError> {
    let first = first_places(alloc, part)?;
    let mut placed = Vec::with_capacity(alloc, steps.len())?;
    for step in steps {
        let Some(step) = step_in(part, &first, bounds, *step) else {
            return Ok(None);
        };
        placed.push(step)?;
    }
    Ok(Some(placed))
}

/// The program of a text, if it is one of a program.
fn program_in(alloc: Global, text: &[u8]) -> Result<Option<LongProgram>, AllocError>
    ensures { IfOk result (λ found. IfSome found (IsTextOfWithin long text.now)) }
{
    match program_of(alloc, text) {
        Ok(program) => Ok(Some(program)),
        Err(Undecided::Memory) => Err(AllocError),
        Err(Undecided::Read(_fault)) => Ok(None),
        Err(Undecided::Resolve(_fault)) => Ok(None),
    }
}

/// A run of the program that ends stuck, along these steps of a part that begins at these bounds.
fn stuck_along(
    alloc: Global,
    program: &LongProgram,
    part: &LongProgram,
    bounds: &[usize],
    steps: &[Step],
) -> Result<Option<Vec<Step>>, AllocError>
    ensures { IfOk result (λ found. IfSome found (λ steps. IsStuckRun program.now steps.items)) }
{
    let Some(wanted) = steps_in(alloc, part, bounds, steps)? else {
        return Ok(None);
    };
    let Some((run, state)) = run_along(alloc, program, bounds, &wanted)? else {
        return Ok(None);
    };
    match state.unfinished(program) {
        None => Ok(None),
        Some(_rank) => Ok(Some(run)),
    }
}

/// A run of the program of a text that ends stuck, along a run of one of its phases that does: the
/// steps are such a run of the program of the text `part`, which stands at this place of the order,
/// from 0, behind the phases before it. These run first, and whatever can go on behind the steps
/// does. The text has no limit but memory's and that numbers have 31 bits. The only error is want
/// of memory.
///
/// `None` where the phases before aren't in front of the program, or where the run that is made so
/// doesn't end stuck: a later phase may send what the stuck one waits for.
///
/// The time is near linear in the text, and for each match of the steps linear in the calls of its
/// two ranks.
pub fn stuck_by(
    alloc: Global,
    text: &[u8],
    phases: &[Phase],
    order: &[usize],
    place: usize,
    part: &[u8],
    steps: &[Step],
) -> Result<Option<Vec<Step>>, AllocError>
    ensures { IfOk result (λ found. IfSome found (λ run. IsStuckRunWithin long text.now run.items)) }
{
    let Some(program) = program_in(alloc, text)? else {
        return Ok(None);
    };
    let Some(part) = program_in(alloc, part)? else {
        return Ok(None);
    };
    let Some(bounds) = bounds_at(alloc, &program, phases, order, place)? else {
        return Ok(None);
    };
    let run = stuck_along(alloc, &program, &part, &bounds, steps)?;
    Ok(run)
}
