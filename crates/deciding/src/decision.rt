//! What a run decides.

ghost use Rattle.std.specs.Prelude.{◌≡◌, ◌⊎◌, ℕ, IfNone, IfOk, IfSome, IsTrue, Some};
ghost use Rattle.callorder.specs.Programs.{are_fit, call_at, takes};
ghost use Rattle.clocks.specs.Clocks.{IsRival, IsUnordered};
ghost use Rattle.semantics.specs.Machine.{after_all, opening, partner_of};
ghost use Rattle.leastrun.specs.LeastBuffered.{IsLeastBufferedRun};
ghost use Rattle.deciding.specs.Decisions.{EndsLeast, IsCaller, IsDecision, IsRace};

use callorder::LongProgram;
use clocks::first_race;
use leastrun::least_buffered_run;
use semantics::{State, Step};
use std::alloc::{AllocError, Global};

/// A call, by its place, from 0, in the program's list of calls, and its rank, from 0.
#[derive(Clone, Copy, Debug, PartialEq, Eq)]
pub struct Caller {
    pub place: usize,
    pub rank: u32,
}

/// A call that may find the message of another rank than the one that it found in the run.
#[derive(Clone, Copy, Debug, PartialEq, Eq)]
pub struct CallerRace {
    /// A receive, matched probe or probe of any source.
    pub finder: Caller,
    /// The send that it found in the run.
    pub found: Caller,
    /// A send of another rank that it would find too, and that may come first, as far as the run
    /// tells.
    pub other: Caller,
}

/// What one run tells of all runs of a program.
#[derive(Drop)]
pub enum Decision {
    /// No run of the program gets stuck.
    NoDeadlock,
    /// These steps are a run of the program that ends where a rank is unfinished and no step is
    /// enabled.
    Deadlock(Vec<Step>),
    /// The run finishes, but messages may race for this call.
    Race(CallerRace),
}

/// The call at a place, where there is one.
fn caller_at(program: &LongProgram, place: usize) -> Option<Caller>
    ensures some { IfSome result (λ caller. IsCaller program.now caller × (caller.place ≡ place)) }
    ensures none { IfNone result (call_at program.now place ≡ None) }
{
    match program.call(place) {
        None => None,
        Some(call) => Some(Caller {
            place,
            rank: call.rank,
        }),
    }
}

/// The race, with the ranks of its calls and what its finder found in the run that ended so.
fn named_race(program: &LongProgram, state: &State, race: clocks::Race) -> CallerRace
    requires rival { IsRival program.now state.now race }
    requires unordered { IsUnordered program.now state.now race }
    requires ended { EndsLeast program.now state.now }
    requires fit { (c x : ℕ) → partner_of state.now c ≡ Some x → IsTrue (takes program.now c x) ⊎ IsTrue (are_fit program.now x c) }
    ensures { IsRace program.now result }
{
    let Some(finder) = caller_at(program, race.finder) else {
        unreachable!()
    };
    let Some(send) = state.partner(race.finder) else {
        unreachable!()
    };
    let Some(found) = caller_at(program, send) else {
        unreachable!()
    };
    let Some(other) = caller_at(program, race.send) else {
        unreachable!()
    };
    CallerRace {
        finder,
        found,
        other,
    }
}

/// Decides by a run that buffers as little as the policy allows, and the state at its end, whether
/// some run of the program gets stuck. The only error is want of memory.
pub fn judge_run(
    alloc: Global,
    program: &LongProgram,
    steps: Vec<Step>,
    state: &State,
) -> Result<Decision, AllocError>
    requires run { IsLeastBufferedRun program.now steps.items }
    requires end { state.now ≡ after_all (opening program.now) steps.items }
    ensures { IfOk result (IsDecision program.now) }
{
    if state.unfinished(program).is_some() {
        return Ok(Decision::Deadlock(steps));
    }
    let _calls = program.calls();
    match first_race(alloc, program, &steps) {
        Ok(None) => Ok(Decision::NoDeadlock),
        Ok(Some(race)) => Ok(Decision::Race(named_race(program, state, race))),
        Err(AllocError) => Err(AllocError),
    }
}

/// Decides by one run whether some run of the program gets stuck. The only error is want of memory.
///
/// The run takes time near linear in the calls. Where calls take any source, what is known of these
/// of each rank is counted for each call, so that the time is that of the calls times the ranks
/// that have such calls.
pub fn decide_program(alloc: Global, program: &LongProgram) -> Result<Decision, AllocError>
    ensures { IfOk result (IsDecision program.now) }
{
    let (steps, state) = least_buffered_run(alloc, program)?;
    judge_run(alloc, program, steps, &state)
}
