//! What the run that buffers as much as the policy allows tells of all runs.

ghost use Rattle.std.specs.Prelude.{◌≡◌, IfNone, IfOk, IfSome};
ghost use Rattle.semantics.specs.RunEnds.{IsFinishedRun};
ghost use Rattle.semantics.specs.Machine.{opening, after_all};
ghost use Rattle.races.specs.Races.{NamesSources};
ghost use Rattle.leastrun.specs.LeastBuffered.{IsMostBufferedRun};
ghost use Rattle.frequency.specs.Frequencies.{IsFrequency, LeastSticks};

use callorder::LongProgram;
use clocks::shows_no_race;
use leastrun::{least_buffered_run, most_buffered_run, names_sources};
use semantics::{State, Step};
use std::alloc::{AllocError, Global};

/// How often the runs of a program get stuck.
#[derive(Drop)]
pub enum Frequency {
    /// Each run gets stuck, however it goes on, and none finishes.
    Always,
    /// Some run finishes: these steps are one.
    Sometimes(Vec<Step>),
    /// Neither is known: the runs that buffer all they may, and as little as they may, get stuck,
    /// and messages may race in the former.
    Unknown,
}

/// The run that buffers as little as the policy allows, if it finishes. The only error is want of
/// memory.
fn finished_least_run(alloc: Global, program: &LongProgram) -> Result<Option<Vec<Step>>, AllocError>
    ensures some { IfOk result (λ least. IfSome least (λ steps. IsFinishedRun program.now steps.items)) }
    ensures none { IfOk result (λ least. IfNone least (LeastSticks program.now)) }
{
    let (steps, state) = least_buffered_run(alloc, program)?;
    let _calls = program.calls();
    match state.unfinished(program) {
        None => Ok(Some(steps)),
        Some(_rank) => Ok(None),
    }
}

/// What a run that buffers all it may, and the state at its end, tell of all runs. The only error
/// is want of memory.
fn judge_run(
    alloc: Global,
    program: &LongProgram,
    steps: Vec<Step>,
    state: &State,
) -> Result<Frequency, AllocError>
    requires run { IsMostBufferedRun program.now steps.items }
    requires end { state.now ≡ after_all (opening program.now) steps.items }
    ensures frequency { IfOk result (IsFrequency program.now) }
    ensures named { NamesSources program.now → result ≡ Ok Frequency.Unknown → ⊥ }
{
    let _calls = program.calls();
    let Some(_rank) = state.unfinished(program) else {
        return Ok(Frequency::Sometimes(steps));
    };
    if names_sources(program) {
        return Ok(Frequency::Always);
    }
    let is_shown = shows_no_race(alloc, program, state, &steps)?;
    if is_shown {
        return Ok(Frequency::Always);
    }
    match finished_least_run(alloc, program)? {
        Some(least) => Ok(Frequency::Sometimes(least)),
        None => Ok(Frequency::Unknown),
    }
}

/// How often the runs of a program get stuck, by one run, the one that buffers as much as the
/// policy allows. `Unknown` is told only where some receive, matched probe or probe takes any
/// source. The only error is want of memory.
///
/// The run takes time near linear in the calls. Where it gets stuck and calls take any source, what
/// is known of these of each rank is counted for each call, so that the time is that of the calls
/// times the ranks that have such calls.
pub fn frequency_of(alloc: Global, program: &LongProgram) -> Result<Frequency, AllocError>
    ensures frequency { IfOk result (IsFrequency program.now) }
    ensures named { NamesSources program.now → result ≡ Ok Frequency.Unknown → ⊥ }
{
    let (steps, state) = most_buffered_run(alloc, program)?;
    judge_run(alloc, program, steps, &state)
}
