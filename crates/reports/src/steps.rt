//! The steps of a schedule, told one by one.

ghost use Rattle.std.specs.Prelude.{◌≡◌, ◌++◌, ◌≤◌, IfOk, IsSome, OnOk, length, slice_get, true};
ghost use Rattle.calltext.specs.Readable.{IsText};
ghost use Rattle.semantics.specs.Machine.{IsEnabled, IsRun, IsStuckRun, opening};
ghost use Rattle.reports.specs.Telling.{issue_words, told_issue_line, told_line, told_run, verb_of_kind, TellsReplay, TellsRun};

use callorder::{Kind, LongProgram};
use calltext::Verb;
use charts::lined_steps;
use checker::{NoRun, Reason, StuckRun, stuck_run_of};
use plaintext::put_number;
use prooflog::put_find;
use semantics::{State, Step};
use std::alloc::{AllocError, Global};

/// How a replay ends.
#[derive(Drop)]
pub enum Replayed {
    /// The schedule is a run of the program that ends stuck. This is the text that tells its steps.
    Stuck(Vec<u8>),
    /// There is no such schedule, for this reason, which is none that only refutations have.
    Refused(Reason),
    /// The evidence is a refutation.
    NotASchedule,
}

/// The verb of a call, as a program's text has it.
fn verb_of(kind: &Kind) -> Verb
    ensures { result ≡ verb_of_kind kind.now }
{
    match *kind {
        Kind::Send { mode, blocking, .. } => Verb::Send {
            mode,
            started: !blocking,
        },
        Kind::Receive { blocking, .. } => Verb::Receive { started: !blocking },
        Kind::MatchedProbe { .. } => Verb::MatchedProbe,
        Kind::Probe { .. } => Verb::Probe,
        Kind::MatchedReceive { blocking } => Verb::MatchedReceive { started: !blocking },
        Kind::Wait { .. } => Verb::Wait,
    }
}

fn how_issued(buffered: bool) -> &'static str
    ensures { result.now ≡ issue_words buffered }
{
    if buffered {
        " buffered call "
    } else {
        " call "
    }
}

/// Tells the issue of the call at a place. Ranks count from 0, calls from 1.
fn put_issue(
    out: &mut Vec<u8>,
    program: &LongProgram,
    place: usize,
    rank: u32,
    buffered: bool,
) -> Result<(), AllocError>
    requires there { IsSome (slice_get program.now.calls place) }
    requires few { length program.now.calls ≤ 1024 }
    ensures { OnOk result (out.new.items ≡ out.old.items ++ told_issue_line program.now place rank buffered) }
{
    let _calls = program.calls();
    let Some(call) = program.call(place) else {
        unreachable!();
    };
    out.extend_from_slice(b"issue ")?;
    put_number(out, rank)?;
    out.extend_from_slice(how_issued(buffered).as_bytes())?;
    put_number(out, place as u32 + 1)?;
    out.push(b' ')?;
    out.extend_from_slice(verb_of(&call.kind).text().as_bytes())?;
    out.push(b'\n')?;
    Ok(())
}

/// Tells a step that is enabled in a state.
fn put_told(
    out: &mut Vec<u8>,
    program: &LongProgram,
    state: &State,
    step: Step,
) -> Result<(), AllocError>
    requires enabled { IsEnabled program.now state.now step }
    requires few { length program.now.calls ≤ 1024 }
    ensures { OnOk result (out.new.items ≡ out.old.items ++ told_line program.now state.now step) }
{
    let _calls = program.calls();
    match step {
        Step::Issue { rank, buffered } => {
            let Some(place) = state.next_of(rank) else {
                unreachable!();
            };
            put_issue(out, program, place, rank, buffered)
        }
        Step::Match { send, taker } => put_find(out, false, send as u32 + 1, taker as u32 + 1),
        Step::See { send, probe } => put_find(out, true, send as u32 + 1, probe as u32 + 1),
    }
}

/// A line for each step of a run, and then `stuck`, by the numbers of calls.
fn numbered(alloc: Global, program: &LongProgram, steps: &[Step]) -> Result<Vec<u8>, AllocError>
    requires run { IsRun program.now (opening program.now) steps.now }
    requires few { length program.now.calls ≤ 1024 }
    ensures { IfOk result (λ text. text.items ≡ told_run program.now steps.now) }
{
    let mut state = State::start(alloc, program)?;
    let mut text = Vec::new(alloc);
    for step in steps {
        put_told(&mut text, program, &state, *step)?;
        state.apply(program, *step);
    }
    text.extend_from_slice(b"stuck\n")?;
    Ok(text)
}

/// The text of the run of the program of this text, which ends stuck, by lines or by numbers.
fn text_of(alloc: Global, text: &[u8], run: &StuckRun, lines: bool) -> Result<Vec<u8>, AllocError>
    requires says { IsText text.now run.now.source }
    requires stuck { IsStuckRun run.now.program run.now.schedule }
    ensures { IfOk result (λ told. TellsRun lines text.now run.now.program run.now.schedule told.items) }
{
    let _calls = run.program.calls();
    let steps = run.schedule.steps();
    if lines {
        lined_steps(alloc, text, &run.source, &run.program, steps)
    } else {
        numbered(alloc, &run.program, steps)
    }
}

/// Replays the schedule of an evidence on a program, and tells its steps, a line for each, and then
/// `stuck`; ranks count from 0, calls and lines of the program's text from 1. Steps are told by the
/// numbers of their calls, or by the lines that these stand in. What isn't a run of the program
/// that ends stuck is refused as `verdict` refuses it.
pub fn replay(alloc: Global, program: &[u8], evidence: &[u8], lines: bool) -> Replayed
    ensures { TellsReplay lines program.now evidence.now result }
{
    let run = match stuck_run_of(alloc, program, evidence) {
        Ok(run) => run,
        Err(NoRun::Refused(reason)) => return Replayed::Refused(reason),
        Err(NoRun::NotASchedule) => return Replayed::NotASchedule,
    };
    match text_of(alloc, program, &run, lines) {
        Ok(text) => Replayed::Stuck(text),
        Err(_) => Replayed::Refused(Reason::Memory),
    }
}
