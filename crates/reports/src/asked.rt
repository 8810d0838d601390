//! What is asked about what decided a run, and the text on it.

ghost use Rattle.std.specs.Prelude.{IfOk, string_bytes};
ghost use Rattle.callorder.specs.Resolving.{IsTextOf};
ghost use Rattle.semantics.specs.Machine.{IsStuckRun};
ghost use Rattle.reports.specs.Asking.{AreAsked, TellsAsked};

use callorder::LongProgram;
use checker::{NoRun, Reason};
use choices::{AskingLimits, Decided, decide, decide_run, told};
use options::{Form, Options};
use semantics::Step;
use std::alloc::{AllocError, Global};
use std::sync::Wait;
use std::thread::Threads;

/// How much is asked about what decided a run.
fn limits() -> AskingLimits {
    AskingLimits {
        walks: 4_000,
        ways: 64,
        search: Options::make(1, 0, 2_000).unwrap_or(Options::default()),
    }
}

/// Whether a form tells what decided a run.
fn tells_choices(form: Form) -> bool {
    match form {
        Form::Brief | Form::Whole | Form::Page | Form::Object => true,
        Form::Graph | Form::Chart | Form::Picture | Form::Messages => false,
    }
}

/// What is known of what decided a run.
#[derive(Drop)]
pub enum Asked {
    /// The form doesn't tell it.
    NotTold,
    /// The program is larger than the formula takes.
    TooLarge,
    /// It was asked.
    Known(Decided),
}

/// What decided a run of the program of a text, which ends stuck, where the form tells it.
pub fn ask<R: Threads + Wait + Sync>(
    rt: &R,
    alloc: Global,
    text: &[u8],
    program: &LongProgram,
    steps: &[Step],
    form: Form,
) -> Result<Asked, AllocError>
    requires stuck { IsStuckRun program.now steps.now }
    requires program { IsTextOf text.now program.now }
    ensures { IfOk result (AreAsked text.now) }
{
    if !tells_choices(form) {
        return Ok(Asked::NotTold);
    }
    let decided = decide_run(rt, alloc, text, program, steps, limits())?;
    Ok(Asked::Known(decided))
}

/// The same of a program of any length, by the text of the steps as an evidence: it is asked only
/// of a program that `prove` takes.
pub fn ask_if_short<R: Threads + Wait + Sync>(
    rt: &R,
    alloc: Global,
    program: &[u8],
    evidence: &[u8],
    form: Form,
) -> Result<Asked, AllocError>
    ensures { IfOk result (AreAsked program.now) }
{
    if !tells_choices(form) {
        return Ok(Asked::NotTold);
    }
    match decide(rt, alloc, program, evidence, limits()) {
        Ok(decided) => Ok(Asked::Known(decided)),
        Err(NoRun::Refused(Reason::Memory)) => Err(AllocError),
        // The program is larger than the formula takes, since the evidence shows a run.
        Err(_refused) => Ok(Asked::TooLarge),
    }
}

/// The text on what decided a run.
pub fn asked_text(alloc: Global, text: &[u8], asked: &Asked) -> Result<String, AllocError>
    ensures { IfOk result (λ told. TellsAsked asked.now (string_bytes told)) }
{
    match asked {
        Asked::NotTold => Ok(String::new(alloc)),
        Asked::TooLarge => String::from_str(
            alloc,
            "what decided it:\n  asked only of programs that prove takes\n",
        ),
        Asked::Known(decided) => told(alloc, text, decided),
    }
}
