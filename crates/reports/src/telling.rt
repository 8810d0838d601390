//! A run that ends stuck in each form.

ghost use Rattle.std.specs.Prelude.{◌≡◌, IfOk, option_copied};
ghost use Rattle.calltext.specs.Grammar.{long};
ghost use Rattle.callorder.specs.Resolving.{IsTextOfWithin};
ghost use Rattle.semantics.specs.RunEnds.{IsFinishedRun};
ghost use Rattle.semantics.specs.Machine.{IsStuckRun};
ghost use Rattle.frequency.specs.Frequencies.{IsFrequency};
ghost use Rattle.reports.specs.Asking.{AreAsked};
ghost use Rattle.reports.specs.Explanations.{IsDrawnFrom, Says, SaysHowOften, well_steps};

use crate::asked::{Asked, asked_text};
use crate::deciders::deciders_of;
use callorder::LongProgram;
use calltext::LongSource;
use charts::{chart, picture};
use checker::{Reason, program_of};
use explain::{explanation, messages, wait_graph};
use explain_json::object_text;
use finishing::frequency_of_program;
use frequency::{Frequency, frequency_of};
use htmlpage::page;
use options::Form;
use prover::{finished_walk, run_that_parts_last};
use semantics::Step;
use std::alloc::{AllocError, Global};
use std::thread::Threads;

/// The most calls of a program of which runs by chance are tried.
const FEW_CALLS: usize = 1_024;

/// The most calls of a program of which a formula is asked whether some run finishes.
const FEW_CALLS_OF_A_FORMULA: usize = 256;

/// How many conflicts it takes before it is given up.
const CONFLICTS: u64 = 20_000;

/// How often the runs of a program get stuck, where no run that was tried finishes: of a program of
/// at most 256 calls, a formula is asked.
fn often_by_formula<R: Threads + Sync>(
    rt: &R,
    alloc: Global,
    text: &[u8],
    program: &LongProgram,
) -> Result<Frequency, AllocError>
    requires text { IsTextOfWithin long text.now program.now }
    requires unknown { IsFrequency program.now Frequency.Unknown }
    ensures { IfOk result (IsFrequency program.now) }
{
    if program.calls().len() > FEW_CALLS_OF_A_FORMULA {
        return Ok(Frequency::Unknown);
    }
    match program_of(alloc, text) {
        Ok(short) => frequency_of_program(rt, alloc, short, CONFLICTS),
        Err(Reason::Memory) => Err(AllocError),
        Err(_reason) => Ok(Frequency::Unknown),
    }
}

/// How often the runs of a program get stuck, where its runs that buffer most and least don't tell
/// it: of a program of at most 1,024 calls, runs by chance are tried.
fn often_by_chance<R: Threads + Sync>(
    rt: &R,
    alloc: Global,
    text: &[u8],
    program: &LongProgram,
    steps: &[Step],
) -> Result<Frequency, AllocError>
    requires text { IsTextOfWithin long text.now program.now }
    requires unknown { IsFrequency program.now Frequency.Unknown }
    ensures { IfOk result (IsFrequency program.now) }
{
    if program.calls().len() > FEW_CALLS {
        return Ok(Frequency::Unknown);
    }
    if let Some(run) = run_that_parts_last(alloc, program, steps)? {
        return Ok(Frequency::Sometimes(run));
    }
    match finished_walk(alloc, program)? {
        Some(run) => Ok(Frequency::Sometimes(run)),
        None => often_by_formula(rt, alloc, text, program),
    }
}

/// A run that ends well, and parts from these steps where that is decided, as far as is known; else
/// the one that is given.
fn parting_run(
    alloc: Global,
    program: &LongProgram,
    steps: &[Step],
    known: Vec<Step>,
) -> Result<Vec<Step>, AllocError>
    requires { IsFinishedRun program.now known.items }
    ensures { IfOk result (λ run. IsFinishedRun program.now run.items) }
{
    if program.calls().len() > FEW_CALLS {
        return Ok(known);
    }
    match run_that_parts_last(alloc, program, steps)? {
        Some(run) => Ok(run),
        None => Ok(known),
    }
}

/// How often the runs of the program of a text get stuck, of which these steps are one that does.
fn often<R: Threads + Sync>(
    rt: &R,
    alloc: Global,
    text: &[u8],
    program: &LongProgram,
    steps: &[Step],
) -> Result<Frequency, AllocError>
    requires { IsTextOfWithin long text.now program.now }
    ensures { IfOk result (IsFrequency program.now) }
{
    match frequency_of(alloc, program)? {
        Frequency::Always => Ok(Frequency::Always),
        Frequency::Sometimes(known) => {
            let run = parting_run(alloc, program, steps, known)?;
            Ok(Frequency::Sometimes(run))
        }
        Frequency::Unknown => often_by_chance(rt, alloc, text, program, steps),
    }
}

/// The text that explains a run of the program of this text, and says that its runs get stuck so
/// often, with all lists whole or not.
fn words_of(
    alloc: Global,
    text: &[u8],
    source: &LongSource,
    program: &LongProgram,
    steps: &[Step],
    asked: &Asked,
    frequency: &Frequency,
    whole: bool,
) -> Result<Vec<u8>, AllocError>
    requires stuck { IsStuckRun program.now steps.now }
    requires frequency { IsFrequency program.now frequency.now }
    requires asked { AreAsked text.now asked.now }
    ensures { IfOk result (λ told. Says text.now program.now frequency.now told.items) }
{
    let decided = asked_text(alloc, text, asked)?;
    explanation(
        alloc,
        text,
        source,
        program,
        steps,
        frequency,
        decided.as_str(),
        whole,
    )
}

/// The text that explains a run of the program of this text, with all lists whole or not.
fn explained_text<R: Threads + Sync>(
    rt: &R,
    alloc: Global,
    text: &[u8],
    source: &LongSource,
    program: &LongProgram,
    steps: &[Step],
    asked: &Asked,
    whole: bool,
) -> Result<Vec<u8>, AllocError>
    requires text { IsTextOfWithin long text.now program.now }
    requires stuck { IsStuckRun program.now steps.now }
    requires asked { AreAsked text.now asked.now }
    ensures { IfOk result (λ told. SaysHowOften text.now program.now told.items) }
{
    let frequency = often(rt, alloc, text, program, steps)?;
    words_of(
        alloc, text, source, program, steps, asked, &frequency, whole,
    )
}

/// The steps of a run that ends well, where one is known.
fn well_steps(frequency: &Frequency) -> Option<&[Step]>
    ensures { option_copied result ≡ well_steps frequency.now }
{
    match frequency {
        Frequency::Always | Frequency::Unknown => None,
        Frequency::Sometimes(steps) => Some(steps.as_slice()),
    }
}

/// The page that explains a run of the program of this text, with the timeline of a run that ends
/// well below its own, where one is known.
fn explained_page<R: Threads + Sync>(
    rt: &R,
    alloc: Global,
    text: &[u8],
    source: &LongSource,
    program: &LongProgram,
    steps: &[Step],
    asked: &Asked,
) -> Result<Vec<u8>, AllocError>
    requires text { IsTextOfWithin long text.now program.now }
    requires stuck { IsStuckRun program.now steps.now }
    requires asked { AreAsked text.now asked.now }
    ensures { IfOk result (λ told. IsDrawnFrom Form.Page text.now source.now program.now steps.now told.items) }
{
    let frequency = often(rt, alloc, text, program, steps)?;
    let words = words_of(
        alloc, text, source, program, steps, asked, &frequency, false,
    )?;
    let well = well_steps(&frequency);
    page(alloc, text, source, program, steps, well, &words)
}

/// The object that explains a run of the program of this text.
fn explained_object<R: Threads + Sync>(
    rt: &R,
    alloc: Global,
    text: &[u8],
    source: &LongSource,
    program: &LongProgram,
    steps: &[Step],
    asked: &Asked,
) -> Result<Vec<u8>, AllocError>
    requires text { IsTextOfWithin long text.now program.now }
    requires stuck { IsStuckRun program.now steps.now }
    requires asked { AreAsked text.now asked.now }
    ensures { IfOk result (λ told. IsDrawnFrom Form.Object text.now source.now program.now steps.now told.items) }
{
    let frequency = often(rt, alloc, text, program, steps)?;
    let deciders = deciders_of(alloc, asked)?;
    object_text(alloc, text, source, program, steps, &frequency, &deciders)
}

/// The text, in this form, on a run of the program of this text that ends stuck.
pub fn run_text<R: Threads + Sync>(
    rt: &R,
    alloc: Global,
    text: &[u8],
    source: &LongSource,
    program: &LongProgram,
    steps: &[Step],
    asked: &Asked,
    form: Form,
) -> Result<Vec<u8>, AllocError>
    requires text { IsTextOfWithin long text.now program.now }
    requires stuck { IsStuckRun program.now steps.now }
    requires asked { AreAsked text.now asked.now }
    ensures { IfOk result (λ told. IsDrawnFrom form text.now source.now program.now steps.now told.items) }
{
    match form {
        Form::Graph => wait_graph(alloc, text, source, program, steps),
        Form::Messages => messages(alloc, text, source, program, steps),
        Form::Chart => chart(alloc, text, source, program, steps),
        Form::Picture => picture(alloc, text, source, program, steps),
        Form::Page => explained_page(rt, alloc, text, source, program, steps, asked),
        Form::Object => explained_object(rt, alloc, text, source, program, steps, asked),
        Form::Brief => explained_text(rt, alloc, text, source, program, steps, asked, false),
        Form::Whole => explained_text(rt, alloc, text, source, program, steps, asked, true),
    }
}
